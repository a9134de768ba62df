// Bulk and interrupt transfers: document 01, "Planning transfers".
ghost use Rattle.std.specs.Prelude.{◌≡◌, ◌<◌, ◌≤◌, false, length, nat_lt, Ok};
ghost use Rattle.words.specs.Words.{initial_len};
ghost use Rattle.plan.specs.Planning.{split_of, laid_out};
ghost use Rattle.plan.specs.DataStages.{is_in, size_of, data_hcchar, data_stage, blank_plan, with_stage, data_answer, data_stages, planned_data, data_plan, data_array};

use crate::refusals::{PlanRefusal, is_bad};
use crate::split::{chunk_of, packet_count, split_dma_lengths};
use crate::stage::{Stretch, build_stage_descs};
use crate::toggle::DataToggle;
use crate::types::{DataKind, DataRequest, Dwc2DataPlan, Dwc2StageRole, Dwc2TransferStage};
use ring::Speed;
use words::{Direction, Dwc2EpType};

// The descriptors of a stage, at most: HCTSIZ counts them in eight bits.
const DWC2_MAX_DMA_DESCS: u32 = 256;

// Plans a bulk or interrupt transfer and writes its descriptors into the array.
pub fn data_stages(request: DataRequest, array: &mut [u32]) -> Result<Dwc2DataPlan, PlanRefusal>
    ensures { (result ≡ data_plan request (length array.old)) × (array.new ≡ data_array request array.old) }
{
    data_answer(request, array.len())?;
    Ok(plan_data(request, array))
}

// 17, 18, 20, 11, in this order.
fn data_answer(request: DataRequest, words: usize) -> Result<(), PlanRefusal>
    ensures { result ≡ data_answer request words }
{
    if words < 2_048 {
        return Err(PlanRefusal::ShortBuffer);
    }
    if is_bad(request.endpoint, request.device, request.max_packet_size) {
        return Err(PlanRefusal::BadEndpoint);
    }
    if is_too_many(request) {
        return Err(PlanRefusal::TooManyDescriptors);
    }
    if words::is_beyond(request.base, counted(request)) {
        return Err(PlanRefusal::AddressLimit);
    }
    Ok(())
}

// Whether it takes more than 1,024 descriptors: a product says it, which spares a division.
fn is_too_many(request: DataRequest) -> bool
    ensures { (result ≡ nat_lt 1024 (split_of request.len (size_of request)).count) × (result ≡ false → request.len ≤ 4294967295) }
{
    request.len > 1_024 * chunk_of(size_of(request)) as u64
}

// The bytes that the descriptors count: IN is rounded up to whole packets.
fn counted(request: DataRequest) -> u64
    requires { request.len ≤ 4294967295 }
    ensures { result ≡ initial_len request.len (size_of request) (is_in request.direction) }
{
    let is_in = request.direction == Direction::In;
    words::initial_len(request.len as u32, size_of(request), is_in)
}

fn size_of(request: DataRequest) -> u16
    ensures { result ≡ size_of request }
{
    request.max_packet_size.max(1)
}

fn data_hcchar(request: DataRequest) -> u32
    ensures { result ≡ data_hcchar request }
{
    let low = request.port_speed == Speed::Low;
    let odd = (request.kind == DataKind::Interrupt) & request.odd_frame;
    words::hcchar(
        request.device,
        request.endpoint,
        request.direction,
        Dwc2EpType::from(request.kind),
        size_of(request),
        low,
        1,
        odd,
    )
}

// A stage of the data, with the PID of the running toggle.
fn data_stage(hcchar: u32, toggle: DataToggle, over: Stretch) -> Dwc2TransferStage
    ensures { result ≡ data_stage hcchar over.descs over.len over.addr over.base toggle.0 }
{
    Dwc2TransferStage::new(Dwc2StageRole::Data, hcchar, toggle.pid(), over)
}

// A plan with no stage yet.
fn blank_plan(toggle: DataToggle) -> Dwc2DataPlan
    ensures { result ≡ blank_plan toggle }
{
    let blank = Dwc2TransferStage {
        role: Dwc2StageRole::Data,
        hcchar: 0,
        hctsiz: 0,
        dma_addr: 0,
        desc_base: 0,
        descs: 0,
        len: 0,
    };
    Dwc2DataPlan {
        toggle,
        count: 0,
        stages: [blank; 4],
    }
}

// One stage more, and the toggle behind it.
fn add_stage(plan: &mut Dwc2DataPlan, stage: Dwc2TransferStage, m: u16)
    requires { plan.old.count < 4 }
    ensures { plan.new ≡ with_stage m plan.old stage }
{
    plan.stages[plan.count as usize] = stage;
    plan.count += 1;
    plan.toggle = plan.toggle.advance(packet_count(stage.len as u64, m));
}

// Each stage takes 256 descriptors, or what is left, with its address and toggle behind the one before.
fn plan_data(request: DataRequest, array: &mut [u32]) -> Dwc2DataPlan
    requires { data_answer request (length array.old) ≡ Ok tt }
    ensures { (result ≡ planned_data request) × (array.new ≡ laid_out (data_stages request) array.old) }
{
    let m = size_of(request);
    let split = split_dma_lengths(request.len, m);
    let hcchar = data_hcchar(request);
    let count = split.count as u32;
    let most = split.chunk * DWC2_MAX_DMA_DESCS;
    let mut plan = blank_plan(request.toggle);
    for i in 0..count.div_ceil(DWC2_MAX_DMA_DESCS) {
        let base = i * DWC2_MAX_DMA_DESCS;
        let before = i * most;
        let over = Stretch {
            base,
            descs: (count - base).min(DWC2_MAX_DMA_DESCS),
            addr: request.base as u32 + before,
            len: (request.len as u32 - before).min(most),
        };
        let stage = data_stage(hcchar, plan.toggle, over);
        build_stage_descs(stage, array);
        add_stage(&mut plan, stage, m);
    }
    plan
}
