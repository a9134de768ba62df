// Control transfers on endpoint 0: document 01, "Planning transfers"; USB 2.0, 8.5.3.
ghost use Rattle.std.specs.Prelude.{◌≡◌, ◌≤◌, length, Ok};
ghost use Rattle.plan.specs.Planning.{stage_of, laid_out};
ghost use Rattle.plan.specs.ControlPlan.{control_size, status_direction, status_addr, control_hcchar, status_way, setup_stage, data_stage_of, status_stage, control_stages};
ghost use Rattle.plan.specs.ControlPlan.{control_beyond, control_answer, planned_control, control_plan, control_array};

use crate::refusals::{PlanRefusal, is_bad};
use crate::stage::{Stretch, build_stage_descs};
use crate::types::{ControlRequest, Dwc2ControlPlan, Dwc2StageRole, Dwc2TransferStage};
use words::{Direction, Dwc2EpType, Dwc2Pid};

// Plans setup, data and status and writes their descriptors into the array.
pub fn build_control_plan(
    request: ControlRequest,
    array: &mut [u32],
) -> Result<Dwc2ControlPlan, PlanRefusal>
    ensures { (result ≡ control_plan request (length array.old)) × (array.new ≡ control_array request array.old) }
{
    control_answer(request, array.len())?;
    Ok(plan_control(request, array))
}

// 17, 18, 19, 11, in this order. Control data is one descriptor, so 20 cannot be.
fn control_answer(request: ControlRequest, words: usize) -> Result<(), PlanRefusal>
    ensures { result ≡ control_answer request words }
{
    if words < 2_048 {
        return Err(PlanRefusal::ShortBuffer);
    }
    if is_bad(0, request.device, request.max_packet_size) {
        return Err(PlanRefusal::BadEndpoint);
    }
    if request.len > 65_535 {
        return Err(PlanRefusal::ControlTooLong);
    }
    if control_beyond(request) {
        return Err(PlanRefusal::AddressLimit);
    }
    Ok(())
}

// The setup packet, the data if there is any, and the status packet if one comes in.
fn control_beyond(request: ControlRequest) -> bool
    requires { request.len ≤ 65535 }
    ensures { result ≡ control_beyond request }
{
    let direction = request.direction;
    let m = control_size(request);
    let bytes = words::initial_len(request.len as u32, m, direction == Direction::In);
    let has_data = request.len > 0;
    let status_in = status_direction(has_data, direction) == Direction::In;
    let setup = words::is_beyond(request.setup_dma, 8);
    let data = words::is_beyond(request.data_dma, bytes);
    let status = words::is_beyond(request.status_dma, m as u64);
    setup | ((has_data & data) | (status_in & status))
}

// A control endpoint takes at least 8 bytes a packet.
fn control_size(request: ControlRequest) -> u16
    ensures { result ≡ control_size request.max_packet_size }
{
    request.max_packet_size.max(8)
}

// Status goes the other way than the data, and in where there is none.
fn status_direction(has_data: bool, direction: Direction) -> Direction
    ensures { result ≡ status_direction has_data direction }
{
    if has_data {
        return match direction {
            Direction::In => Direction::Out,
            Direction::Out => Direction::In,
        };
    }
    Direction::In
}

fn status_addr(direction: Direction, request: ControlRequest) -> u64
    ensures { result ≡ status_addr direction request.setup_dma request.status_dma }
{
    match direction {
        Direction::In => request.status_dma,
        Direction::Out => request.setup_dma,
    }
}

// Every stage of a control transfer has one descriptor, whose number is `base`.
fn control_stage(
    request: ControlRequest,
    role: Dwc2StageRole,
    direction: Direction,
    pid: Dwc2Pid,
    over: Stretch,
) -> Dwc2TransferStage
    ensures { result ≡ stage_of role (control_hcchar request.device direction (control_size request.max_packet_size)) pid over.addr over.base over.descs over.len }
{
    let m = control_size(request);
    let kind = Dwc2EpType::Control;
    let hcchar = words::hcchar(request.device, 0, direction, kind, m, false, 1, false);
    Dwc2TransferStage::new(role, hcchar, pid, over)
}

fn setup_stage(request: ControlRequest) -> Dwc2TransferStage
    requires { request.setup_dma ≤ 4294967295 }
    ensures { result ≡ setup_stage request }
{
    let over = Stretch {
        base: 0,
        descs: 1,
        addr: request.setup_dma as u32,
        len: 8,
    };
    let role = Dwc2StageRole::ControlSetup;
    control_stage(request, role, Direction::Out, Dwc2Pid::Setup, over)
}

fn data_stage_of(request: ControlRequest) -> Dwc2TransferStage
    requires { (request.data_dma ≤ 4294967295) × (request.len ≤ 65535) }
    ensures { result ≡ data_stage_of request }
{
    let over = Stretch {
        base: 1,
        descs: 1,
        addr: request.data_dma as u32,
        len: request.len as u32,
    };
    let role = Dwc2StageRole::ControlData;
    control_stage(request, role, request.direction, Dwc2Pid::Data1, over)
}

fn status_stage(request: ControlRequest, base: u32) -> Dwc2TransferStage
    requires { status_addr (status_way request) request.setup_dma request.status_dma ≤ 4294967295 }
    ensures { result ≡ status_stage request base }
{
    let direction = status_direction(request.len > 0, request.direction);
    let over = Stretch {
        base,
        descs: 1,
        addr: status_addr(direction, request) as u32,
        len: 0,
    };
    let role = Dwc2StageRole::ControlStatus;
    control_stage(request, role, direction, Dwc2Pid::Data1, over)
}

fn plan_control(request: ControlRequest, array: &mut [u32]) -> Dwc2ControlPlan
    requires { control_answer request (length array.old) ≡ Ok tt }
    ensures { (result ≡ planned_control request) × (array.new ≡ laid_out (control_stages request) array.old) }
{
    let setup = setup_stage(request);
    build_stage_descs(setup, array);
    let (data, base) = if request.len > 0 {
        let data = data_stage_of(request);
        build_stage_descs(data, array);
        (Some(data), 2)
    } else {
        (None, 1)
    };
    let status = status_stage(request, base);
    build_stage_descs(status, array);
    Dwc2ControlPlan {
        setup,
        data,
        status,
    }
}
