// Bulk, interrupt and control plans by numbers, for C. Each answers as crate `plan` does for what the numbers name; 18 and zeros, with nothing
// altered, where one names nothing.
ghost use Rattle.std.specs.Prelude.{◌≡◌, length};
ghost use Rattle.words.specs.Words.{packets};
ghost use Rattle.plan.specs.Planning.{split_of};
ghost use Rattle.port.specs.Planning.{split_numbers, kind_of, data_request_of, is_bad_data, data_numbers, refused_data, data_plan_numbers, data_array_after};
ghost use Rattle.port.specs.Planning.{control_request_of, some_numbers, control_numbers, refused_control, control_plan_numbers, control_array_after};

use crate::stages::{PortStage, blank_stage, stage_numbers};
use crate::tags::{direction_of, is_bad_direction, is_bad_speed, speed_of};
use plan::{
    ControlRequest, DataKind, DataRequest, DataToggle, DmaSplit, Dwc2ControlPlan, Dwc2DataPlan,
    Dwc2TransferStage,
};

#[repr(C)]
#[derive(Clone, Copy)]
pub struct PortSplit {
    pub count: u64,
    pub chunk: u32,
    pub last: u32,
}

#[repr(C)]
#[derive(Clone, Copy)]
pub struct PortDataRequest {
    pub base: u64,
    pub len: u64,
    pub max_packet_size: u16,
    pub kind: u8,
    pub direction: u8,
    pub port_speed: u8,
    pub device: u8,
    pub endpoint: u8,
    pub odd_frame: u8,
    pub toggle: u8,
}

// As C has it: 0 or the refusal number, and a table beside its count.
#[repr(C)]
#[derive(Clone, Copy)]
pub struct PortDataPlan {
    pub refusal: u32,
    pub toggle: u32,
    pub count: u32,
    pub stages: [PortStage; 4],
}

#[repr(C)]
#[derive(Clone, Copy)]
pub struct PortControlRequest {
    pub len: u64,
    pub setup_dma: u64,
    pub data_dma: u64,
    pub status_dma: u64,
    pub max_packet_size: u16,
    pub direction: u8,
    pub device: u8,
}

// As C has it: 0 or the refusal number, and a blank stage where there is no data.
#[repr(C)]
#[derive(Clone, Copy)]
pub struct PortControlPlan {
    pub refusal: u32,
    pub has_data: u32,
    pub setup: PortStage,
    pub data: PortStage,
    pub status: PortStage,
}

fn split_numbers(s: DmaSplit) -> PortSplit
    ensures { result ≡ split_numbers s }
{
    PortSplit {
        count: s.count,
        chunk: s.chunk,
        last: s.last,
    }
}

pub fn dwc2_split_dma_lengths(len: u64, max_packet_size: u16) -> PortSplit
    ensures { result ≡ split_numbers (split_of len max_packet_size) }
{
    split_numbers(plan::split_dma_lengths(len, max_packet_size))
}

pub fn dwc2_packet_count(len: u64, max_packet_size: u16) -> u64
    ensures { result ≡ packets len max_packet_size }
{
    plan::packet_count(len, max_packet_size)
}

// As C has it, by USB's number: one that names no kind is refused before it is read.
fn kind_of(n: u8) -> DataKind
    ensures { result ≡ kind_of n }
{
    if n == 2 {
        DataKind::Bulk
    } else {
        DataKind::Interrupt
    }
}

fn data_request_of(r: PortDataRequest) -> DataRequest
    ensures { result ≡ data_request_of r }
{
    DataRequest {
        kind: kind_of(r.kind),
        direction: direction_of(r.direction),
        port_speed: speed_of(r.port_speed),
        device: r.device,
        endpoint: r.endpoint,
        max_packet_size: r.max_packet_size,
        odd_frame: r.odd_frame != 0,
        toggle: DataToggle(r.toggle != 0),
        base: r.base,
        len: r.len,
    }
}

fn is_bad_data(r: PortDataRequest) -> bool
    ensures { result ≡ is_bad_data r }
{
    ((r.kind < 2) | (r.kind > 3)) | (is_bad_direction(r.direction) | is_bad_speed(r.port_speed))
}

fn data_numbers(p: Dwc2DataPlan) -> PortDataPlan
    ensures { result ≡ data_numbers p }
{
    PortDataPlan {
        refusal: 0,
        toggle: u32::from(p.toggle.0),
        count: p.count,
        stages: p.stages.map(stage_numbers),
    }
}

fn refused_data(refusal: u32, toggle: u32) -> PortDataPlan
    ensures { result ≡ refused_data refusal toggle }
{
    PortDataPlan {
        refusal,
        toggle,
        count: 0,
        stages: [blank_stage(); 4],
    }
}

pub fn dwc2_data_stages(request: PortDataRequest, array: &mut [u32]) -> PortDataPlan
    ensures { (result ≡ data_plan_numbers request (length array.old)) × (array.new ≡ data_array_after request array.old) }
{
    if is_bad_data(request) {
        return refused_data(18, 0);
    }
    let named = data_request_of(request);
    match plan::data_stages(named, array) {
        Ok(p) => data_numbers(p),
        Err(refusal) => refused_data(u32::from(refusal), u32::from(named.toggle.0)),
    }
}

fn control_request_of(r: PortControlRequest) -> ControlRequest
    ensures { result ≡ control_request_of r }
{
    ControlRequest {
        direction: direction_of(r.direction),
        device: r.device,
        max_packet_size: r.max_packet_size,
        len: r.len,
        setup_dma: r.setup_dma,
        data_dma: r.data_dma,
        status_dma: r.status_dma,
    }
}

fn some_numbers(stage: Option<Dwc2TransferStage>) -> PortStage
    ensures { result ≡ some_numbers stage }
{
    match stage {
        Some(s) => stage_numbers(s),
        None => blank_stage(),
    }
}

fn control_numbers(p: Dwc2ControlPlan) -> PortControlPlan
    ensures { result ≡ control_numbers p }
{
    PortControlPlan {
        refusal: 0,
        has_data: u32::from(p.data.is_some()),
        setup: stage_numbers(p.setup),
        data: some_numbers(p.data),
        status: stage_numbers(p.status),
    }
}

fn refused_control(refusal: u32) -> PortControlPlan
    ensures { result ≡ refused_control refusal }
{
    let blank = blank_stage();
    PortControlPlan {
        refusal,
        has_data: 0,
        setup: blank,
        data: blank,
        status: blank,
    }
}

pub fn dwc2_build_control_plan(request: PortControlRequest, array: &mut [u32]) -> PortControlPlan
    ensures { (result ≡ control_plan_numbers request (length array.old)) × (array.new ≡ control_array_after request array.old) }
{
    if is_bad_direction(request.direction) {
        return refused_control(18);
    }
    match plan::build_control_plan(control_request_of(request), array) {
        Ok(p) => control_numbers(p),
        Err(refusal) => refused_control(u32::from(refusal)),
    }
}
