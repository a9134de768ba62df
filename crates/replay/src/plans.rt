// The planning calls of the list.
use crate::answers::{Line, Verdict};
use crate::digest::digest_of;
use crate::ring_calls::{direction_of, speed_of};
use plan::{
    ControlRequest, ControlSetup, DataKind, DataRequest, DataToggle, Dwc2ControlPlan,
    Dwc2StageRole, Dwc2TransferStage, PlanRefusal, Recipient, RequestType,
};

#[derive(Clone, Copy)]
pub(crate) enum PlanCall {
    Data,
    Control,
    ReadBack,
    Setup,
    Split,
    Packets,
}

pub(crate) fn make(call: PlanCall, line: Line, array: &mut [u32]) -> Verdict {
    match call {
        PlanCall::Data => data(line, array),
        PlanCall::Control => control(line, array),
        PlanCall::ReadBack => read_back(line, array),
        PlanCall::Setup => setup(line),
        PlanCall::Split => split(line),
        PlanCall::Packets => packets(line),
    }
}

fn split(line: Line) -> Verdict {
    let made = plan::split_dma_lengths(line.number(1), line.half(2));
    line.judge(&[made.count, u64::from(made.chunk), u64::from(made.last)])
}

fn packets(line: Line) -> Verdict {
    let count = plan::packet_count(line.number(1), line.half(2));
    line.judge(&[count])
}

// Document 01's number.
fn number_of(refusal: PlanRefusal) -> u64 {
    u64::from(u32::from(refusal))
}

fn role_of(n: u64) -> Dwc2StageRole {
    match n {
        0 => Dwc2StageRole::Data,
        1 => Dwc2StageRole::ControlSetup,
        2 => Dwc2StageRole::ControlData,
        _ => Dwc2StageRole::ControlStatus,
    }
}

fn of_stage(stage: Dwc2TransferStage) -> u64 {
    digest_of(&[
        u64::from(u32::from(stage.role)),
        u64::from(stage.hcchar),
        u64::from(stage.hctsiz),
        u64::from(stage.dma_addr),
        u64::from(stage.desc_base),
        u64::from(stage.descs),
        u64::from(stage.len),
    ])
}

// A stage that is not there is all zeros.
fn of_none() -> u64 {
    digest_of(&[0u64; 7])
}

fn kind_of(n: u64) -> DataKind {
    if n == 0 {
        DataKind::Bulk
    } else {
        DataKind::Interrupt
    }
}

fn data_request(line: Line) -> DataRequest {
    DataRequest {
        kind: kind_of(line.number(4)),
        direction: direction_of(line.number(5)),
        port_speed: speed_of(line.number(6)),
        device: line.byte(7),
        endpoint: line.byte(8),
        max_packet_size: line.half(3),
        odd_frame: line.number(9) != 0,
        toggle: DataToggle(line.number(10) != 0),
        base: line.number(1),
        len: line.number(2),
    }
}

// The array was 0xA5 in each byte, and behind the plan it stays so.
fn data(line: Line, array: &mut [u32]) -> Verdict {
    array.fill(0xa5a5_a5a5);
    let request = data_request(line);
    let (refusal, toggle, count, stages) = match plan::data_stages(request, array) {
        Ok(made) => (0, made.toggle, made.count, made.stages.map(of_stage)),
        Err(refusal) => (number_of(refusal), request.toggle, 0, [of_none(); 4]),
    };
    line.judge(&[
        refusal,
        u64::from(toggle.0),
        u64::from(count),
        stages[0],
        stages[1],
        stages[2],
        stages[3],
        digest_of(array),
    ])
}

fn control_request(line: Line) -> ControlRequest {
    ControlRequest {
        direction: direction_of(line.number(6)),
        device: line.byte(7),
        max_packet_size: line.half(5),
        len: line.number(1),
        setup_dma: line.number(2),
        data_dma: line.number(3),
        status_dma: line.number(4),
    }
}

fn control(line: Line, array: &mut [u32]) -> Verdict {
    array.fill(0xa5a5_a5a5);
    let (refusal, has_data, stages) = match plan::build_control_plan(control_request(line), array) {
        Ok(made) => (0, made.data.is_some(), control_stages(made)),
        Err(refusal) => (number_of(refusal), false, [of_none(); 3]),
    };
    line.judge(&[
        refusal,
        u64::from(has_data),
        stages[0],
        stages[1],
        stages[2],
        digest_of(array),
    ])
}

fn control_stages(made: Dwc2ControlPlan) -> [u64; 3] {
    [
        of_stage(made.setup),
        made.data.map_or(of_none(), of_stage),
        of_stage(made.status),
    ]
}

fn read_back(line: Line, array: &[u32]) -> Verdict {
    let stage = Dwc2TransferStage {
        role: role_of(line.number(1)),
        hcchar: line.word(2),
        hctsiz: line.word(3),
        dma_addr: line.word(4),
        desc_base: line.word(5),
        descs: line.word(6),
        len: line.word(7),
    };
    match plan::stage_actual_length(stage, array) {
        Ok(bytes) => line.judge(&[0, u64::from(bytes)]),
        Err(refusal) => line.judge(&[number_of(refusal), 0]),
    }
}

fn request_type_of(n: u64) -> RequestType {
    match n {
        0 => RequestType::Standard,
        1 => RequestType::Class,
        2 => RequestType::Vendor,
        _ => RequestType::Reserved,
    }
}

fn recipient_of(n: u64) -> Recipient {
    match n {
        0 => Recipient::Device,
        1 => Recipient::Interface,
        2 => Recipient::Endpoint,
        _ => Recipient::Other,
    }
}

fn setup_of(line: Line) -> ControlSetup {
    ControlSetup {
        request_type: request_type_of(line.number(1)),
        recipient: recipient_of(line.number(2)),
        request: line.byte(4),
        value: line.half(5),
        index: line.half(6),
    }
}

// The bytes are listed as one number, the first byte its lowest.
fn setup(line: Line) -> Verdict {
    let direction = direction_of(line.number(3));
    match plan::setup_packet_bytes(setup_of(line), direction, line.number(7)) {
        Ok(bytes) => line.judge(&[0, u64::from_le_bytes(bytes)]),
        Err(refusal) => line.judge(&[number_of(refusal), 0]),
    }
}
