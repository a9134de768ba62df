// A stage of a plan by numbers, for C: as planning hands it out, and as it is read back. Each answers as crate `plan` does for what the
// numbers name; 18 and 0 where the role names nothing.
ghost use Rattle.std.specs.Prelude.{◌≡◌};
ghost use Rattle.port.specs.Planning.{role_of, stage_numbers, stage_of, blank_numbers, length_number, stage_moved_number};

use crate::ring_sums::PortNumber;
use plan::{Dwc2StageRole, Dwc2TransferStage, PlanRefusal};

#[repr(C)]
#[derive(Clone, Copy)]
pub struct PortStage {
    pub role: u32,
    pub hcchar: u32,
    pub hctsiz: u32,
    pub dma_addr: u32,
    pub desc_base: u32,
    pub descs: u32,
    pub len: u32,
}

// As C has it, by number: a number that names no role is refused before it is read.
fn role_of(n: u32) -> Dwc2StageRole
    ensures { result ≡ role_of n }
{
    match n {
        0 => Dwc2StageRole::Data,
        1 => Dwc2StageRole::ControlSetup,
        2 => Dwc2StageRole::ControlData,
        _ => Dwc2StageRole::ControlStatus,
    }
}

pub(crate) fn stage_numbers(s: Dwc2TransferStage) -> PortStage
    ensures { result ≡ stage_numbers s }
{
    PortStage {
        role: u32::from(s.role),
        hcchar: s.hcchar,
        hctsiz: s.hctsiz,
        dma_addr: s.dma_addr,
        desc_base: s.desc_base,
        descs: s.descs,
        len: s.len,
    }
}

fn stage_of(s: PortStage) -> Dwc2TransferStage
    ensures { result ≡ stage_of s }
{
    Dwc2TransferStage {
        role: role_of(s.role),
        hcchar: s.hcchar,
        hctsiz: s.hctsiz,
        dma_addr: s.dma_addr,
        desc_base: s.desc_base,
        descs: s.descs,
        len: s.len,
    }
}

// A C struct has no stage that is not there: one of zeros stands for it.
pub(crate) fn blank_stage() -> PortStage
    ensures { result ≡ blank_numbers }
{
    PortStage {
        role: 0,
        hcchar: 0,
        hctsiz: 0,
        dma_addr: 0,
        desc_base: 0,
        descs: 0,
        len: 0,
    }
}

fn length_number(length: Result<u32, PlanRefusal>) -> PortNumber
    ensures { result ≡ length_number length }
{
    match length {
        Ok(value) => PortNumber { refusal: 0, value },
        Err(refusal) => PortNumber {
            refusal: u32::from(refusal),
            value: 0,
        },
    }
}

pub fn dwc2_stage_actual_length(stage: PortStage, array: &[u32]) -> PortNumber
    ensures { result ≡ stage_moved_number stage array.now }
{
    if stage.role > 3 {
        return PortNumber {
            refusal: 18,
            value: 0,
        };
    }
    length_number(plan::stage_actual_length(stage_of(stage), array))
}
