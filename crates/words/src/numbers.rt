// Document 01's number for each kind. Each says its bound too, so that a sum of fields is seen to fit its word.
ghost use Rattle.std.specs.Prelude.{◌≡◌, ◌≤◌};
ghost use Rattle.words.specs.Numbers.{direction_number, ep_type_number, pid_number, fault_bit};

use crate::types::{Direction, Dwc2EpType, Dwc2Pid, Dwc2TransferFault};

impl From<Direction> for u32 {
    ghost from_gives = { λ direction number. (number ≡ direction_number direction) × (number ≤ 1) };

    fn from(direction: Direction) -> u32 {
        match direction {
            Direction::Out => 0,
            Direction::In => 1,
        }
    }
}

impl From<Dwc2EpType> for u32 {
    ghost from_gives = { λ ep_type number. (number ≡ ep_type_number ep_type) × (number ≤ 3) };

    fn from(ep_type: Dwc2EpType) -> u32 {
        match ep_type {
            Dwc2EpType::Control => 0,
            Dwc2EpType::Isochronous => 1,
            Dwc2EpType::Bulk => 2,
            Dwc2EpType::Interrupt => 3,
        }
    }
}

impl From<Dwc2Pid> for u32 {
    ghost from_gives = { λ pid number. (number ≡ pid_number pid) × (number ≤ 3) };

    fn from(pid: Dwc2Pid) -> u32 {
        match pid {
            Dwc2Pid::Data0 => 0,
            Dwc2Pid::Data2 => 1,
            Dwc2Pid::Data1 => 2,
            Dwc2Pid::MData => 3,
            Dwc2Pid::Setup => 3,
        }
    }
}

// The bit of HCINT that reports the fault.
impl From<Dwc2TransferFault> for u32 {
    ghost from_gives = { λ fault number. (number ≡ fault_bit fault) × (number ≤ 10) };

    fn from(fault: Dwc2TransferFault) -> u32 {
        match fault {
            Dwc2TransferFault::Ahb => 2,
            Dwc2TransferFault::Stall => 3,
            Dwc2TransferFault::Transaction => 7,
            Dwc2TransferFault::Babble => 8,
            Dwc2TransferFault::FrameOverrun => 9,
            Dwc2TransferFault::DataToggle => 10,
        }
    }
}
