// HCINT, the word of a channel's interrupt, and the mask of it: document 01, "Words" and "Submit".
ghost use Rattle.std.specs.Prelude.{◌≡◌, ◌<◌};
ghost use Rattle.std.specs.List.{find};
ghost use Rattle.words.specs.Field.{bit};
ghost use Rattle.words.specs.Words.{is_set, complete, halted, fault_field, hcint_fault, iso_hcintmsk};

use crate::types::{Direction, Dwc2TransferFault};

// Document 01's order of the faults.
const FAULT_ORDER: [Dwc2TransferFault; 6] = [
    Dwc2TransferFault::Ahb,
    Dwc2TransferFault::Stall,
    Dwc2TransferFault::Babble,
    Dwc2TransferFault::Transaction,
    Dwc2TransferFault::FrameOverrun,
    Dwc2TransferFault::DataToggle,
];

fn is_set(word: u32, place: u32) -> bool
    requires { place < 32 }
    ensures { result ≡ is_set (bit place) word }
{
    (word >> place) % 2 == 1
}

// The transfer is complete.
pub fn hcint_xfercompl(hcint: u32) -> bool
    ensures { result ≡ is_set complete hcint }
{
    is_set(hcint, 0)
}

// The channel has halted.
pub fn hcint_chhltd(hcint: u32) -> bool
    ensures { result ≡ is_set halted hcint }
{
    is_set(hcint, 1)
}

// The fault to report: the first in document 01's order where several are set.
pub fn hcint_fault(hcint: u32) -> Option<Dwc2TransferFault>
    ensures { result ≡ hcint_fault hcint }
{
    first_set(&FAULT_ORDER, hcint)
}

// By `iter` over lent faults: over the array itself, the library says nothing of what `find` gives.
fn first_set(faults: &[Dwc2TransferFault], hcint: u32) -> Option<Dwc2TransferFault>
    ensures { result ≡ find (λ fault. is_set (fault_field fault) hcint) faults.now }
{
    faults
        .iter()
        .copied()
        .find(|fault| is_set(hcint, u32::from(*fault)))
}

// The interrupts that a camera's channel enables. IN adds 0x180, a failed transaction and babble.
pub fn iso_hcintmsk(direction: Direction) -> u32
    ensures { result ≡ iso_hcintmsk direction }
{
    0x207 + u32::from(direction) * 0x180
}
