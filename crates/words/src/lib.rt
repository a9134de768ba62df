// Descriptor and register words: document 01, "Words". Every public function is total: a value too wide for its field is cut to it.
#![tactic(auto)]

mod address;
mod channel;
mod descriptor;
mod interrupt;
mod lent;
mod numbers;
mod types;

pub use address::is_beyond;
pub use channel::{hcchar, hctsiz_ddma};
pub use descriptor::{DmaDescriptor, initial_len, moved_length};
pub use interrupt::{hcint_chhltd, hcint_fault, hcint_xfercompl, iso_hcintmsk};
pub use lent::{clear_slot, is_active_at, put_word, status_at};
pub use types::{Direction, Dwc2EpType, Dwc2Pid, Dwc2TransferFault};
