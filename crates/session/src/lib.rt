// The camera session: document 01, "The session". One endpoint, opened once; the session goes in as a value and comes back as one,
// the descriptor ring is lent. No public function has a `requires`: what cannot be done is refused with 01's refusal.
#![tactic(auto)]

mod cancel;
mod end;
mod open;
mod place;
mod poll;
mod reclaim;
mod record;
mod recover;
mod refusal;
mod reply;
mod reset;
mod settle;
mod start;
mod store;
mod submit;
mod tables;
mod transfer;
mod types;
mod way;

pub use end::with_outcome;
pub use open::{Opened, clear_first, ring_words};
pub use place::insert_of;
pub use poll::way_of;
pub use reclaim::{handed_answer, is_done};
pub use record::{
    has_reason, is_bad_config, is_bad_plan, is_bad_request, is_bad_state, is_over_room,
};
pub use refusal::IsoRefusal;
pub use reply::{IsoCompletion, IsoEvent, IsoReply, PollWay, Reclaimed};
pub use submit::{new_request, submit_parts};
pub use tables::rest;
pub use transfer::{
    IsoChannelStart, IsoSubmission, IsoTransfer, SubmitParts, SubmitScan, SubmitWay, Submitted,
};
pub use types::{
    IsoChannelState, IsoConfig, IsoHaltReason, IsoHead, IsoMode, IsoOutcome, IsoPacketPlan,
    IsoRequest, TransferStatus,
};
pub use way::{clash, is_guarded};
