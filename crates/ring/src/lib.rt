// The sums of the descriptor ring, and the packets of a submission stored into it: document 01, "Ring sums" and "Submit".
// Every public function answers for every input, and none has a `requires`.
#![tactic(auto)]

mod frames;
mod grid;
mod pid;
mod request;
mod speed;
mod store;

pub use frames::{
    IsoServiceFrames, frame_to_desc_idx, iso_schinfo, iso_service_frames, iso_starting_frame,
};
pub use grid::{advance_along_grid, gcd, iso_max_packets, next_slot};
pub use pid::iso_pid;
pub use request::next_request_id;
pub use speed::{Speed, iso_max_xfer_size, iso_ring_size};
pub use store::store_packets;
