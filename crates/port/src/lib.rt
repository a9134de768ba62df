// The C interface: document 01, "What must change shape", and include/dwc2_port.h. A session crosses as bytes (docs/LAYOUT.md). Crate `port_c`
// exports each `dwc2_` function to C.
#![tactic(auto)]

mod answers;
mod calls;
mod cancel;
mod drain;
mod end;
mod entries;
mod first;
mod load;
mod marks;
mod numbers;
mod planning;
mod poll;
mod reclaim;
mod requests;
mod reset;
mod ring_sums;
mod save;
mod scan;
mod setup;
mod stages;
mod submit;
mod tags;
mod verdict;

pub use answers::{PortReclaimed, PortReply, PortSubmitted, PortTransfer};
pub use calls::{
    dwc2_iso_cancel, dwc2_iso_check, dwc2_iso_poll, dwc2_iso_reclaim, dwc2_iso_recover,
    dwc2_iso_reset,
};
pub use planning::{
    PortControlPlan, PortControlRequest, PortDataPlan, PortDataRequest, PortSplit,
    dwc2_build_control_plan, dwc2_data_stages, dwc2_packet_count, dwc2_split_dma_lengths,
};
pub use requests::{dwc2_iso_open, dwc2_iso_submit};
pub use ring_sums::{
    PortFrames, PortNumber, dwc2_advance_along_grid, dwc2_frame_to_desc_idx, dwc2_gcd,
    dwc2_iso_max_packets, dwc2_iso_max_xfer_size, dwc2_iso_pid, dwc2_iso_ring_size,
    dwc2_iso_schinfo, dwc2_iso_service_frames, dwc2_iso_starting_frame, dwc2_next_request_id,
};
pub use setup::{PortSetupPacket, dwc2_setup_packet_bytes};
pub use stages::{PortStage, dwc2_stage_actual_length};
