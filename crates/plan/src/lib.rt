// Planning of bulk, interrupt and control transfers: document 01, "Planning transfers". No public function has a `requires`: what
// cannot be planned is refused with 01's number, and a refusal alters nothing.
#![tactic(auto)]

mod control;
mod data;
mod refusals;
mod setup;
mod split;
mod stage;
mod toggle;
mod types;

pub use control::build_control_plan;
pub use data::data_stages;
pub use refusals::PlanRefusal;
pub use setup::setup_packet_bytes;
pub use split::{DmaSplit, packet_count, split_dma_lengths};
pub use stage::stage_actual_length;
pub use toggle::DataToggle;
pub use types::{
    ControlRequest, ControlSetup, DataKind, DataRequest, Dwc2ControlPlan, Dwc2DataPlan,
    Dwc2StageRole, Dwc2TransferStage, Recipient, RequestType,
};
