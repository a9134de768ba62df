// What goes into a plan and what comes out. Addresses and lengths come in 64 bits wide, so that one that is too large can be refused.
ghost use Rattle.std.specs.Prelude.{◌≡◌, ◌≤◌};
ghost use Rattle.plan.specs.DataStages.{ep_type_of};
ghost use Rattle.plan.specs.Numbers.{request_type_number, recipient_number, role_number};

use crate::toggle::DataToggle;
use ring::Speed;
use words::{Direction, Dwc2EpType};

#[derive(Clone, Copy, Debug, PartialEq, Eq)]
pub enum DataKind {
    Bulk,
    Interrupt,
}

impl From<DataKind> for Dwc2EpType {
    ghost from_gives = { λ kind t. t ≡ ep_type_of kind };

    fn from(kind: DataKind) -> Dwc2EpType {
        match kind {
            DataKind::Bulk => Dwc2EpType::Bulk,
            DataKind::Interrupt => Dwc2EpType::Interrupt,
        }
    }
}

// A bulk or interrupt transfer of `len` bytes at `base`. `toggle` is the one that the last transfer of the endpoint left.
#[derive(Clone, Copy)]
pub struct DataRequest {
    pub kind: DataKind,
    pub direction: Direction,
    pub port_speed: Speed,
    pub device: u8,
    pub endpoint: u8,
    pub max_packet_size: u16,
    pub odd_frame: bool,
    pub toggle: DataToggle,
    pub base: u64,
    pub len: u64,
}

// A control transfer on endpoint 0.
#[derive(Clone, Copy)]
pub struct ControlRequest {
    pub direction: Direction,
    pub device: u8,
    pub max_packet_size: u16,
    pub len: u64,
    pub setup_dma: u64,
    pub data_dma: u64,
    pub status_dma: u64,
}

// USB 2.0, table 9-2: bmRequestType's type and recipient, bRequest, wValue, wIndex.
#[derive(Clone, Copy, Debug, PartialEq, Eq)]
pub enum RequestType {
    Standard,
    Class,
    Vendor,
    Reserved,
}

impl From<RequestType> for u8 {
    ghost from_gives = { λ t n. (n ≡ request_type_number t) × (n ≤ 3) };

    fn from(request_type: RequestType) -> u8 {
        match request_type {
            RequestType::Standard => 0,
            RequestType::Class => 1,
            RequestType::Vendor => 2,
            RequestType::Reserved => 3,
        }
    }
}

#[derive(Clone, Copy, Debug, PartialEq, Eq)]
pub enum Recipient {
    Device,
    Interface,
    Endpoint,
    Other,
}

impl From<Recipient> for u8 {
    ghost from_gives = { λ r n. (n ≡ recipient_number r) × (n ≤ 3) };

    fn from(recipient: Recipient) -> u8 {
        match recipient {
            Recipient::Device => 0,
            Recipient::Interface => 1,
            Recipient::Endpoint => 2,
            Recipient::Other => 3,
        }
    }
}

#[derive(Clone, Copy)]
pub struct ControlSetup {
    pub request_type: RequestType,
    pub recipient: Recipient,
    pub request: u8,
    pub value: u16,
    pub index: u16,
}

// What a stage is for. Only the setup stage has a descriptor of another form.
#[derive(Clone, Copy, Debug, PartialEq, Eq)]
pub enum Dwc2StageRole {
    Data,
    ControlSetup,
    ControlData,
    ControlStatus,
}

impl From<Dwc2StageRole> for u32 {
    ghost from_gives = { λ role n. n ≡ role_number role };

    fn from(role: Dwc2StageRole) -> u32 {
        match role {
            Dwc2StageRole::Data => 0,
            Dwc2StageRole::ControlSetup => 1,
            Dwc2StageRole::ControlData => 2,
            Dwc2StageRole::ControlStatus => 3,
        }
    }
}

// One programming of a channel: `descs` descriptors from number `desc_base` of the caller's array on, for `len` bytes from
// `dma_addr` on. Every descriptor but the last takes the chunk of the packet size that `hcchar` holds. The role is one byte wide and
// stands last: in front, the rest of a stage would be copied from its second byte on, by loads that wait for the stores they cross.
#[derive(Clone, Copy)]
pub struct Dwc2TransferStage {
    pub hcchar: u32,
    pub hctsiz: u32,
    pub dma_addr: u32,
    pub desc_base: u32,
    pub descs: u32,
    pub len: u32,
    pub role: Dwc2StageRole,
}

// The first `count` stages in the order in which they run, and the toggle that a transfer without a short packet leaves. A table beside
// a count: the project has no heap.
#[derive(Clone, Copy)]
pub struct Dwc2DataPlan {
    pub toggle: DataToggle,
    pub count: u32,
    pub stages: [Dwc2TransferStage; 4],
}

// Control data is at most 65,535 bytes, which one descriptor holds.
#[derive(Clone, Copy)]
pub struct Dwc2ControlPlan {
    pub setup: Dwc2TransferStage,
    pub data: Option<Dwc2TransferStage>,
    pub status: Dwc2TransferStage,
}
