// The session and its parts, after the Rust's `IsoChannelState`. Numbers.antt in specs/ has document 01's number for each answer.
use ring::Speed;
use words::{Direction, Dwc2TransferFault};

// Guarded mode adds refusal 13 and nothing else.
#[derive(Clone, Copy, Debug, PartialEq, Eq)]
pub enum IsoMode {
    Compatible,
    Guarded,
}

// One endpoint configuration, fixed at opening.
#[derive(Clone, Copy)]
pub struct IsoConfig {
    pub speed: Speed,
    pub direction: Direction,
    pub interval: u16,
    pub endpoint: u8,
    pub device: u8,
    pub max_packet_size: u16,
    pub mult: u8,
    pub mode: IsoMode,
}

// Why a session is ending.
#[derive(Clone, Copy, Debug, PartialEq, Eq)]
pub enum IsoHaltReason {
    Cancelled,
    Fault(Dwc2TransferFault, u32),
}

#[derive(Clone, Copy, Debug, PartialEq, Eq)]
pub enum TransferStatus {
    Completed,
    Error,
}

// One packet in flight or not yet handed out: the length asked for, its slot, the length moved and how it ended.
#[derive(Clone, Copy)]
pub struct IsoPacketPlan {
    pub planned: u16,
    pub desc_index: u16,
    pub actual: u16,
    pub status: TransferStatus,
}

// How a completed request ended; a pending one has `Done` until it does. An enum of its own and no Result: it is stored, not answered,
// and the byte layout has a tag for each of the five.
#[derive(Clone, Copy, Debug, PartialEq, Eq)]
pub enum IsoOutcome {
    Done,
    Disconnected,
    Cancelled,
    Fault(Dwc2TransferFault, u32),
    UnexpectedHalt(u32),
}

#[derive(Clone, Copy)]
pub struct IsoRequest {
    pub id: u64,
    pub packets: u16,
    pub actual_length: u32,
    pub outcome: IsoOutcome,
}

// The numbers of a session: of `count` requests the first `done` are completed, the others pending. The start stands beside `live`
// and in no Option, since the byte layout keeps one that isn't live as well.
#[derive(Clone, Copy)]
pub struct IsoHead {
    pub next_request_id: u64,
    pub live: bool,
    pub td_last: u16,
    pub start_full_frame: u32,
    pub done: u16,
    pub count: u16,
}

// `fatal` is None while the session runs. Requests stand in the order of submission, and the plans of all of them behind one another
// in the same order. What stands past the counts is not read. Tables beside counts, since there is no heap (document 01). That the
// record is good is a clause of the inner methods and no type of its own: between two writes of a call it is not.
#[derive(Clone, Copy)]
pub struct IsoChannelState {
    pub cfg: IsoConfig,
    pub head: IsoHead,
    pub fatal: Option<IsoHaltReason>,
    pub requests: [IsoRequest; 64],
    pub plans: [IsoPacketPlan; 1024],
}
