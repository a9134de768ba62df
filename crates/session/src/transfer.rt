// What a submission is given and what it answers.
use crate::refusal::IsoRefusal;
use crate::types::{IsoChannelState, IsoHead};
use ring::IsoServiceFrames;

// A request as the caller brings it, beside the lengths of its packets: what kind it is, its buffer, the frame readings, whether a
// channel is to be had, whether the port is connected before programming and before enabling, and how many words may be stored. The
// buffer's address and length stand beside `has_buffer` and in no Option, as the C call passes them: whoever reads one past the test
// of `has_buffer` would take the Option apart once more.
#[derive(Clone, Copy)]
pub struct IsoTransfer {
    pub isochronous: bool,
    pub has_buffer: bool,
    pub buffer_len: u32,
    pub base: u64,
    pub start_reading: u32,
    pub frame_reading: u32,
    pub channel_free: bool,
    pub gate_program: bool,
    pub gate_enable: bool,
    pub words: u32,
}

// What a submission asks of the tables of a session whose record is good: the packets of all requests and of the pending ones, the
// slot of its first packet, and whether one of its slots is a pending request's. Small, since it is handed on; all zero where the
// record is bad and nothing was asked.
#[derive(Clone, Copy, Debug, Default, PartialEq, Eq)]
pub struct SubmitScan {
    pub all: u32,
    pub pending: u32,
    pub insert: u16,
    pub clash: bool,
}

// The way that a submission goes: refused with nothing altered, refused with its number spent, unplugged at a gate, cut, or
// accepted. Ring, numbers and answer each follow it by a match of their own: one match for all three would say three things at once.
#[derive(Clone, Copy, Debug, PartialEq, Eq)]
pub enum SubmitWay {
    Refuse(IsoRefusal),
    TooLong(u32),
    Spend(IsoRefusal),
    Early,
    Cut,
    Late,
    Accept,
}

// A submission that is not refused: accepted with its request's number, or cut.
#[derive(Clone, Copy, Debug, PartialEq, Eq)]
pub enum IsoSubmission {
    Accepted(u64),
    Cut,
}

// What the caller programs where the submission was the first.
#[derive(Clone, Copy)]
pub struct IsoChannelStart {
    pub hcchar: u32,
    pub hctsiz: u32,
    pub hcintmsk: u32,
    pub frames: IsoServiceFrames,
}

// The session stands first: behind a part that ends unaligned it would be copied twice.
#[derive(Clone, Copy)]
pub struct Submitted {
    pub session: IsoChannelState,
    pub answer: Result<IsoSubmission, IsoRefusal>,
    pub start: Option<IsoChannelStart>,
}

// A submission as small things: what it answers, the numbers that it leaves, and the packets that it adds. Packet i of them has its
// plan at `to` + i and the slot `insert` + i × `step` in a ring of `slots`; the three are no struct, since ring's functions take them
// one by one.
#[derive(Clone, Copy)]
pub struct SubmitParts {
    pub answer: Result<IsoSubmission, IsoRefusal>,
    pub start: Option<IsoChannelStart>,
    pub head: IsoHead,
    pub added: usize,
    pub to: usize,
    pub insert: u16,
    pub step: u16,
    pub slots: u16,
}
