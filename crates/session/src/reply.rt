// What the calls after a submission are given and what they answer.
ghost use Rattle.std.specs.Prelude.{◌≡◌, Ok};
ghost use Rattle.session.specs.Poll.{reply, refused_reply};

use crate::refusal::IsoRefusal;
use crate::types::{IsoChannelState, IsoHaltReason, IsoOutcome};

// What the interrupt handler left for the channel: whether the port is gone, a yes/no beside the word as document 01 has it, and the
// interrupt word. A call is given None where it left nothing.
#[derive(Clone, Copy, Debug, PartialEq, Eq)]
pub struct IsoEvent {
    pub unplugged: bool,
    pub hcint: u32,
}

// What a poll does: nothing, end the session, ask for a halt, wait for one, or settle; the oldest request at once where the
// complete bit is set.
#[derive(Clone, Copy, Debug, PartialEq, Eq)]
pub enum PollWay {
    Nothing,
    End(IsoOutcome),
    Halt(IsoHaltReason),
    Wait,
    Settle(bool),
}

// The answer of a call, whether it took the event, whether it asks the caller to halt the channel, and the session.
#[derive(Clone, Copy)]
pub struct IsoReply {
    pub answer: Result<(), IsoRefusal>,
    pub taken: bool,
    pub halt: bool,
    pub session: IsoChannelState,
}

// A completed request: its outcome, the bytes moved and its packets.
#[derive(Clone, Copy, Debug, PartialEq, Eq)]
pub struct IsoCompletion {
    pub outcome: IsoOutcome,
    pub actual_length: u32,
    pub packets: u16,
}

// As `IsoReply`, with the answer of a reclaim: the completion, or None where the request is still pending.
#[derive(Clone, Copy)]
pub struct Reclaimed {
    pub answer: Result<Option<IsoCompletion>, IsoRefusal>,
    pub taken: bool,
    pub halt: bool,
    pub session: IsoChannelState,
}

// Nothing was altered.
pub(crate) fn refused(refusal: IsoRefusal, session: IsoChannelState) -> IsoReply
    ensures { result ≡ refused_reply refusal session }
{
    IsoReply {
        answer: Err(refusal),
        taken: false,
        halt: false,
        session,
    }
}

pub(crate) fn done(taken: bool, halt: bool, session: IsoChannelState) -> IsoReply
    ensures { result ≡ reply (Ok tt) taken halt session }
{
    IsoReply {
        answer: Ok(()),
        taken,
        halt,
        session,
    }
}
