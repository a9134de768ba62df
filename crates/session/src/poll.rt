// Polling: document 01, "Poll". Which way it goes is decided first.
ghost use Rattle.std.specs.Prelude.{◌≡◌, false, ◌≤◌, length};
ghost use Rattle.session.specs.Session.{ring_words};
ghost use Rattle.session.specs.Record.{is_bad_record};
ghost use Rattle.session.specs.Poll.{outcome_of, way_by_reason, way_by_fault, way_of, poll_way, polled_by, polled_ring_by, polled, polled_ring};

use crate::open::ring_words;
use crate::refusal::IsoRefusal;
use crate::reply::{IsoEvent, IsoReply, PollWay, done, refused};
use crate::types::{IsoChannelState, IsoHaltReason, IsoHead, IsoOutcome};
use words::{Dwc2TransferFault, hcint_chhltd, hcint_fault, hcint_xfercompl};

// A session that had a reason to end ends with it.
impl From<IsoHaltReason> for IsoOutcome {
    ghost from_gives = { λ reason outcome. outcome ≡ outcome_of reason };

    fn from(reason: IsoHaltReason) -> IsoOutcome {
        match reason {
            IsoHaltReason::Cancelled => IsoOutcome::Cancelled,
            IsoHaltReason::Fault(kind, word) => IsoOutcome::Fault(kind, word),
        }
    }
}

// Without a fault: with a reason the halt is awaited, without one it is unexpected.
fn way_by_reason(fatal: Option<IsoHaltReason>, hcint: u32) -> PollWay
    ensures { result ≡ way_by_reason fatal hcint }
{
    let halted = hcint_chhltd(hcint);
    match fatal {
        None if halted => PollWay::End(IsoOutcome::UnexpectedHalt(hcint)),
        None => PollWay::Settle(hcint_xfercompl(hcint)),
        Some(reason) if halted => PollWay::End(IsoOutcome::from(reason)),
        Some(_) => PollWay::Wait,
    }
}

// A fault ends a session that is halted, and asks for the halt of one that is not.
fn way_by_fault(
    fault: Option<Dwc2TransferFault>,
    fatal: Option<IsoHaltReason>,
    hcint: u32,
) -> PollWay
    ensures { result ≡ way_by_fault fault fatal hcint }
{
    match fault {
        None => way_by_reason(fatal, hcint),
        Some(kind) if hcint_chhltd(hcint) => PollWay::End(IsoOutcome::Fault(kind, hcint)),
        Some(kind) => PollWay::Halt(IsoHaltReason::Fault(kind, hcint)),
    }
}

// The way of an event, by the numbers and the reason of the session that it meets.
pub fn way_of(head: IsoHead, fatal: Option<IsoHaltReason>, event: Option<IsoEvent>) -> PollWay
    ensures { result ≡ way_of head fatal event }
{
    match event {
        Some(event) if head.live => {
            if event.unplugged {
                return PollWay::End(IsoOutcome::Disconnected);
            }
            way_by_fault(hcint_fault(event.hcint), fatal, event.hcint)
        }
        _ => PollWay::Nothing,
    }
}

impl IsoChannelState {
    pub(crate) fn poll_way(&self, event: Option<IsoEvent>) -> PollWay
        ensures { result ≡ poll_way self.now event }
    {
        way_of(self.head, self.fatal, event)
    }

    pub(crate) fn poll_by(self, way: PollWay, ring: &mut [u32]) -> IsoReply
        requires { (is_bad_record self ≡ false) × (ring_words self.cfg ≤ length ring.old) }
        ensures { (result ≡ polled_by way self ring.old) × (ring.new ≡ polled_ring_by way self ring.old) }
    {
        match way {
            PollWay::Nothing => done(false, false, self),
            PollWay::End(outcome) => done(true, false, self.end(outcome, ring)),
            PollWay::Halt(reason) => done(true, true, self.with_reason(reason)),
            PollWay::Wait => done(true, false, self),
            PollWay::Settle(bit) => done(true, false, self.drain_serviced(bit, ring)),
        }
    }

    // Takes the event and acts by its way; answers whether it was taken and whether the caller is to halt the channel.
    pub fn poll_channel(self, event: Option<IsoEvent>, ring: &mut [u32]) -> IsoReply
        ensures { (result ≡ polled self event ring.old) × (ring.new ≡ polled_ring self event ring.old) }
    {
        if ring.len() < ring_words(self.cfg) {
            return refused(IsoRefusal::ShortBuffer, self);
        }
        if self.is_bad_record() {
            return refused(IsoRefusal::BadRecord, self);
        }
        self.poll_by(self.poll_way(event), ring)
    }
}
