// Polling and recovery on a session's bytes where they stand: document 01, "Poll" and "Recovery". Both are lent the ring: 17 and 18 come first.
ghost use Rattle.std.specs.Prelude.{◌≡◌, ◌≤◌, true, false, length};
ghost use Rattle.session.specs.Session.{ring_words};
ghost use Rattle.session.specs.Record.{is_bad_record};
ghost use Rattle.session.specs.Poll.{poll_way, with_reason, polled_by, polled_ring_by, polled, polled_ring, recovered, recovered_ring};
ghost use Rattle.port.specs.Layout.{layout_number, session_of};
ghost use Rattle.port.specs.Calls.{reply_port};
ghost use Rattle.port.specs.Places.{Good, Left};
ghost use Rattle.port.specs.Parts.{lent};

use crate::answers::{PortReply, reply_port, reply_refused};
use crate::drain::drain_at;
use crate::end::end_at;
use crate::entries::put_tagged;
use crate::load::{config_at, head_at, reason_at};
use crate::tags::Tagged;
use session::{IsoEvent, IsoHaltReason, IsoOutcome, IsoRefusal, PollWay, ring_words, way_of};

// 17 of a call that is lent a ring of too few words, then 18 of a bad record.
fn lent(bytes: &[u8], bad: bool, words: usize) -> Result<(), IsoRefusal>
    requires { (8488 ≤ length bytes.now) × (bad ≡ is_bad_record (session_of bytes.now)) }
    ensures { result ≡ lent (session_of bytes.now) words }
{
    if words < ring_words(config_at(bytes)) {
        return Err(IsoRefusal::ShortBuffer);
    }
    if bad {
        return Err(IsoRefusal::BadRecord);
    }
    Ok(())
}

pub(crate) fn recover_at(bytes: &mut [u8], bad: bool, ring: &mut [u32]) -> PortReply
    requires { (layout_number bytes.old ≡ 0) × (bad ≡ is_bad_record (session_of bytes.old)) }
    ensures { (result ≡ reply_port (recovered (session_of bytes.old) (length ring.old)))
        × (Left bytes.old bytes.new (recovered (session_of bytes.old) (length ring.old)).session)
        × (ring.new ≡ recovered_ring (session_of bytes.old) ring.old) }
{
    match lent(bytes, bad, ring.len()) {
        Err(refusal) => reply_refused(refusal),
        Ok(()) => {
            end_at(bytes, IsoOutcome::Disconnected, ring);
            reply_port(Ok(()), false, false)
        }
    }
}

// What a poll says: whether it took the event, and whether the channel is to halt.
#[derive(Clone, Copy)]
pub(crate) struct PollSaid {
    pub taken: bool,
    pub halt: bool,
}

// The reason to end, which the halt is then awaited with.
pub(crate) fn halt_at(bytes: &mut [u8], reason: IsoHaltReason)
    requires { layout_number bytes.old ≡ 0 }
    ensures { Left bytes.old bytes.new (with_reason reason (session_of bytes.old)) }
{
    put_tagged(bytes, 34, Tagged::from(reason));
}

// Takes the event and acts by its way, on a good record and with a ring that is long enough.
pub(crate) fn poll_at(bytes: &mut [u8], event: Option<IsoEvent>, ring: &mut [u32]) -> PollSaid
    requires { Good bytes.old
        × (ring_words (session_of bytes.old).cfg ≤ length ring.old) }
    ensures { (result.taken ≡ (polled_by (poll_way (session_of bytes.old) event) (session_of bytes.old) ring.old).taken)
        × (result.halt ≡ (polled_by (poll_way (session_of bytes.old) event) (session_of bytes.old) ring.old).halt)
        × (Left bytes.old bytes.new
        (polled_by (poll_way (session_of bytes.old) event) (session_of bytes.old) ring.old).session)
        × (ring.new
        ≡ polled_ring_by (poll_way (session_of bytes.old) event) (session_of bytes.old) ring.old) }
{
    let head = head_at(bytes);
    let fatal = reason_at(bytes);
    match way_of(head, fatal, event) {
        PollWay::Nothing => said(false, false),
        PollWay::End(outcome) => {
            end_at(bytes, outcome, ring);
            said(true, false)
        }
        PollWay::Halt(reason) => {
            halt_at(bytes, reason);
            said(true, true)
        }
        PollWay::Wait => said(true, false),
        PollWay::Settle(bit) => {
            drain_at(bytes, bit, ring);
            said(true, false)
        }
    }
}

fn said(taken: bool, halt: bool) -> PollSaid
    ensures { (result.taken ≡ taken) × (result.halt ≡ halt) }
{
    PollSaid { taken, halt }
}

pub(crate) fn poll_on(
    bytes: &mut [u8],
    bad: bool,
    event: Option<IsoEvent>,
    ring: &mut [u32],
) -> PortReply
    requires { (layout_number bytes.old ≡ 0) × (bad ≡ is_bad_record (session_of bytes.old)) }
    ensures { (result ≡ reply_port (polled (session_of bytes.old) event ring.old))
        × (Left bytes.old bytes.new (polled (session_of bytes.old) event ring.old).session)
        × (ring.new ≡ polled_ring (session_of bytes.old) event ring.old) }
{
    match lent(bytes, bad, ring.len()) {
        Err(refusal) => reply_refused(refusal),
        Ok(()) => {
            let said = poll_at(bytes, event, ring);
            reply_port(Ok(()), said.taken, said.halt)
        }
    }
}
