// Cancelling on a session's bytes where they stand: document 01, "Cancel". One request's outcome is written, or the reason.
ghost use Rattle.std.specs.Prelude.{◌≡◌, ◌<◌, ◌≤◌, length, nat_lt};
ghost use Rattle.std.proofs.Math.Seq.{slice};
ghost use Rattle.session.specs.Cancel.{place_of, cancelled};
ghost use Rattle.session.specs.Record.{is_bad_record};
ghost use Rattle.port.specs.Layout.{layout_number, session_of};
ghost use Rattle.port.specs.Calls.{reply_port};
ghost use Rattle.port.specs.Places.{Left};

use crate::answers::{PortReply, reply_port, reply_refused};
use crate::end::put_outcome;
use crate::load::{head_at, reason_at};
use crate::numbers::u64_at;
use crate::poll::halt_at;
use session::{IsoHaltReason, IsoOutcome, IsoRefusal};

// The place of the first request with the number, or `count`.
pub(crate) fn place_at(bytes: &[u8], count: u16, id: u64) -> u16
    requires { (8488 ≤ length bytes.now) × (count ≤ 64) }
    ensures { result ≡ place_of id (slice 0 count (session_of bytes.now).requests) }
{
    for i in 0..count {
        if u64_at(bytes, 40 + 20 * i as usize) == id {
            return i;
        }
    }
    count
}

// Numbers are drawn in turn, so that a request mostly stands as far behind the first as its number does. Where none is completed any place with the
// number is as good as the first with it, since both are pending. So that place is asked before the walk.
fn found_at(bytes: &[u8], done: u16, count: u16, id: u64) -> u16
    requires { (8488 ≤ length bytes.now) × (count ≤ 64) }
    ensures { (nat_lt result done ≡ nat_lt (place_of id (slice 0 count (session_of bytes.now).requests)) done)
        × (nat_lt result count ≡ nat_lt (place_of id (slice 0 count (session_of bytes.now).requests)) count)
        × (result < done → result ≡ place_of id (slice 0 count (session_of bytes.now).requests)) }
{
    if done == 0 {
        let behind = id.wrapping_sub(u64_at(bytes, 40));
        if behind < u64::from(count) && u64_at(bytes, 40 + 20 * behind as usize) == id {
            return behind as u16;
        }
    }
    place_at(bytes, count, id)
}

pub(crate) fn cancel_at(bytes: &mut [u8], bad: bool, id: u64) -> PortReply
    requires { (layout_number bytes.old ≡ 0) × (bad ≡ is_bad_record (session_of bytes.old)) }
    ensures { (result ≡ reply_port (cancelled (session_of bytes.old) id))
        × (Left bytes.old bytes.new (cancelled (session_of bytes.old) id).session) }
{
    if bad {
        return reply_refused(IsoRefusal::BadRecord);
    }
    let head = head_at(bytes);
    let at = found_at(bytes, head.done, head.count, id);
    if at < head.done {
        put_outcome(bytes, 40 + 20 * at as usize, IsoOutcome::Cancelled);
        return reply_port(Ok(()), false, false);
    }
    if at >= head.count {
        return reply_refused(IsoRefusal::UnknownRequest);
    }
    if reason_at(bytes).is_some() {
        return reply_port(Ok(()), false, false);
    }
    halt_at(bytes, IsoHaltReason::Cancelled);
    reply_port(Ok(()), false, true)
}
