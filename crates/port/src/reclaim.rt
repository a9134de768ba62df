// Reclaiming on the session's bytes: document 01, "Reclaim". A completed request is handed out once; the tables close up behind it where they stand.
// A run of entries is told by the number of its first and of the one behind its last: a part of the bytes is no slice of entries.
ghost use Rattle.std.specs.Prelude.{◌≡◌, ℕ, ◌+◌, ◌*◌, ◌<◌, ◌≤◌, Bool, false, map, length, drop, cond, slice_index_or};
ghost use Rattle.std.proofs.Math.Seq.{slice};
ghost use Rattle.std.proofs.lemmas.List.Edits.{sets};
ghost use Rattle.session.specs.Session.{blank_request, ring_words, all_packets};
ghost use Rattle.session.specs.Reclaim.{is_done, result_word, looked_at, looked_ring_at, plans_begin, plans_end, closed_up, one_less, removed, handed_answer, handed_results, reclaim_reply, looked_again_at, looked_results_at, is_short, reclaimed, reclaimed_ring, reclaimed_results};
ghost use Rattle.port.specs.Layout.{plan_of, is_bad_plan_bytes, layout_number, session_of, requests_in, plans_in};
ghost use Rattle.port.specs.Calls.{reclaimed_port};
ghost use Rattle.port.specs.Scan.{record_sums};
ghost use Rattle.port.specs.Places.{Good, requests_of, plans_of, with_requests, with_plans, Left, Acted};

use crate::answers::{PortReclaimed, reclaim_port, reclaim_refused};
use crate::cancel::place_at;
use crate::drain::{packets_at, packets_before};
use crate::entries::request_at;
use crate::first::{is_first_only, reclaim_first};
use crate::load::{config_at, head_at};
use crate::numbers::{byte_at, move_down, u16_at};
use crate::poll::{PollSaid, poll_at};
use crate::save::put_head;
use crate::scan::RequestSums;
use session::{
    IsoCompletion, IsoEvent, IsoHead, IsoOutcome, IsoRefusal, handed_answer, ring_words,
};

// The entries from `from` to `to` move down to `into`, as plain bytes: an entry in use is written as it was read. So for requests and for plans.
// Two functions: what moves the bytes is one, and each says what becomes of its own table, which is a field of the session.
pub(crate) fn close_requests_at(bytes: &mut [u8], into: usize, from: usize, to: usize)
    requires { (layout_number bytes.old ≡ 0) × (into ≤ from) × (to ≤ requests_in (session_of bytes.old)) }
    ensures { Left bytes.old bytes.new
        (with_requests (session_of bytes.old) (closed_up into from to (requests_of bytes.old))) }
{
    if from < to {
        move_down(bytes, 40 + 20 * into, 40 + 20 * from, 20 * (to - from));
    }
}

pub(crate) fn close_plans_at(bytes: &mut [u8], into: usize, from: usize, to: usize)
    requires { (layout_number bytes.old ≡ 0) × (into ≤ from) × (to ≤ plans_in (session_of bytes.old)) }
    ensures { Left bytes.old bytes.new
        (with_plans (session_of bytes.old) (closed_up into from to (plans_of bytes.old))) }
{
    if from < to {
        move_down(bytes, 1_320 + 7 * into, 1_320 + 7 * from, 7 * (to - from));
    }
}

fn one_less(head: IsoHead) -> IsoHead
    requires { (0 < head.done) × (0 < head.count) }
    ensures { result ≡ one_less head }
{
    IsoHead {
        done: head.done - 1,
        count: head.count - 1,
        ..head
    }
}

// Takes out the request at `at` and its plans, which are those from `from` to `to` of `all`: plans first, while the requests still tell how
// many are in use.
fn remove_at(bytes: &mut [u8], at: u16, from: usize, to: usize, all: usize)
    requires { Good bytes.old
        × (at < (session_of bytes.old).head.done)
        × (from ≡ plans_begin at (session_of bytes.old))
        × (to ≡ plans_end at (session_of bytes.old))
        × (all ≡ all_packets (session_of bytes.old)) }
    ensures { Left bytes.old bytes.new (removed at (session_of bytes.old)) }
{
    let head = head_at(bytes);
    let count = head.count;
    let place = at as usize;
    close_plans_at(bytes, from, to, all);
    close_requests_at(bytes, place, place + 1, count as usize);
    put_head(bytes, one_less(head));
}

// The result of the plan at an offset. Its status is 0 or 1, so that it is put in its place as it stands.
fn result_at(bytes: &[u8], at: usize) -> u64
    requires { (at + 7 ≤ length bytes.now) × (is_bad_plan_bytes (drop at bytes.now) ≡ false) }
    ensures { result ≡ result_word (plan_of (drop at bytes.now)) }
{
    let failed = byte_at(bytes, at + 6) as u32;
    (u16_at(bytes, at + 4) as u32 + 4_096 * u16_at(bytes, at) as u32 + 16_777_216 * failed) as u64
}

// The results of the plans from `from` to `to`, unless their request ended in an error; those behind them stay.
fn hand_results_at(bytes: &[u8], outcome: IsoOutcome, from: usize, to: usize, results: &mut [u64])
    requires { (8488 ≤ length bytes.now)
        × (from ≤ to)
        × (to ≤ 1024)
        × (to ≤ from + length results.old)
        × ((k : ℕ) → k < to → is_bad_plan_bytes (drop (1320 + 7 * k) bytes.now) ≡ false) }
    ensures { results.new
        ≡ cond (is_done outcome) (sets results.old 0 (map result_word (slice from to (plans_of bytes.now)))) results.old }
{
    if outcome != IsoOutcome::Done {
        return;
    }
    for at in 0..to - from {
        results[at] = result_at(bytes, 1_320 + 7 * (from + at));
    }
}

// Hands out the completed request at `at`: what it answers, its results, and the session without it.
fn hand_out_at(bytes: &mut [u8], at: u16, all: usize, results: &mut [u64]) -> IsoCompletion
    requires { Good bytes.old
        × (at < (session_of bytes.old).head.done)
        × (255 ≤ length results.old)
        × (all ≡ all_packets (session_of bytes.old)) }
    ensures { (result ≡ handed_answer (slice_index_or (requests_of bytes.old) at blank_request))
        × (Left bytes.old bytes.new (removed at (session_of bytes.old)))
        × (results.new ≡ handed_results at (session_of bytes.old) results.old) }
{
    let place = at as usize;
    let request = request_at(bytes, 40 + 20 * place);
    let from = packets_before(bytes, at);
    let to = from + packets_at(bytes, place);
    hand_results_at(bytes, request.outcome, from, to, results);
    remove_at(bytes, at, from, to, all);
    handed_answer(request)
}

// Hands the request at `at` out where it is completed. What it answers goes with whether the look took the event and asks for a halt.
fn look_again_at(
    bytes: &mut [u8],
    at: u16,
    all: usize,
    results: &mut [u64],
) -> Result<Option<IsoCompletion>, IsoRefusal>
    requires { Good bytes.old
        × (255 ≤ length results.old)
        × (all ≡ all_packets (session_of bytes.old)) }
    ensures { ((taken halt : Bool)
        → reclaim_reply result taken halt (session_of bytes.new)
        ≡ looked_again_at at taken halt (session_of bytes.old))
        × (Left bytes.old bytes.new (session_of bytes.new))
        × (results.new ≡ looked_results_at at (session_of bytes.old) results.old) }
{
    let head = head_at(bytes);
    if at < head.done {
        return Ok(Some(hand_out_at(bytes, at, all, results)));
    }
    if at < head.count {
        return Ok(None);
    }
    Err(IsoRefusal::UnknownRequest)
}

// Polls, unless the request at `at` is completed already.
fn look_at(bytes: &mut [u8], at: u16, event: Option<IsoEvent>, ring: &mut [u32]) -> PollSaid
    requires { Good bytes.old
        × (ring_words (session_of bytes.old).cfg ≤ length ring.old) }
    ensures { Acted bytes.old bytes.new result (looked_at at event (session_of bytes.old) ring.old)
        × (ring.new ≡ looked_ring_at at event (session_of bytes.old) ring.old) }
{
    let head = head_at(bytes);
    if at < head.done {
        return PollSaid {
            taken: false,
            halt: false,
        };
    }
    poll_at(bytes, event, ring)
}

// The request with the number, on a good record and with lent arrays that are long enough. The poll between the two looks leaves every request at its
// place, so that it is looked for once.
fn reclaim_good(
    bytes: &mut [u8],
    all: usize,
    id: u64,
    event: Option<IsoEvent>,
    ring: &mut [u32],
    results: &mut [u64],
) -> PortReclaimed
    requires { Good bytes.old
        × (all ≡ all_packets (session_of bytes.old))
        × (is_short (session_of bytes.old) (length ring.old) (length results.old) ≡ false) }
    ensures { (result ≡ reclaimed_port (reclaimed (session_of bytes.old) id event ring.old (length results.old)))
        × (Left bytes.old bytes.new
        (reclaimed (session_of bytes.old) id event ring.old (length results.old)).session)
        × (ring.new ≡ reclaimed_ring (session_of bytes.old) id event ring.old (length results.old))
        × (results.new ≡ reclaimed_results (session_of bytes.old) id event ring.old results.old) }
{
    let head = head_at(bytes);
    let at = place_at(bytes, head.count, id);
    if is_first_only(bytes, at, all, event, ring) {
        return reclaim_first(bytes, all, ring, results);
    }
    let look = look_at(bytes, at, event, ring);
    let answer = look_again_at(bytes, at, all, results);
    reclaim_port(answer, look.taken, look.halt)
}

// Hands out the completed request with the number: its outcome and, unless that is an error, a result for each packet.
pub(crate) fn reclaim_at(
    bytes: &mut [u8],
    sums: Option<RequestSums>,
    id: u64,
    event: Option<IsoEvent>,
    ring: &mut [u32],
    results: &mut [u64],
) -> PortReclaimed
    requires { (layout_number bytes.old ≡ 0) × (sums ≡ record_sums (session_of bytes.old)) }
    ensures { (result ≡ reclaimed_port (reclaimed (session_of bytes.old) id event ring.old (length results.old)))
        × (Left bytes.old bytes.new
        (reclaimed (session_of bytes.old) id event ring.old (length results.old)).session)
        × (ring.new ≡ reclaimed_ring (session_of bytes.old) id event ring.old (length results.old))
        × (results.new ≡ reclaimed_results (session_of bytes.old) id event ring.old results.old) }
{
    let words = ring_words(config_at(bytes));
    if (ring.len() < words) | (results.len() < 255) {
        return reclaim_refused(IsoRefusal::ShortBuffer);
    }
    match sums {
        None => reclaim_refused(IsoRefusal::BadRecord),
        Some(sums) => reclaim_good(bytes, sums.all as usize, id, event, ring, results),
    }
}
