// Settling on the session's bytes: document 01, "Poll". The oldest requests are completed where they stand; nothing else is read or written.
// A run of entries is told by the number of its first and of the one behind its last: a part of the bytes is no slice of entries.
ghost use Rattle.std.specs.Prelude.{◌≡◌, ℕ, ◌+◌, ◌-◌, ◌*◌, ◌<◌, ◌≤◌, false, not, map, length, drop, slice_index, slice_index_or};
ghost use Rattle.std.proofs.Math.Seq.{slice};
ghost use Rattle.std.proofs.lemmas.List.Edits.{sets};
ghost use Rattle.words.specs.Words.{is_set, active, is_packet_error};
ghost use Rattle.session.specs.Session.{blank_request, blank_plan, packets_of, ring_words};
ghost use Rattle.session.specs.Settle.{status_of, settled_by, settled_plan, oldest_from, oldest_to, moved_total, one_more, slots_cleared, settled_session, settled_ring, drained};
ghost use Rattle.port.specs.Tags.{status_tag};
ghost use Rattle.port.specs.Layout.{plan_of, plan_bytes, layout_number, session_of, plans_in};
ghost use Rattle.port.specs.Places.{Good, requests_of, plans_of, with_plans, Left};

use crate::entries::{put_request, request_at};
use crate::load::head_at;
use crate::numbers::{byte_at, put, put_u16, u16_at};
use crate::save::put_head;
use crate::tags::{direction_of, flag_tag};
use session::{IsoHead, IsoOutcome, IsoRequest};
use words::{Direction, DmaDescriptor, is_active_at, moved_length};

// The packets of the request at a place.
pub(crate) fn packets_at(bytes: &[u8], i: usize) -> usize
    requires { (8488 ≤ length bytes.now) × (i < 64) }
    ensures { (result ≡ (slice_index_or (requests_of bytes.now) i blank_request).packets) × (result ≤ 65535) }
{
    u16_at(bytes, 52 + 20 * i) as usize
}

// The packets of the requests before a place: where the plans of the one that stands there begin.
pub(crate) fn packets_before(bytes: &[u8], end: u16) -> usize
    requires { (8488 ≤ length bytes.now) × (end ≤ 64) }
    ensures { result ≡ packets_of (slice 0 end (requests_of bytes.now)) }
{
    let mut sum: usize = 0;
    for i in 0..end as usize {
        sum += packets_at(bytes, i);
    }
    sum
}

// The slot of the plan at a place.
pub(crate) fn slot_at(bytes: &[u8], i: usize) -> u16
    requires { (8488 ≤ length bytes.now) × (i < 1024) }
    ensures { result ≡ (slice_index_or (plans_of bytes.now) i blank_plan).desc_index }
{
    u16_at(bytes, 1_322 + 7 * i)
}

// 1 where the packet failed on the bus.
pub(crate) fn error_tag(status: u32) -> u8
    ensures { result ≡ status_tag (status_of (is_packet_error status)) }
{
    let failed = DmaDescriptor { status, paddr: 0 }.iso_status_error();
    flag_tag(failed)
}

// Settles the plan at an offset by its descriptor's status word, and answers the bytes that it moved. Its planned length and its slot
// stay, so only the three bytes behind them are written.
fn settle_plan_at(bytes: &mut [u8], at: usize, direction: Direction, status: u32) -> u32
    requires { at + 7 ≤ length bytes.old }
    ensures { (result ≡ (settled_by direction (plan_of (drop at bytes.old)) status).actual)
        × (result ≤ 65535)
        × (bytes.new ≡ sets bytes.old at (plan_bytes (settled_by direction (plan_of (drop at bytes.old)) status))) }
{
    let actual = moved_length(direction, u16_at(bytes, at), status);
    put_u16(bytes, at + 4, actual);
    put(bytes, at + 6, [error_tag(status)]);
    actual as u32
}

// Settles the plans from `from` to `to`, each where it stands, and answers the bytes that they moved. Their slots are in the ring.
fn settle_plans_at(
    bytes: &mut [u8],
    from: usize,
    to: usize,
    direction: Direction,
    ring: &[u32],
) -> u32
    requires { (layout_number bytes.old ≡ 0)
        × (from ≤ to)
        × (to ≤ plans_in (session_of bytes.old))
        × ((k : ℕ) → from ≤ k → k < to → 2 * (slice_index_or (plans_of bytes.old) k blank_plan).desc_index + 1 < length ring.now) }
    ensures { (result ≡ moved_total (map (settled_plan direction ring.now) (slice from to (plans_of bytes.old))))
        × (Left bytes.old bytes.new
        (with_plans (session_of bytes.old)
        (sets (plans_of bytes.old) from (map (settled_plan direction ring.now) (slice from to (plans_of bytes.old)))))) }
{
    let mut sum: u32 = 0;
    for i in from..to {
        let status = ring[2 * slot_at(bytes, i) as usize];
        sum += settle_plan_at(bytes, 1_320 + 7 * i, direction, status);
    }
    sum
}

// Both words of the slots of the plans from `from` to `to`, which are in the ring, become zero.
pub(crate) fn clear_slots_at(bytes: &[u8], from: usize, to: usize, ring: &mut [u32])
    requires { (8488 ≤ length bytes.now)
        × (to ≤ 1024)
        × ((k : ℕ) → from ≤ k → k < to → 2 * (slice_index_or (plans_of bytes.now) k blank_plan).desc_index + 1 < length ring.old) }
    ensures { ring.new ≡ slots_cleared (slice from to (plans_of bytes.now)) ring.old }
{
    for i in from..to {
        let at = 2 * slot_at(bytes, i) as usize;
        ring[at] = 0;
        ring[at + 1] = 0;
    }
}

// Completes the oldest pending request, whose plans are those from `from` to `to`; its slots become zero after all of them were read.
fn settle_at(bytes: &mut [u8], from: usize, to: usize, ring: &mut [u32])
    requires { Good bytes.old
        × ((session_of bytes.old).head.done < (session_of bytes.old).head.count)
        × (from ≡ oldest_from (session_of bytes.old))
        × (to ≡ oldest_to (session_of bytes.old))
        × (ring_words (session_of bytes.old).cfg ≤ length ring.old) }
    ensures { (Left bytes.old bytes.new (settled_session (session_of bytes.old) ring.old))
        × (ring.new ≡ settled_ring (session_of bytes.old) ring.old) }
{
    let head = head_at(bytes);
    let direction = direction_of(byte_at(bytes, 6));
    let total = settle_plans_at(bytes, from, to, direction, ring);
    clear_slots_at(bytes, from, to, ring);
    let place = 40 + 20 * head.done as usize;
    let request = request_at(bytes, place);
    let settled = IsoRequest {
        actual_length: total,
        outcome: IsoOutcome::Done,
        ..request
    };
    put_request(bytes, place, settled);
    put_head(bytes, one_more(head));
}

fn one_more(head: IsoHead) -> IsoHead
    requires { head.done < 64 }
    ensures { result ≡ one_more head }
{
    IsoHead {
        done: head.done + 1,
        ..head
    }
}

// The last descriptor of the request whose plans end at `to` is no longer the controller's.
pub(crate) fn is_served_at(bytes: &[u8], to: usize, ring: &[u32]) -> bool
    requires { (8488 ≤ length bytes.now) × (0 < to) × (to ≤ 1024) }
    ensures { result ≡ not (is_set active (slice_index ring.now (2 * (slice_index_or (plans_of bytes.now) (to - 1) blank_plan).desc_index))) }
{
    !is_active_at(ring, slot_at(bytes, to - 1))
}

// Settles the oldest request at once where the bit is set, then each oldest one that is served.
pub(crate) fn drain_at(bytes: &mut [u8], bit: bool, ring: &mut [u32])
    requires { Good bytes.old
        × (ring_words (session_of bytes.old).cfg ≤ length ring.old) }
    ensures { (Left bytes.old bytes.new
        (drained bit (session_of bytes.old) ring.old).session)
        × (ring.new ≡ (drained bit (session_of bytes.old) ring.old).ring) }
{
    let head = head_at(bytes);
    let mut from = packets_before(bytes, head.done);
    let mut at_once = bit;
    for done in head.done..head.count {
        let to = from + packets_at(bytes, done as usize);
        if !(at_once | is_served_at(bytes, to, ring)) {
            return;
        }
        settle_at(bytes, from, to, ring);
        at_once = false;
        from = to;
    }
}
