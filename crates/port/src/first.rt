// The first request settled and handed out in one: document 01, "Poll" and "Reclaim". So a camera's driver takes its frames, the oldest
// at a time with others behind it. What settling writes into its entries is then moved over by the others, and is not written at all.
ghost use Rattle.std.specs.Prelude.{None, Some, Ok, ◌≡◌, ℕ, ◌+◌, ◌-◌, ◌*◌, ◌<◌, ◌≤◌, true, false, not, ◌||◌, ◌==◌, map, length, get_or, slice_index, slice_index_or};
ghost use Rattle.std.specs.List.{list_any, range_with_len};
ghost use Rattle.std.proofs.Math.Seq.{slice};
ghost use Rattle.std.proofs.lemmas.List.Edits.{sets};
ghost use Rattle.words.specs.Words.{is_set, active, complete, halted, hcint_fault, is_packet_error, moved_length};
ghost use Rattle.session.specs.declared.reply.PollWay.TheVariants.{Settle};
ghost use Rattle.session.specs.Session.{blank_request, blank_plan, all_packets, ring_words};
ghost use Rattle.session.specs.Settle.{status_of, settled_plan, settled_plans, moved_total, settled_session, settled_ring, drained};
ghost use Rattle.session.specs.Poll.{poll_way};
ghost use Rattle.session.specs.Reclaim.{error_bit, result_word, removed, handed_answer, handed_results};
ghost use Rattle.port.specs.Layout.{session_of};
ghost use Rattle.port.specs.Calls.{reclaim_port};
ghost use Rattle.port.specs.Places.{Good, requests_of, plans_of, Left};
ghost use Rattle.port.specs.First.{FirstOnly};

use crate::answers::{PortReclaimed, reclaim_port};
use crate::drain::{clear_slots_at, error_tag, is_served_at, packets_at, slot_at};
use crate::load::head_at;
use crate::numbers::{byte_at, put_u16, u16_at};
use crate::reclaim::{close_plans_at, close_requests_at};
use crate::tags::direction_of;
use session::{IsoCompletion, IsoEvent, IsoOutcome};
use words::{Direction, hcint_xfercompl, moved_length};

// No fault, and not halted, by two tests in the place of seven: the bits 1 to 3 and 7 to 10 together.
fn is_calm(hcint: u32) -> bool
    ensures { result ≡ true → (hcint_fault hcint ≡ None) × (is_set halted hcint ≡ false) }
{
    (hcint / 2 % 8 == 0) & (hcint / 128 % 16 == 0)
}

// A calm event that is taken, and no reason to end.
fn is_settling_way(bytes: &[u8], event: IsoEvent) -> bool
    requires { 8488 ≤ length bytes.now }
    ensures { result ≡ true → Settle (is_set complete event.hcint) ≡ poll_way (session_of bytes.now) (Some event) }
{
    let head = head_at(bytes);
    let hcint = event.hcint;
    (head.live & !event.unplugged) & (is_calm(hcint) & (byte_at(bytes, 34) == 0))
}

// Whether one of the first plans, `n` of them, has the slot.
fn has_slot(bytes: &[u8], n: usize, slot: u16) -> bool
    requires { (8488 ≤ length bytes.now) × (n ≤ 1024) }
    ensures { result
        ≡ list_any (λ i. (get_or (plans_of bytes.now) i blank_plan).desc_index == slot) (range_with_len 0 n) }
{
    (0..n).any(|i| slot_at(bytes, i) == slot)
}

// The bit settles the first request whatever its descriptors say, so that none of them is read.
fn is_settled(bytes: &[u8], n: usize, bit: bool, ring: &[u32]) -> bool
    requires { (8488 ≤ length bytes.now) × (0 < n) × (n ≤ 1024) }
    ensures { result
        ≡ (bit
        || not (is_set active (slice_index ring.now (2 * (get_or (plans_of bytes.now) (n - 1) blank_plan).desc_index)))) }
{
    bit || is_served_at(bytes, n, ring)
}

// The first request, whose plans end at `n`, is settled by the event, and the second, whose plans end at `to`, is not: its last slot is none of
// those that are cleared.
fn is_alone(bytes: &[u8], n: usize, to: usize, bit: bool, ring: &[u32]) -> bool
    requires { Good bytes.now
        × ((session_of bytes.now).head.done ≡ 0)
        × (1 < (session_of bytes.now).head.count)
        × (n ≡ (get_or (requests_of bytes.now) 0 blank_request).packets)
        × (to ≡ n + (get_or (requests_of bytes.now) 1 blank_request).packets) }
    ensures { result ≡ true
        → drained bit (session_of bytes.now) ring.now
        ≡ record {
          session = settled_session (session_of bytes.now) ring.now;
          ring = settled_ring (session_of bytes.now) ring.now;
        } }
{
    if !is_settled(bytes, n, bit, ring) {
        return false;
    }
    if is_served_at(bytes, to, ring) {
        return false;
    }
    let slot = slot_at(bytes, to - 1);
    !has_slot(bytes, n, slot)
}

// The place is that of the first of several requests, a poll with the event settles it and no other, and those behind it have as many packets
// or more.
pub(crate) fn is_first_only(
    bytes: &[u8],
    at: u16,
    all: usize,
    event: Option<IsoEvent>,
    ring: &[u32],
) -> bool
    requires { Good bytes.now
        × (all ≡ all_packets (session_of bytes.now)) }
    ensures { result ≡ true → (at ≡ 0) × FirstOnly (session_of bytes.now) event ring.now }
{
    let Some(event) = event else {
        return false;
    };
    let several = (at == 0) & ((u16_at(bytes, 30) == 0) & (u16_at(bytes, 32) > 1));
    if !(several & is_settling_way(bytes, event)) {
        return false;
    }
    let n = packets_at(bytes, 0);
    if 2 * n > all {
        return false;
    }
    let to = n + packets_at(bytes, 1);
    is_alone(bytes, n, to, hcint_xfercompl(event.hcint), ring)
}

// The result of a packet, by its descriptor's status word.
fn settled_word(direction: Direction, planned: u16, status: u32) -> u64
    ensures { result ≡ moved_length direction planned status + 4096 * planned + error_bit (status_of (is_packet_error status)) }
{
    let actual = moved_length(direction, planned, status);
    let failed = error_tag(status);
    (actual as u32 + 4_096 * planned as u32 + 16_777_216 * failed as u32) as u64
}

// The results of the first plans, `n` of them, as settling would leave those, and the bytes that they moved.
fn settle_results(
    bytes: &[u8],
    n: usize,
    direction: Direction,
    ring: &[u32],
    results: &mut [u64],
) -> u32
    requires { (8488 ≤ length bytes.now)
        × (n ≤ 1024)
        × (n ≤ length results.old)
        × ((k : ℕ) → 0 ≤ k → k < n → 2 * (get_or (plans_of bytes.now) k blank_plan).desc_index + 1 < length ring.now) }
    ensures { (result ≡ moved_total (map (settled_plan direction ring.now) (slice 0 n (plans_of bytes.now))))
        × (results.new
        ≡ sets results.old 0
        (map result_word (map (settled_plan direction ring.now) (slice 0 n (plans_of bytes.now))))) }
{
    let mut sum: u32 = 0;
    for i in 0..n {
        let status = ring[2 * slot_at(bytes, i) as usize];
        let planned = u16_at(bytes, 1_320 + 7 * i);
        results[i] = settled_word(direction, planned, status);
        sum += moved_length(direction, planned, status) as u32;
    }
    sum
}

// Takes out the first request, which has `n` of all the packets: its results first, then its slots, then its entries, which the others are moved
// over. Answers the bytes that it moved.
fn take_first(bytes: &mut [u8], n: usize, all: usize, ring: &mut [u32], results: &mut [u64]) -> u32
    requires { Good bytes.old
        × ((session_of bytes.old).head.done ≡ 0)
        × (1 < (session_of bytes.old).head.count)
        × (n ≡ (get_or (requests_of bytes.old) 0 blank_request).packets)
        × (all ≡ all_packets (session_of bytes.old))
        × (2 * n ≤ all)
        × (ring_words (session_of bytes.old).cfg ≤ length ring.old)
        × (255 ≤ length results.old) }
    ensures { (result ≡ moved_total (settled_plans (session_of bytes.old) ring.old))
        × (Left bytes.old bytes.new (removed 0 (settled_session (session_of bytes.old) ring.old)))
        × (ring.new ≡ settled_ring (session_of bytes.old) ring.old)
        × (results.new ≡ handed_results 0 (settled_session (session_of bytes.old) ring.old) results.old) }
{
    let count = u16_at(bytes, 32);
    let direction = direction_of(byte_at(bytes, 6));
    let total = settle_results(bytes, n, direction, ring, results);
    clear_slots_at(bytes, 0, n, ring);
    close_plans_at(bytes, 0, n, all);
    close_requests_at(bytes, 0, 1, count as usize);
    put_u16(bytes, 32, count - 1);
    total
}

// Reclaims the first request, of which `is_first_only` told.
pub(crate) fn reclaim_first(
    bytes: &mut [u8],
    all: usize,
    ring: &mut [u32],
    results: &mut [u64],
) -> PortReclaimed
    requires { Good bytes.old
        × ((session_of bytes.old).head.done ≡ 0)
        × (1 < (session_of bytes.old).head.count)
        × (all ≡ all_packets (session_of bytes.old))
        × (2 * (get_or (requests_of bytes.old) 0 blank_request).packets ≤ all)
        × (ring_words (session_of bytes.old).cfg ≤ length ring.old)
        × (255 ≤ length results.old) }
    ensures { (result
        ≡ reclaim_port (Ok (Some (handed_answer (slice_index_or (settled_session (session_of bytes.old) ring.old).requests 0 blank_request)))) 1 0)
        × (Left bytes.old bytes.new (removed 0 (settled_session (session_of bytes.old) ring.old)))
        × (ring.new ≡ settled_ring (session_of bytes.old) ring.old)
        × (results.new ≡ handed_results 0 (settled_session (session_of bytes.old) ring.old) results.old) }
{
    let n = packets_at(bytes, 0);
    let total = take_first(bytes, n, all, ring, results);
    let completion = IsoCompletion {
        outcome: IsoOutcome::Done,
        actual_length: total,
        packets: n as u16,
    };
    reclaim_port(Ok(Some(completion)), true, false)
}
