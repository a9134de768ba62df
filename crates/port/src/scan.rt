// The two checks of a session's bytes on one walk: those of the layout (docs/LAYOUT.md) and of the record (document 01, "Refusal
// numbers", 18). Only the entries in use are read, each once.
ghost use Rattle.std.specs.Prelude.{◌≡◌, ◌||◌, ◌+◌, ◌-◌, ◌*◌, ◌/◌, ◌%◌, ◌≤◌, true, false, cond, length, drop, None, Some, IfSome};
ghost use Rattle.std.specs.List.{list_any, range_with_len};
ghost use Rattle.std.proofs.Math.Seq.{slice};
ghost use Rattle.ring.specs.RingSums.{ring_size, packet_limit};
ghost use Rattle.session.specs.Session.{packets_of};
ghost use Rattle.port.specs.Layout.{any_of, is_bad_mark, is_bad_head, session_of};
ghost use Rattle.port.specs.Places.{requests_of};
ghost use Rattle.port.specs.Scan.{is_bad_request_entry, is_bad_plan_entry, is_bad_numbers, sums_in};

use crate::drain::packets_before;
use crate::entries::{is_bad_plan_at, is_bad_request_at, plan_at, request_at};
use crate::load::{config_at, head_at, is_bad_front, reason_at};
use crate::numbers::{u16_at, u64_at};
use ring::{Speed, iso_max_xfer_size, iso_ring_size};
use session::{is_bad_config, is_bad_plan, is_bad_request, is_bad_state, is_over_room};

// The packets of all requests in use and of the pending ones.
#[derive(Clone, Copy)]
pub(crate) struct RequestSums {
    pub all: u32,
    pub pending: u32,
}

// Most requests have no outcome yet, or none but done: the count of packets and the six bytes behind it are then a number from 1 to 255.
fn is_bad_entry(bytes: &[u8], at: usize) -> bool
    requires { at + 20 ≤ length bytes.now }
    ensures { result ≡ is_bad_request_entry (drop at bytes.now) }
{
    let word = u64_at(bytes, at + 12);
    if (word == 0) | (word > 255) {
        return is_bad_request_at(bytes, at) | is_bad_request(request_at(bytes, at));
    }
    false
}

// Of two numbers one that is below neither, nor its bits 8 to 23 below theirs: all bits that they have.
fn joined(a: u64, b: u64) -> u64
    ensures { (a ≤ result) × (b ≤ result) × (a / 256 % 65536 ≤ result / 256 % 65536) × (b / 256 % 65536 ≤ result / 256 % 65536) }
{
    a | b
}

// The packets of the first `n` requests, where each has such a number: less 1 it is up to 254. The bits of all are put together without a test of each,
// so that one test speaks of all.
fn plain_packets(bytes: &[u8], n: u16) -> Option<u64>
    requires { (8488 ≤ length bytes.now) × (n ≤ 64) }
    ensures { IfSome result
        (λ packets. (any_of is_bad_request_entry 20 n (drop 40 bytes.now) ≡ false)
        × (packets ≡ packets_of (slice 0 n (requests_of bytes.now)))) }
{
    let mut words = 0;
    let mut sum: u64 = 0;
    for i in 0..n as usize {
        let word = u64_at(bytes, 52 + 20 * i);
        words = joined(words, word.wrapping_sub(1));
        sum = sum.wrapping_add(word);
    }
    if words > 254 {
        return None;
    }
    Some(sum)
}

// Whether one of the first `n` requests is bad by either check.
fn any_bad_entry(bytes: &[u8], n: u16) -> bool
    requires { (8488 ≤ length bytes.now) × (n ≤ 64) }
    ensures { result ≡ list_any (λ i. is_bad_request_entry (drop (40 + 20 * i) bytes.now)) (range_with_len 0 n) }
{
    (0..n as usize).any(|i| is_bad_entry(bytes, 40 + 20 * i))
}

// The packets of the requests in use, unless one is bad by either check.
fn requests_checked(bytes: &[u8], n: u16) -> Option<usize>
    requires { (8488 ≤ length bytes.now) × (n ≤ 64) }
    ensures { result
        ≡ cond (any_of is_bad_request_entry 20 n (drop 40 bytes.now)) None (Some (packets_of (slice 0 n (requests_of bytes.now)))) }
{
    if let Some(packets) = plain_packets(bytes, n) {
        return Some(packets as usize);
    }
    if any_bad_entry(bytes, n) {
        return None;
    }
    Some(packets_before(bytes, n))
}

fn is_bad_packet(bytes: &[u8], at: usize, limit: u16, slots: u16) -> bool
    requires { at + 7 ≤ length bytes.now }
    ensures { result ≡ is_bad_plan_entry limit slots (drop at bytes.now) }
{
    is_bad_plan_at(bytes, at) | is_bad_plan(limit, slots, plan_at(bytes, at))
}

// Whether one of the plans from `from` to `to` is bad by either check. All are asked, so that a turn has no branch but the loop's. Only what is settled
// needs it, and so it stands once.
#[inline(never)]
fn any_bad_packet(bytes: &[u8], from: usize, to: usize, limit: u16, slots: u16) -> bool
    requires { (8488 ≤ length bytes.now) × (from ≤ to) × (to ≤ 1024) }
    ensures { result ≡ any_of (is_bad_plan_entry limit slots) 7 (to - from) (drop (1320 + 7 * from) bytes.now) }
{
    let mut bad = false;
    for i in from..to {
        bad |= is_bad_packet(bytes, 1_320 + 7 * i, limit, slots);
    }
    bad
}

// None of the plans from `from` to `to` is settled or bad. Of one that is not settled the last three bytes, what it moved and its status, are 0: its
// seven bytes and the one before them are then a number below 2^24 for each slot of the ring. The bits of all are put together, as of requests.
fn are_unsettled(bytes: &[u8], from: usize, to: usize, limit: u16, slots: u16) -> bool
    requires { (8488 ≤ length bytes.now) × (from ≤ to) × (to ≤ 1024) }
    ensures { result ≡ true → any_of (is_bad_plan_entry limit slots) 7 (to - from) (drop (1320 + 7 * from) bytes.now) ≡ false }
{
    let mut words = 0;
    for i in from..to {
        words = joined(words, u64_at(bytes, 1_319 + 7 * i));
    }
    (words < 16_777_216 * u64::from(slots)) & (words / 256 % 65_536 <= u64::from(limit))
}

// Whether one of all plans in use is bad by either check. Those of completed requests, the first `before`, are settled; of the others mostly none is.
fn any_bad_in_use(bytes: &[u8], before: usize, all: usize, speed: Speed) -> bool
    requires { (8488 ≤ length bytes.now) × (before ≤ all) × (all ≤ 1024) }
    ensures { result ≡ any_of (is_bad_plan_entry (packet_limit speed) (ring_size speed)) 7 all (drop 1320 bytes.now) }
{
    let limit = iso_max_xfer_size(speed);
    let slots = iso_ring_size(speed);
    if any_bad_packet(bytes, 0, before, limit, slots) {
        return true;
    }
    if are_unsettled(bytes, before, all, limit, slots) {
        return false;
    }
    any_bad_packet(bytes, before, all, limit, slots)
}

// What the record check asks of a session but for its entries.
fn are_bad_numbers(bytes: &[u8]) -> bool
    requires { 8488 ≤ length bytes.now }
    ensures { result ≡ is_bad_numbers (session_of bytes.now) }
{
    let cfg = config_at(bytes);
    let head = head_at(bytes);
    let counts = (head.count < head.done) | (head.count > 64);
    is_bad_config(cfg) | (counts | is_bad_state(head, iso_ring_size(cfg.speed), reason_at(bytes)))
}

// The packets of the completed requests. Where all are completed these are the packets of all, which are not counted twice.
fn done_packets(bytes: &[u8], done: u16, count: u16, all: usize) -> usize
    requires { (8488 ≤ length bytes.now) × (done ≤ 64) × (all ≡ packets_of (slice 0 count (requests_of bytes.now))) }
    ensures { result ≡ packets_of (slice 0 done (requests_of bytes.now)) }
{
    if done == count {
        return all;
    }
    packets_before(bytes, done)
}

// The packets of the entries in use, where those pass both checks. It is put into each call: as a function of its own it takes a third longer beside
// few requests.
#[inline(always)]
fn entries_at(bytes: &[u8]) -> Option<RequestSums>
    requires { (8488 ≤ length bytes.now)
        × ((is_bad_mark bytes.now || is_bad_head bytes.now) ≡ false)
        × (is_bad_numbers (session_of bytes.now) ≡ false) }
    ensures { result ≡ sums_in bytes.now }
{
    let head = head_at(bytes);
    let all = requests_checked(bytes, head.count)?;
    let before = done_packets(bytes, head.done, head.count, all);
    let pending = all - before;
    let cfg = config_at(bytes);
    if (all > 1_024) | is_over_room(cfg, pending as u64) {
        return None;
    }
    if any_bad_in_use(bytes, before, all, cfg.speed) {
        return None;
    }
    Some(RequestSums {
        all: all as u32,
        pending: pending as u32,
    })
}

// Both checks of a session's bytes, of the layout and of the record, and the packets counted where both are passed. An empty session has no entry to
// look at.
#[inline(always)]
pub(crate) fn sums_at(bytes: &[u8]) -> Option<RequestSums>
    requires { 8488 ≤ length bytes.now }
    ensures { result ≡ sums_in bytes.now }
{
    if is_bad_front(bytes) | are_bad_numbers(bytes) {
        return None;
    }
    if u16_at(bytes, 32) == 0 {
        return Some(RequestSums { all: 0, pending: 0 });
    }
    entries_at(bytes)
}
