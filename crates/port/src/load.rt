// A session's bytes: whether they are one of the layout, and what stands before the tables. Each function asks that they are long enough, or of
// the layout, in its own clause: a type that held the second would be false between two writes.
ghost use Rattle.std.specs.Prelude.{◌≡◌, ◌≤◌, ◌||◌, cond, Some, None, length, drop};
ghost use Rattle.std.proofs.Math.Seq.{slice};
ghost use Rattle.session.specs.Session.{packets_of};
ghost use Rattle.port.specs.Tags.{tagged_of, fatal_of, is_bad_tagged};
ghost use Rattle.port.specs.Layout.{config_of, head_of, session_of, any_of, is_bad_request_bytes, is_bad_plan_bytes, is_bad_mark, is_bad_head};
ghost use Rattle.port.specs.Layout.{requests_in, layout_refusal};
ghost use Rattle.port.specs.Places.{requests_of};

use crate::entries::{is_bad_plan_at, is_bad_request_at, tagged_at};
use crate::numbers::{byte_at, u16_at, u32_at, u64_at};
use crate::tags::{direction_of, is_bad_tagged, mode_of, speed_of};
use session::{IsoConfig, IsoHaltReason, IsoHead, IsoRefusal};

pub(crate) fn config_at(bytes: &[u8]) -> IsoConfig
    requires { 8488 ≤ length bytes.now }
    ensures { result ≡ config_of bytes.now }
{
    IsoConfig {
        speed: speed_of(byte_at(bytes, 5)),
        direction: direction_of(byte_at(bytes, 6)),
        interval: u16_at(bytes, 8),
        endpoint: byte_at(bytes, 12),
        device: byte_at(bytes, 13),
        max_packet_size: u16_at(bytes, 10),
        mult: byte_at(bytes, 14),
        mode: mode_of(byte_at(bytes, 7)),
    }
}

pub(crate) fn head_at(bytes: &[u8]) -> IsoHead
    requires { 8488 ≤ length bytes.now }
    ensures { result ≡ head_of bytes.now }
{
    IsoHead {
        next_request_id: u64_at(bytes, 16),
        live: byte_at(bytes, 15) != 0,
        td_last: u16_at(bytes, 28),
        start_full_frame: u32_at(bytes, 24),
        done: u16_at(bytes, 30),
        count: u16_at(bytes, 32),
    }
}

// Why the session is ending.
pub(crate) fn reason_at(bytes: &[u8]) -> Option<IsoHaltReason>
    requires { 8488 ≤ length bytes.now }
    ensures { result ≡ fatal_of (tagged_of (drop 34 bytes.now)) }
{
    Option::from(tagged_at(bytes, 34))
}

// The requests in use, as far as the table goes.
fn requests_in(bytes: &[u8]) -> u16
    requires { 8488 ≤ length bytes.now }
    ensures { result ≡ requests_in (session_of bytes.now) }
{
    u16_at(bytes, 32).min(64)
}

// The packets of the first `n` requests, where none of those is bad.
fn requests_used(bytes: &[u8], n: u16) -> Option<usize>
    requires { (8488 ≤ length bytes.now) × (n ≤ 64) }
    ensures { result
        ≡ cond (any_of is_bad_request_bytes 20 n (drop 40 bytes.now)) None (Some (packets_of (slice 0 n (requests_of bytes.now)))) }
{
    let mut sum: usize = 0;
    for i in 0..n {
        let at = 40 + 20 * usize::from(i);
        if is_bad_request_at(bytes, at) {
            return None;
        }
        sum += usize::from(u16_at(bytes, at + 12));
    }
    Some(sum)
}

fn any_bad_plan(bytes: &[u8], m: usize) -> bool
    requires { (8488 ≤ length bytes.now) × (m ≤ 1024) }
    ensures { result ≡ any_of is_bad_plan_bytes 7 m (drop 1320 bytes.now) }
{
    for i in 0..m {
        if is_bad_plan_at(bytes, 1_320 + 7 * i) {
            return true;
        }
    }
    false
}

// Three letters and the low byte of the version are one number, 68 + 256 × 87 + 65,536 × 83 + 16,777,216, so that one comparison tells.
fn is_bad_mark(bytes: &[u8]) -> bool
    requires { 8488 ≤ length bytes.now }
    ensures { result ≡ is_bad_mark bytes.now }
{
    (u32_at(bytes, 0) != 22_239_044) | (byte_at(bytes, 4) != 0)
}

// Without a reason its six bytes, behind the count of requests, are 0.
fn is_bad_reason(bytes: &[u8]) -> bool
    requires { 8488 ≤ length bytes.now }
    ensures { result ≡ is_bad_tagged 2 2 (tagged_of (drop 34 bytes.now)) }
{
    u64_at(bytes, 32) >= 65_536 && is_bad_tagged(2, 2, tagged_at(bytes, 34))
}

// What stands before the tables, but for what the record check asks of it: few comparisons, as every call makes them.
pub(crate) fn is_bad_front(bytes: &[u8]) -> bool
    requires { 8488 ≤ length bytes.now }
    ensures { result ≡ (is_bad_mark bytes.now || is_bad_head bytes.now) }
{
    is_bad_mark(bytes)
        | ((byte_at(bytes, 5) > 2)
            | ((byte_at(bytes, 6) > 1)
                | ((byte_at(bytes, 7) > 1) | ((byte_at(bytes, 15) > 1) | is_bad_reason(bytes)))))
}

// Refuses bytes that are no session of the layout. Few calls need it, and so it is put into none.
#[inline(never)]
pub(crate) fn layout_refusal(bytes: &[u8]) -> Result<(), IsoRefusal>
    ensures { result ≡ layout_refusal bytes.now }
{
    if bytes.len() < 8_488 {
        return Err(IsoRefusal::ShortBuffer);
    }
    if is_bad_front(bytes) {
        return Err(IsoRefusal::BadRecord);
    }
    let Some(packets) = requests_used(bytes, requests_in(bytes)) else {
        return Err(IsoRefusal::BadRecord);
    };
    // The plans of so many packets, as far as the table goes.
    if any_bad_plan(bytes, packets.min(1_024)) {
        return Err(IsoRefusal::BadRecord);
    }
    Ok(())
}
