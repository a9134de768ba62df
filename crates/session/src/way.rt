// Which way a submission goes, before anything is stored: document 01, "Submit" and "Refusal numbers". It is decided on the small
// parts of the session and on what was asked of its tables.
ghost use Rattle.std.specs.Prelude.{◌≡◌, ◌&&◌, Option, Some, Ok, List, ℕ, ◌+◌, ◌≤◌, ◌<◌, T, ltb, length};
ghost use Rattle.ring.specs.RingSums.{slots_from};
ghost use Rattle.session.specs.declared.types.IsoConfig.{IsoConfig};
ghost use Rattle.session.specs.declared.types.IsoHaltReason.{IsoHaltReason};
ghost use Rattle.session.specs.declared.types.IsoRequest.{IsoRequest};
ghost use Rattle.session.specs.declared.types.IsoPacketPlan.{IsoPacketPlan};
ghost use Rattle.session.specs.Session.{slots, ring_words, room};
ghost use Rattle.session.specs.Scan.{whole, Found, Asked, is_gate};
ghost use Rattle.session.specs.Place.{step_of};
ghost use Rattle.session.specs.Way.{is_guarded, any_marked, sum, first_of, room_checks, spend_refusal, gate_at, submit_way};

use crate::open::ring_words;
use crate::place::{slots_of, step_of};
use crate::record::is_over_room;
use crate::refusal::IsoRefusal;
use crate::store::{any_marked, first_long, sum_of};
use crate::transfer::{IsoTransfer, SubmitScan, SubmitWay};
use crate::types::{IsoConfig, IsoHaltReason, IsoHead, IsoMode};
use ring::{Speed, iso_max_xfer_size};

// Public for who holds a record in bytes (docs/PROMISES.md); here the library's `==` says the same.
pub fn is_guarded(mode: IsoMode) -> bool
    ensures { result ≡ is_guarded mode }
{
    mode == IsoMode::Guarded
}

// The gates of a first submission, and between them the words that may be stored.
fn gate_way(live: bool, transfer: IsoTransfer, n: usize) -> SubmitWay
    requires { n ≤ 1024 }
    ensures { result ≡ gate_at live transfer n }
{
    if !live & !transfer.gate_program {
        return SubmitWay::Early;
    }
    if (transfer.words as usize) < 2 * n {
        return SubmitWay::Cut;
    }
    if !live & !transfer.gate_enable {
        return SubmitWay::Late;
    }
    SubmitWay::Accept
}

// More packets than may be in flight, with those that are.
fn is_over_with(cfg: IsoConfig, pending: u32, n: usize) -> bool
    ensures { result ≡ ltb (room cfg) (pending + n) }
{
    if n > 255 {
        return true;
    }
    is_over_room(cfg, pending as u64 + n as u64)
}

// 1 to 8: nothing is altered.
fn entry_refusal(
    cfg: IsoConfig,
    head: IsoHead,
    fatal: Option<IsoHaltReason>,
    scan: SubmitScan,
    transfer: IsoTransfer,
    n: usize,
) -> Result<(), IsoRefusal>
    ensures { ((requests : List IsoRequest) (plans : List IsoPacketPlan) (lengths ring : List ℕ)
        → Asked (whole cfg head fatal requests plans) transfer lengths ring (Some scan)
        → result
        ≡ first_of (room_checks (whole cfg head fatal requests plans) transfer n))
        × (result ≡ Ok tt → (n ≤ 255) × (head.count < 64)) }
{
    if fatal.is_some() {
        return Err(IsoRefusal::Ending);
    }
    if cfg.speed == Speed::Low {
        return Err(IsoRefusal::LowSpeed);
    }
    if !transfer.isochronous {
        return Err(IsoRefusal::NotIsochronous);
    }
    if n == 0 {
        return Err(IsoRefusal::NoPackets);
    }
    if !transfer.has_buffer {
        return Err(IsoRefusal::NoBuffer);
    }
    let over = is_over_with(cfg, scan.pending, n);
    if over & (head.done == head.count) {
        return Err(IsoRefusal::OverCapacity);
    }
    if over {
        return Err(IsoRefusal::OverCapacityPending);
    }
    if (head.count >= 64) | (n > 1_024_u32.saturating_sub(scan.all) as usize) {
        return Err(IsoRefusal::TablesFull);
    }
    Ok(())
}

// 13: a slot of the submission is one of a pending request, whose slots are marked in `held`. The table is lent, not copied.
pub fn clash(cfg: IsoConfig, insert: u16, held: &[bool; 256], n: usize) -> bool
    ensures { result
        ≡ (is_guarded cfg.mode && any_marked held.now (slots_from (slots cfg) insert (step_of cfg) 0 n)) }
{
    (cfg.mode == IsoMode::Guarded) && any_marked(held, slots_of(cfg), insert, step_of(cfg), n)
}

// 10 to 13: the number is spent.
fn spend_refusal(
    head: IsoHead,
    scan: SubmitScan,
    transfer: IsoTransfer,
    lengths: &[u32],
) -> Result<(), IsoRefusal>
    requires { length lengths.now ≤ 255 }
    ensures { ((cfg : IsoConfig) (fatal : Option IsoHaltReason) (requests : List IsoRequest) (plans : List IsoPacketPlan) (ring : List ℕ)
        → Found (whole cfg head fatal requests plans) transfer lengths.now ring scan
        → result
        ≡ spend_refusal (whole cfg head fatal requests plans) transfer lengths.now ring)
        × (result ≡ Ok tt → transfer.base + sum lengths.now ≤ 4294967295) }
{
    let sum = sum_of(lengths);
    if sum != transfer.buffer_len as u64 {
        return Err(IsoRefusal::LengthsDiffer);
    }
    if words::is_beyond(transfer.base, sum) {
        return Err(IsoRefusal::AddressLimit);
    }
    if !head.live & !transfer.channel_free {
        return Err(IsoRefusal::NoChannel);
    }
    if scan.clash {
        return Err(IsoRefusal::SlotHeld);
    }
    Ok(())
}

// The way of a submission: what it does follows from this alone. Whatever the tables answered, a way past every refusal is sure of
// ring, address and room.
pub(crate) fn submit_way(
    cfg: IsoConfig,
    head: IsoHead,
    fatal: Option<IsoHaltReason>,
    scan: Option<SubmitScan>,
    transfer: IsoTransfer,
    lengths: &[u32],
    ring: &[u32],
) -> SubmitWay
    ensures { ((requests : List IsoRequest) (plans : List IsoPacketPlan)
        → Asked (whole cfg head fatal requests plans) transfer lengths.now ring.now scan
        → result
        ≡ submit_way (whole cfg head fatal requests plans) transfer lengths.now ring.now)
        × (T (is_gate result)
        → (length lengths.now ≤ 255) × (head.count < 64) × (ring_words cfg ≤ length ring.now) ×
        (transfer.base + sum lengths.now ≤ 4294967295)) }
{
    let n = lengths.len();
    if ring.len() < ring_words(cfg) {
        return SubmitWay::Refuse(IsoRefusal::ShortBuffer);
    }
    let Some(scan) = scan else {
        return SubmitWay::Refuse(IsoRefusal::BadRecord);
    };
    if let Err(refusal) = entry_refusal(cfg, head, fatal, scan, transfer, n) {
        return SubmitWay::Refuse(refusal);
    }
    if let Some(index) = first_long(iso_max_xfer_size(cfg.speed), lengths) {
        return SubmitWay::TooLong(index as u32);
    }
    if let Err(refusal) = spend_refusal(head, scan, transfer, lengths) {
        return SubmitWay::Spend(refusal);
    }
    gate_way(head.live, transfer, n)
}
