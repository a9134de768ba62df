// Refusal 18: document 01, "Refusal numbers". The entries in use are walked where they stand, by lent parts of the tables. What a
// submission asks of the tables is found on the way.
ghost use Rattle.std.specs.Prelude.{◌≡◌, not, ◌||◌, ◌&&◌, ◌≤◌, leb, ltb, ◌*◌, cond, None, Some, IfSome, length};
ghost use Rattle.session.specs.Record.{is_bad_config, is_bad_request, any_bad_request, is_bad_plan, any_bad_plan, is_bad_record};
ghost use Rattle.session.specs.Scan.{Scanned, Marked};
ghost use Rattle.session.specs.Session.{has_reason, room, packets_of};

use crate::place::{slots_of, step_of};
use crate::types::{IsoChannelState, IsoConfig, IsoHaltReason, IsoHead, IsoPacketPlan, IsoRequest};
use ring::{iso_max_packets, iso_max_xfer_size};

// What a good record holds: the packets of all requests and of the pending ones, the newest packet's slot, and a yes for each slot
// below 256 that a pending packet has.
#[derive(Clone, Copy)]
pub(crate) struct RecordScan {
    pub all: u32,
    pub pending: u32,
    pub tail: u16,
    pub held: [bool; 256],
}

pub fn is_bad_config(cfg: IsoConfig) -> bool
    ensures { result ≡ is_bad_config cfg }
{
    (cfg.endpoint > 15) | ((cfg.device > 127) | ((cfg.max_packet_size > 2_047) | (cfg.mult > 3)))
}

// The most packets in flight.
fn room(cfg: IsoConfig) -> u16
    ensures { result ≡ room cfg }
{
    iso_max_packets(cfg.interval, cfg.speed)
}

// More packets than may be in flight. Those that fit with a whole interval between them fit whatever the divisor is, so none is found.
pub fn is_over_room(cfg: IsoConfig, packets: u64) -> bool
    ensures { result ≡ ltb (room cfg) packets }
{
    if packets > 255 {
        return true;
    }
    if (packets as u32 + 1) * u32::from(step_of(cfg)) <= u32::from(slots_of(cfg)) {
        return false;
    }
    packets > u64::from(room(cfg))
}

pub fn is_bad_request(request: IsoRequest) -> bool
    ensures { result ≡ is_bad_request request }
{
    (request.packets == 0) | (request.packets > 255)
}

pub fn is_bad_plan(limit: u16, slots: u16, plan: IsoPacketPlan) -> bool
    ensures { result ≡ is_bad_plan limit slots plan }
{
    (plan.planned > limit) | ((plan.actual > plan.planned) | (plan.desc_index >= slots))
}

// Public for who holds a record in bytes (docs/PROMISES.md); here the library's method says the same.
pub fn has_reason(fatal: Option<IsoHaltReason>) -> bool
    ensures { result ≡ has_reason fatal }
{
    fatal.is_some()
}

// The cursor beyond the ring, or requests pending or a reason without a live channel.
pub fn is_bad_state(head: IsoHead, slots: u16, fatal: Option<IsoHaltReason>) -> bool
    ensures { result ≡ leb slots head.td_last || not head.live && (ltb head.done head.count || has_reason fatal) }
{
    (head.td_last >= slots) | (!head.live & ((head.done < head.count) | fatal.is_some()))
}

// The packets of requests, unless one of these is bad.
fn packets_counted(requests: &[IsoRequest]) -> Option<usize>
    requires { length requests.now ≤ 64 }
    ensures counted { result ≡ cond (any_bad_request requests.now) None (Some (packets_of requests.now)) }
    ensures few { IfSome result (λ packets. packets ≤ 65535 * 64) }
{
    let mut sum = 0;
    for request in requests {
        if is_bad_request(*request) {
            return None;
        }
        sum += usize::from(request.packets);
    }
    Some(sum)
}

fn any_bad_plan(limit: u16, slots: u16, plans: &[IsoPacketPlan]) -> bool
    ensures { result ≡ any_bad_plan limit slots plans.now }
{
    plans.iter().any(|&plan| is_bad_plan(limit, slots, plan))
}

// A mark for each slot that one of the plans has, unless one of these is bad.
fn marks_of(limit: u16, slots: u16, plans: &[IsoPacketPlan]) -> Option<[bool; 256]>
    requires { slots ≤ 256 }
    ensures { Marked limit slots plans.now result }
{
    let mut held = [false; 256];
    for plan in plans {
        if is_bad_plan(limit, slots, *plan) {
            return None;
        }
        held[plan.desc_index as usize] = true;
    }
    Some(held)
}

impl IsoChannelState {
    // A record that no call leaves behind: its numbers lie beyond their limits.
    pub fn is_bad_record(&self) -> bool
        ensures { result ≡ is_bad_record self.now }
    {
        self.scan().is_none()
    }

    // The tests of refusal 18. Where one holds nothing is found.
    pub(crate) fn scan(&self) -> Option<RecordScan>
        ensures { Scanned self.now result }
    {
        let head = self.head;
        let done = head.done as usize;
        let count = head.count as usize;
        if is_bad_config(self.cfg) | ((head.count < head.done) | (head.count > 64)) {
            return None;
        }
        let before = packets_counted(&self.requests[..done])?;
        let pending = packets_counted(&self.requests[done..count])?;
        let all = before + pending;
        if (all > 1_024) | (pending > room(self.cfg) as usize) {
            return None;
        }
        let limit = iso_max_xfer_size(self.cfg.speed);
        let slots = slots_of(self.cfg);
        if any_bad_plan(limit, slots, &self.plans[..before]) {
            return None;
        }
        let held = marks_of(limit, slots, &self.plans[before..all])?;
        if is_bad_state(head, slots, self.fatal) {
            return None;
        }
        Some(RecordScan {
            all: all as u32,
            pending: pending as u32,
            tail: self.plans[all.saturating_sub(1)].desc_index,
            held,
        })
    }
}
