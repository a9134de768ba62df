// Settling: document 01, "Poll". The oldest request's plans take what their descriptors say, and its slots become zero.
ghost use Rattle.std.specs.Prelude.{◌≡◌, false, map, ◌≤◌, ◌<◌, length};
ghost use Rattle.std.proofs.Math.Seq.{slice};
ghost use Rattle.std.proofs.lemmas.List.Edits.{sets};
ghost use Rattle.words.specs.Words.{is_packet_error};
ghost use Rattle.session.specs.Record.{is_bad_record};
ghost use Rattle.session.specs.Settle.{status_of, settled_plan, moved_total, slots_cleared, settled_session, settled_ring, is_served, drained};

use crate::types::{IsoChannelState, IsoOutcome, IsoPacketPlan, IsoRequest, TransferStatus};
use words::{Direction, DmaDescriptor, clear_slot, is_active_at, moved_length, status_at};

fn status_of(status: u32) -> TransferStatus
    ensures { result ≡ status_of (is_packet_error status) }
{
    let failed = DmaDescriptor { status, paddr: 0 }.iso_status_error();
    if failed {
        TransferStatus::Error
    } else {
        TransferStatus::Completed
    }
}

// The plan with what its descriptor's status word says.
fn settled_plan(direction: Direction, plan: IsoPacketPlan, ring: &[u32]) -> IsoPacketPlan
    ensures { result ≡ settled_plan direction ring.now plan }
{
    let status = status_at(ring, plan.desc_index);
    IsoPacketPlan {
        actual: moved_length(direction, plan.planned, status),
        status: status_of(status),
        ..plan
    }
}

// Settles the plans that it is lent, each where it stands.
fn settle_packets(packets: &mut [IsoPacketPlan], direction: Direction, ring: &[u32])
    ensures { packets.new ≡ map (settled_plan direction ring.now) packets.old }
{
    for plan in packets.iter_mut() {
        *plan = settled_plan(direction, *plan, ring);
    }
}

// The table with the plans from `from` to `to` settled: it goes in by value and lends that part of itself, as document 01 has it.
fn settle_plans(
    mut plans: [IsoPacketPlan; 1024],
    from: usize,
    to: usize,
    direction: Direction,
    ring: &[u32],
) -> [IsoPacketPlan; 1024]
    requires { (from ≤ to) × (to ≤ 1024) }
    ensures { result ≡ sets plans from (map (settled_plan direction ring.now) (slice from to plans)) }
{
    settle_packets(&mut plans[from..to], direction, ring);
    plans
}

// The bytes that some plans moved.
fn moved_total(plans: &[IsoPacketPlan]) -> u32
    requires { length plans.now ≤ 1024 }
    ensures { result ≡ moved_total plans.now }
{
    plans.iter().map(|plan| u32::from(plan.actual)).sum()
}

// Both words of the slots of some plans become zero.
fn clear_slots(plans: &[IsoPacketPlan], ring: &mut [u32])
    ensures { ring.new ≡ slots_cleared plans.now ring.old }
{
    for plan in plans {
        clear_slot(ring, plan.desc_index);
    }
}

impl IsoChannelState {
    // The session with its oldest pending request completed; its slots become zero after all of them were read.
    fn settle_request(mut self, ring: &mut [u32]) -> Self
        requires { (is_bad_record self ≡ false) × (self.head.done < self.head.count) }
        ensures { (result ≡ settled_session self ring.old) × (ring.new ≡ settled_ring self ring.old) }
    {
        let at = usize::from(self.head.done);
        let from = self.plans_begin(at);
        let to = self.plans_end(at);
        let plans = settle_plans(self.plans, from, to, self.cfg.direction, ring);
        clear_slots(&self.plans[from..to], ring);
        self.requests[at] = IsoRequest {
            actual_length: moved_total(&plans[from..to]),
            outcome: IsoOutcome::Done,
            ..self.requests[at]
        };
        self.plans = plans;
        self.head.done += 1;
        self
    }

    // The last descriptor of the oldest pending request is no longer the controller's.
    fn is_served(&self, ring: &[u32]) -> bool
        requires { (is_bad_record self.now ≡ false) × (self.now.head.done < self.now.head.count) }
        ensures { result ≡ is_served self.now ring.now }
    {
        let last = self.plans_end(usize::from(self.head.done)) - 1;
        !is_active_at(ring, self.plans[last].desc_index)
    }

    // Settles the oldest request at once where the bit is set, then each oldest one that is served. The loop counts no index: it
    // ends by the session that each turn makes.
    pub(crate) fn drain_serviced(mut self, bit: bool, ring: &mut [u32]) -> Self
        requires { is_bad_record self ≡ false }
        ensures { (result ≡ (drained bit self ring.old).session) × (ring.new ≡ (drained bit self ring.old).ring) }
    {
        let mut at_once = bit;
        while self.head.done < self.head.count {
            if !at_once && !self.is_served(ring) {
                return self;
            }
            self = self.settle_request(ring);
            at_once = false;
        }
        self
    }
}
