// Submission: document 01, "Submit". The way is decided first; nothing is stored before the last check but gate 2. What the way does
// to ring, numbers, answer and start is `submit_parts`, on small things; the tables are written in place, by who holds them, since a
// method that is handed the session copies it.
ghost use Rattle.std.specs.Prelude.{◌≡◌, Option, Some, List, ◌+◌, ◌≤◌, T, length, take};
ghost use Rattle.session.specs.declared.types.IsoHaltReason.{IsoHaltReason};
ghost use Rattle.session.specs.declared.types.IsoRequest.{IsoRequest};
ghost use Rattle.session.specs.declared.types.IsoPacketPlan.{IsoPacketPlan};
ghost use Rattle.session.specs.declared.transfer.SubmitWay.TheVariants.{Accept};
ghost use Rattle.session.specs.Session.{slots, ring_words};
ghost use Rattle.session.specs.Scan.{whole, only, Scanned, Asked, is_gate, added, head_after, ring_by};
ghost use Rattle.ring.specs.Stores.{stored, stores_from};
ghost use Rattle.session.specs.Place.{step_of};
ghost use Rattle.session.specs.Way.{sum};
ghost use Rattle.session.specs.Submit.{spent, unplugged, new_request, answer_of, submitted, submitted_ring};
ghost use Rattle.session.specs.Parts.{Parted};

use crate::open::{clear_ring, ring_words};
use crate::place::{insert_of, slot_after, slots_of, start_of, step_of};
use crate::record::RecordScan;
use crate::refusal::IsoRefusal;
use crate::start::start_if;
use crate::transfer::{IsoSubmission, IsoTransfer, SubmitParts, SubmitScan, SubmitWay, Submitted};
use crate::types::{
    IsoChannelState, IsoConfig, IsoHaltReason, IsoHead, IsoOutcome, IsoPacketPlan, IsoRequest,
    TransferStatus,
};
use crate::way::{clash, submit_way};
use ring::{next_request_id, next_slot, store_packets};

fn answer_of(way: SubmitWay, cfg: IsoConfig, head: IsoHead) -> Result<IsoSubmission, IsoRefusal>
    ensures { result ≡ answer_of way (only cfg head) }
{
    match way {
        SubmitWay::Refuse(refusal) | SubmitWay::Spend(refusal) => Err(refusal),
        SubmitWay::TooLong(index) => Err(IsoRefusal::PacketTooLong(index)),
        SubmitWay::Early | SubmitWay::Late => Err(IsoRefusal::Unplugged),
        SubmitWay::Cut => Ok(IsoSubmission::Cut),
        SubmitWay::Accept => Ok(IsoSubmission::Accepted(head.next_request_id)),
    }
}

// The numbers with the next request's spent.
fn spent_head(head: IsoHead) -> IsoHead
    ensures { result ≡ spent head }
{
    IsoHead {
        next_request_id: next_request_id(head.next_request_id),
        ..head
    }
}

// 14: the same, cursor and start zero.
fn unplugged_head(head: IsoHead) -> IsoHead
    ensures { result ≡ unplugged head }
{
    IsoHead {
        next_request_id: next_request_id(head.next_request_id),
        td_last: 0,
        start_full_frame: 0,
        ..head
    }
}

// With one request more and the cursor at `slot`.
fn started_head(cfg: IsoConfig, head: IsoHead, transfer: IsoTransfer, slot: u16) -> IsoHead
    requires { head.count ≤ 64 }
    ensures { result ≡ head_after Accept cfg head transfer slot }
{
    IsoHead {
        next_request_id: next_request_id(head.next_request_id),
        live: true,
        td_last: slot,
        start_full_frame: start_of(cfg, head, transfer),
        count: head.count + 1,
        ..head
    }
}

fn head_after(
    way: SubmitWay,
    cfg: IsoConfig,
    head: IsoHead,
    transfer: IsoTransfer,
    slot: u16,
) -> IsoHead
    requires { way ≡ Accept → head.count ≤ 64 }
    ensures { result ≡ head_after way cfg head transfer slot }
{
    match way {
        SubmitWay::Refuse(_) | SubmitWay::Cut => head,
        SubmitWay::TooLong(_) | SubmitWay::Spend(_) => spent_head(head),
        SubmitWay::Early | SubmitWay::Late => unplugged_head(head),
        SubmitWay::Accept => started_head(cfg, head, transfer, slot),
    }
}

// The packets that an accepted submission adds; no other adds any.
fn added_packets(way: SubmitWay, n: usize) -> usize
    ensures { result ≡ added way n }
{
    if way == SubmitWay::Accept { n } else { 0 }
}

// Stores the packets' words, as many as may be.
fn store(cfg: IsoConfig, transfer: IsoTransfer, insert: u16, lengths: &[u32], ring: &mut [u32])
    requires { transfer.base + sum lengths.now ≤ 4294967295 }
    ensures { ring.new
        ≡ stored (take transfer.words (stores_from (slots cfg) insert (step_of cfg) 0 transfer.base lengths.now)) ring.old }
{
    store_packets(
        ring,
        slots_of(cfg),
        insert,
        step_of(cfg),
        transfer.base as u32,
        lengths,
        transfer.words,
    )
}

// What the way does to the ring.
fn store_by(
    way: SubmitWay,
    cfg: IsoConfig,
    transfer: IsoTransfer,
    insert: u16,
    lengths: &[u32],
    ring: &mut [u32],
)
    requires { T (is_gate way) → (ring_words cfg ≤ length ring.old) × (transfer.base + sum lengths.now ≤ 4294967295) }
    ensures { ring.new ≡ ring_by way cfg transfer insert lengths.now ring.old }
{
    match way {
        SubmitWay::Refuse(_) | SubmitWay::TooLong(_) | SubmitWay::Spend(_) => {}
        SubmitWay::Early | SubmitWay::Late => clear_ring(ring, ring_words(cfg)),
        SubmitWay::Cut | SubmitWay::Accept => store(cfg, transfer, insert, lengths, ring),
    }
}

// What a submission asks of the tables, by one walk over them. Packets that are too many for any room are not looked up.
fn asked(
    cfg: IsoConfig,
    head: IsoHead,
    transfer: IsoTransfer,
    scan: Option<RecordScan>,
    lengths: &[u32],
    ring: &[u32],
) -> Option<SubmitScan>
    ensures { (fatal : Option IsoHaltReason) (requests : List IsoRequest) (plans : List IsoPacketPlan)
        → Scanned (whole cfg head fatal requests plans) scan
        → Asked (whole cfg head fatal requests plans) transfer lengths.now ring.now result }
{
    let scan = scan?;
    let insert = insert_of(cfg, head, transfer, scan.tail, ring);
    Some(SubmitScan {
        all: scan.all,
        pending: scan.pending,
        insert,
        clash: (lengths.len() <= 255) && clash(cfg, insert, &scan.held, lengths.len()),
    })
}

// A submission but for the tables of the session, which its caller holds: the ring is stored to, and the parts say what else is left.
// The three parts of a session that it reads come one by one: port has a session in bytes and reads these alone, and a struct of them
// would be taken apart again in each function below.
pub fn submit_parts(
    cfg: IsoConfig,
    head: IsoHead,
    fatal: Option<IsoHaltReason>,
    scan: Option<SubmitScan>,
    transfer: IsoTransfer,
    lengths: &[u32],
    ring: &mut [u32],
) -> SubmitParts
    ensures { (requests : List IsoRequest) (plans : List IsoPacketPlan)
        → Asked (whole cfg head fatal requests plans) transfer lengths.now ring.old scan
        → Parted (whole cfg head fatal requests plans) transfer lengths.now ring.old result ×
        (ring.new ≡ submitted_ring (whole cfg head fatal requests plans) transfer lengths.now ring.old) }
{
    let way = submit_way(cfg, head, fatal, scan, transfer, lengths, ring);
    let found = scan.unwrap_or_default();
    let insert = found.insert;
    store_by(way, cfg, transfer, insert, lengths, ring);
    let n = added_packets(way, lengths.len());
    let slots = slots_of(cfg);
    let step = step_of(cfg);
    let slot = slot_after(slots, insert, step, n);
    SubmitParts {
        answer: answer_of(way, cfg, head),
        start: start_if((n > 0) & !head.live, cfg, head, transfer),
        head: head_after(way, cfg, head, transfer, slot),
        added: n,
        to: found.all as usize,
        insert,
        step,
        slots,
    }
}

pub fn new_request(id: u64, packets: u16) -> IsoRequest
    ensures { result ≡ new_request id packets }
{
    IsoRequest {
        id,
        packets,
        actual_length: 0,
        outcome: IsoOutcome::Done,
    }
}

impl IsoChannelState {
    // The submission but for the tables.
    fn parts_of(&self, transfer: IsoTransfer, lengths: &[u32], ring: &mut [u32]) -> SubmitParts
        ensures { Parted self.now transfer lengths.now ring.old result
            × (ring.new ≡ submitted_ring self.now transfer lengths.now ring.old) }
    {
        let scan = asked(self.cfg, self.head, transfer, self.scan(), lengths, ring);
        submit_parts(
            self.cfg, self.head, self.fatal, scan, transfer, lengths, ring,
        )
    }

    // Hands a request to the ring. What it does follows from the way; the session comes back with the answer.
    pub fn submit(mut self, transfer: IsoTransfer, lengths: &[u32], ring: &mut [u32]) -> Submitted
        ensures { (result ≡ submitted self transfer lengths.now ring.old)
            × (ring.new ≡ submitted_ring self transfer lengths.now ring.old) }
    {
        let head = self.head;
        let parts = self.parts_of(transfer, lengths, ring);
        let n = parts.added;
        let mut slot = parts.insert % parts.slots;
        for i in 0..n {
            self.plans[parts.to + i] = IsoPacketPlan {
                planned: lengths[i] as u16,
                desc_index: slot,
                actual: 0,
                status: TransferStatus::Completed,
            };
            slot = next_slot(slot, parts.step, parts.slots);
        }
        if n > 0 {
            self.requests[head.count as usize] = new_request(head.next_request_id, n as u16);
        }
        self.head = parts.head;
        Submitted {
            answer: parts.answer,
            start: parts.start,
            session: self,
        }
    }
}
