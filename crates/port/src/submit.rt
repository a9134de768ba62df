// Submission on the session's bytes where they stand: document 01, "Submit". Crate session decides, stores to the ring and says what
// is left (`submit_parts`); here the request and its plans are written behind the others, then the numbers. Nothing else is touched.
ghost use Rattle.std.specs.Prelude.{◌≡◌, ℕ, ◌+◌, ◌*◌, ◌<◌, ◌≤◌, length, take, slice_index};
ghost use Rattle.std.proofs.lemmas.List.Edits.{sets};
ghost use Rattle.session.specs.Place.{plans_from};
ghost use Rattle.session.specs.Submit.{submitted, submitted_ring};
ghost use Rattle.session.specs.Parts.{Fitting};
ghost use Rattle.port.specs.Layout.{plan_bytes, table_bytes, layout_number, session_of};
ghost use Rattle.port.specs.Calls.{submitted_port, grown_bytes};
ghost use Rattle.port.specs.Submit.{Grown};
ghost use Rattle.port.specs.Scan.{record_sums};

use crate::answers::{PortSubmitted, submit_port};
use crate::entries::{put_plan, put_request};
use crate::load::{config_at, head_at, reason_at};
use crate::marks::scan_of;
use crate::save::put_head;
use crate::scan::RequestSums;
use ring::next_slot;
use session::{
    IsoHead, IsoPacketPlan, IsoTransfer, SubmitParts, TransferStatus, new_request, submit_parts,
};

// The plans of the packets that are added, behind one another.
fn put_packets(bytes: &mut [u8], parts: SubmitParts, lengths: &[u32])
    requires { (0 < parts.slots)
        × (1320 + 7 * parts.to + 7 * parts.added ≤ length bytes.old)
        × (parts.added ≤ length lengths.now)
        × ((k : ℕ) → k < length lengths.now → slice_index lengths.now k ≤ 65535) }
    ensures { bytes.new
        ≡ sets bytes.old (1320 + 7 * parts.to) (table_bytes plan_bytes (plans_from parts.slots parts.insert parts.step 0 (take parts.added lengths.now))) }
{
    let mut slot = parts.insert % parts.slots;
    for i in 0..parts.added {
        let plan = IsoPacketPlan {
            planned: lengths[i] as u16,
            desc_index: slot,
            actual: 0,
            status: TransferStatus::Completed,
        };
        put_plan(bytes, 1_320 + 7 * (parts.to + i), plan);
        slot = next_slot(slot, parts.step, parts.slots);
    }
}

// The request and its plans behind the others, where packets are added.
fn put_added(bytes: &mut [u8], head: IsoHead, parts: SubmitParts, lengths: &[u32])
    requires { (layout_number bytes.old ≡ 0)
        × (head ≡ (session_of bytes.old).head)
        × (0 < parts.slots)
        × (0 < parts.added → Fitting (session_of bytes.old) parts lengths.now)
        × (parts.added ≡ 0 → parts.head.count ≡ (session_of bytes.old).head.count) }
    ensures { Grown bytes.old bytes.new parts lengths.now }
{
    if parts.added == 0 {
        return;
    }
    put_packets(bytes, parts, lengths);
    let request = new_request(head.next_request_id, parts.added as u16);
    put_request(bytes, 40 + 20 * head.count as usize, request);
}

pub(crate) fn submit_at(
    bytes: &mut [u8],
    sums: Option<RequestSums>,
    transfer: IsoTransfer,
    lengths: &[u32],
    ring: &mut [u32],
) -> PortSubmitted
    requires { (layout_number bytes.old ≡ 0) × (sums ≡ record_sums (session_of bytes.old)) }
    ensures { (result ≡ submitted_port (submitted (session_of bytes.old) transfer lengths.now ring.old))
        × (bytes.new
        ≡ grown_bytes bytes.old (submitted (session_of bytes.old) transfer lengths.now ring.old).session)
        × (ring.new ≡ submitted_ring (session_of bytes.old) transfer lengths.now ring.old) }
{
    let cfg = config_at(bytes);
    let head = head_at(bytes);
    let fatal = reason_at(bytes);
    let scan = scan_of(bytes, sums, cfg, head, transfer, lengths, ring);
    let parts = submit_parts(cfg, head, fatal, scan, transfer, lengths, ring);
    put_added(bytes, head, parts, lengths);
    put_head(bytes, parts.head);
    submit_port(parts.answer, parts.start)
}
