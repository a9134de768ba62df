// What a submission asks of the tables: document 01, "Submit". Of a bad record nothing is read; of a good one the newest packet's slot,
// and the pending plans only where refusal 13 may be asked, in guarded mode.
ghost use Rattle.std.specs.Prelude.{◌≡◌, ◌≤◌, false, ◌&&◌, length};
ghost use Rattle.ring.specs.RingSums.{slots_from};
ghost use Rattle.session.specs.Session.{slots, all_packets, pending_packets};
ghost use Rattle.session.specs.Record.{is_bad_record};
ghost use Rattle.session.specs.Place.{step_of};
ghost use Rattle.session.specs.Way.{is_guarded, any_held, pending_plans};
ghost use Rattle.session.specs.Scan.{Asked};
ghost use Rattle.port.specs.Layout.{layout_number, session_of};
ghost use Rattle.port.specs.Scan.{record_sums};

use crate::entries::plan_at;
use crate::scan::RequestSums;
use session::{IsoConfig, IsoHead, IsoMode, IsoTransfer, SubmitScan, clash, insert_of};

// 13: the slots of the pending packets are marked, and those of the submission looked up. A slot of a good record is below 256, so that
// each has its mark. More than 255 packets are refused before 13 is asked.
fn clash_at(bytes: &[u8], all: u32, pending: u32, cfg: IsoConfig, insert: u16, n: usize) -> bool
    requires { (8488 ≤ length bytes.now)
        × (is_bad_record (session_of bytes.now) ≡ false)
        × (all ≡ all_packets (session_of bytes.now))
        × (pending ≡ pending_packets (session_of bytes.now)) }
    ensures { n ≤ 255
        → result
        ≡ (is_guarded cfg.mode
        && any_held (pending_plans (session_of bytes.now)) (slots_from (slots cfg) insert (step_of cfg) 0 n)) }
{
    if (cfg.mode == IsoMode::Compatible) | (n > 255) {
        return false;
    }
    let mut held = [false; 256];
    for j in all.saturating_sub(pending)..all {
        let plan = plan_at(bytes, 1_320 + 7 * j as usize);
        held[plan.desc_index as usize] = true;
    }
    clash(cfg, insert, &held, n)
}

pub(crate) fn scan_of(
    bytes: &[u8],
    sums: Option<RequestSums>,
    cfg: IsoConfig,
    head: IsoHead,
    transfer: IsoTransfer,
    lengths: &[u32],
    ring: &[u32],
) -> Option<SubmitScan>
    requires { (layout_number bytes.now ≡ 0)
        × (sums ≡ record_sums (session_of bytes.now))
        × (cfg ≡ (session_of bytes.now).cfg)
        × (head ≡ (session_of bytes.now).head) }
    ensures { Asked (session_of bytes.now) transfer lengths.now ring.now result }
{
    let RequestSums { all, pending } = sums?;
    let last = plan_at(bytes, 1_320 + 7 * all.saturating_sub(1) as usize);
    let insert = insert_of(cfg, head, transfer, last.desc_index, ring);
    Some(SubmitScan {
        all,
        pending,
        insert,
        clash: clash_at(bytes, all, pending, cfg, insert, lengths.len()),
    })
}
