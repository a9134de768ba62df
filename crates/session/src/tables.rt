// Blank entries, and sums over the entries in use.
ghost use Rattle.std.specs.Prelude.{◌-◌, ◌≡◌, ◌≤◌, length};
ghost use Rattle.session.specs.Session.{blank_request, blank_plan, packets_of};

use crate::types::{IsoOutcome, IsoPacketPlan, IsoRequest, TransferStatus};

pub(crate) fn blank_request() -> IsoRequest
    ensures { result ≡ blank_request }
{
    IsoRequest {
        id: 0,
        packets: 0,
        actual_length: 0,
        outcome: IsoOutcome::Done,
    }
}

pub(crate) fn blank_plan() -> IsoPacketPlan
    ensures { result ≡ blank_plan }
{
    IsoPacketPlan {
        planned: 0,
        desc_index: 0,
        actual: 0,
        status: TransferStatus::Completed,
    }
}

// The packets of some requests.
pub(crate) fn packets_of(requests: &[IsoRequest]) -> usize
    requires { length requests.now ≤ 64 }
    ensures { result ≡ packets_of requests.now }
{
    requests
        .iter()
        .map(|request| usize::from(request.packets))
        .sum()
}

// What is left of `all`. Public for who holds a record in bytes (docs/PROMISES.md); here the library's method says the same.
pub fn rest(all: u32, used: u32) -> usize
    ensures { result ≡ all - used }
{
    all.saturating_sub(used) as usize
}
