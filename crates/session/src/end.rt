// The end of a session: document 01, "Poll" and "Recovery". Every pending request gets the outcome, in order, and the ring is zeroed.
ghost use Rattle.std.specs.Prelude.{◌≡◌, false, map, ◌≤◌, length};
ghost use Rattle.session.specs.Session.{ring_words};
ghost use Rattle.session.specs.Record.{is_bad_record};
ghost use Rattle.session.specs.End.{with_outcome, ended, ended_ring};

use crate::open::{clear_ring, ring_words};
use crate::types::{IsoChannelState, IsoHead, IsoOutcome, IsoRequest};

// Puts the outcome into the requests that it is lent.
fn fail_requests(requests: &mut [IsoRequest], outcome: IsoOutcome)
    ensures { requests.new ≡ map (with_outcome outcome) requests.old }
{
    for request in requests.iter_mut() {
        *request = with_outcome(*request, outcome);
    }
}

pub fn with_outcome(request: IsoRequest, outcome: IsoOutcome) -> IsoRequest
    ensures { result ≡ with_outcome outcome request }
{
    IsoRequest { outcome, ..request }
}

impl IsoChannelState {
    // The session at its end: nothing pending, cursor and start zero, no reason and no live channel.
    pub(crate) fn end(mut self, outcome: IsoOutcome, ring: &mut [u32]) -> Self
        requires { (is_bad_record self ≡ false) × (ring_words self.cfg ≤ length ring.old) }
        ensures { (result ≡ ended outcome self) × (ring.new ≡ ended_ring self ring.old) }
    {
        clear_ring(ring, ring_words(self.cfg));
        let done = usize::from(self.head.done);
        let count = usize::from(self.head.count);
        fail_requests(&mut self.requests[done..count], outcome);
        self.head = IsoHead {
            live: false,
            td_last: 0,
            start_full_frame: 0,
            done: self.head.count,
            ..self.head
        };
        self.fatal = None;
        self
    }
}
