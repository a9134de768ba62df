// Cancelling: document 01, "Cancel". A completed result is amended; for a pending one the channel has to halt first.
ghost use Rattle.std.specs.Prelude.{◌≡◌, ◌≤◌, ◌<◌, nat_eq, MatchOption};
ghost use Rattle.std.specs.List.{position_from};
ghost use Rattle.session.specs.Poll.{with_reason};
ghost use Rattle.session.specs.Cancel.{request_at, with_cancelled, cancelled};

use crate::end::with_outcome;
use crate::refusal::IsoRefusal;
use crate::reply::{IsoReply, done, refused};
use crate::types::{IsoChannelState, IsoHaltReason, IsoOutcome, IsoRequest};

// The place of the first of some requests with the number.
fn place_of(requests: &[IsoRequest], id: u64) -> Option<usize>
    ensures { result ≡ position_from (λ r. nat_eq r.id id) 0 requests.now }
{
    requests.iter().position(|request| request.id == id)
}

impl IsoChannelState {
    // The place of the first request with the number.
    pub(crate) fn find(&self, id: u64) -> Option<usize>
        requires { self.now.head.count ≤ 64 }
        ensures { MatchOption result (request_at id self.now ≡ self.now.head.count)
            (λ at. (request_at id self.now ≡ at) × (at < self.now.head.count)) }
    {
        place_of(&self.requests[..usize::from(self.head.count)], id)
    }

    // The session with a reason to end.
    pub(crate) fn with_reason(mut self, reason: IsoHaltReason) -> Self
        ensures { result ≡ with_reason reason self }
    {
        self.fatal = Some(reason);
        self
    }

    // The session with the result at `at` cancelled.
    fn amend(mut self, at: usize) -> Self
        requires { at < 64 }
        ensures { result ≡ with_cancelled at self }
    {
        self.requests[at] = with_outcome(self.requests[at], IsoOutcome::Cancelled);
        self
    }

    // A completed result becomes cancelled; a pending one asks for a halt, unless a reason stands.
    pub fn cancel(self, id: u64) -> IsoReply
        ensures { result ≡ cancelled self id }
    {
        if self.is_bad_record() {
            return refused(IsoRefusal::BadRecord, self);
        }
        match self.find(id) {
            None => refused(IsoRefusal::UnknownRequest, self),
            Some(at) if at < usize::from(self.head.done) => done(false, false, self.amend(at)),
            Some(_) if self.fatal.is_some() => done(false, false, self),
            Some(_) => done(false, true, self.with_reason(IsoHaltReason::Cancelled)),
        }
    }
}
