// Recovery: document 01, "Recovery". It takes the record from before a call that was cut, and acts as an unplugged port does.
ghost use Rattle.std.specs.Prelude.{◌≡◌, length};
ghost use Rattle.session.specs.Poll.{recovered, recovered_ring};

use crate::open::ring_words;
use crate::refusal::IsoRefusal;
use crate::reply::{IsoReply, done, refused};
use crate::types::{IsoChannelState, IsoOutcome};

impl IsoChannelState {
    // The ring is zeroed also where no channel was live: a first submission that was cut has stored words without one.
    pub fn recover(self, ring: &mut [u32]) -> IsoReply
        ensures { (result ≡ recovered self (length ring.old)) × (ring.new ≡ recovered_ring self ring.old) }
    {
        if ring.len() < ring_words(self.cfg) {
            return refused(IsoRefusal::ShortBuffer, self);
        }
        if self.is_bad_record() {
            return refused(IsoRefusal::BadRecord, self);
        }
        done(false, false, self.end(IsoOutcome::Disconnected, ring))
    }
}
