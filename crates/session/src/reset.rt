// Reset: document 01, "Reset". While a request is there the cursor stays, since the next packet may have to follow it.
ghost use Rattle.std.specs.Prelude.{◌≡◌};
ghost use Rattle.session.specs.Poll.{reset_reply};

use crate::refusal::IsoRefusal;
use crate::reply::{IsoReply, done, refused};
use crate::types::IsoChannelState;

impl IsoChannelState {
    // The cursor at 0, where no request and no reason stands.
    pub fn reset(mut self) -> IsoReply
        ensures { result ≡ reset_reply self }
    {
        if self.is_bad_record() {
            return refused(IsoRefusal::BadRecord, self);
        }
        if self.head.count != 0 || self.fatal.is_some() {
            return refused(IsoRefusal::NotEmpty, self);
        }
        self.head.td_last = 0;
        done(false, false, self)
    }
}
