// Reset on a session's bytes where they stand: document 01, "Reset". Only the cursor is written.
ghost use Rattle.std.specs.Prelude.{◌≡◌};
ghost use Rattle.session.specs.Poll.{reset_reply};
ghost use Rattle.session.specs.Record.{is_bad_record};
ghost use Rattle.port.specs.Layout.{layout_number, session_of};
ghost use Rattle.port.specs.Calls.{reply_port};
ghost use Rattle.port.specs.Places.{Left};

use crate::answers::{PortReply, reply_port, reply_refused};
use crate::load::{head_at, reason_at};
use crate::numbers::put_u16;
use session::IsoRefusal;

pub(crate) fn reset_at(bytes: &mut [u8], bad: bool) -> PortReply
    requires { (layout_number bytes.old ≡ 0) × (bad ≡ is_bad_record (session_of bytes.old)) }
    ensures { (result ≡ reply_port (reset_reply (session_of bytes.old)))
        × (Left bytes.old bytes.new (reset_reply (session_of bytes.old)).session) }
{
    if bad {
        return reply_refused(IsoRefusal::BadRecord);
    }
    let head = head_at(bytes);
    if (head.count != 0) | reason_at(bytes).is_some() {
        return reply_refused(IsoRefusal::NotEmpty);
    }
    put_u16(bytes, 28, 0);
    reply_port(Ok(()), false, false)
}
