// What a call may do with a session's bytes: refuse them by number, refuse their record with 18, or work on them. Good bytes are walked
// once for both answers; a short ring's 17 stands between them, so that bytes found bad are looked at again for the first.
ghost use Rattle.std.specs.Prelude.{◌≡◌};
ghost use Rattle.port.specs.Scan.{verdict_of};

use crate::load::layout_refusal;
use crate::scan::{RequestSums, sums_at};
use session::IsoRefusal;

// Refused, or what the record tells: nothing where it is bad. It is put into each call, so that an empty session is told before a walk is called.
#[inline(always)]
pub(crate) fn verdict_at(bytes: &[u8]) -> Result<Option<RequestSums>, IsoRefusal>
    ensures { result ≡ verdict_of bytes.now }
{
    if bytes.len() < 8_488 {
        return Err(IsoRefusal::ShortBuffer);
    }
    if let Some(sums) = sums_at(bytes) {
        return Ok(Some(sums));
    }
    layout_refusal(bytes)?;
    Ok(None)
}
