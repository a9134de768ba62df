// The session's calls by bytes, on the session where it stands. Bytes that are no session are refused, and nothing is altered.
ghost use Rattle.std.specs.Prelude.{◌≡◌, length};
ghost use Rattle.session.specs.Poll.{polled, polled_ring, recovered, recovered_ring, reset_reply};
ghost use Rattle.session.specs.Cancel.{cancelled};
ghost use Rattle.session.specs.Reclaim.{reclaimed, reclaimed_ring, reclaimed_results};
ghost use Rattle.session.specs.declared.types.IsoChannelState.{IsoChannelState};
ghost use Rattle.port.specs.Calls.{reply_by, bytes_by, words_by, check_by, event_of, reclaim_by};

use crate::answers::{PortReclaimed, PortReply, reclaim_refused, refusal_number, reply_refused};
use crate::cancel::cancel_at;
use crate::poll::{poll_on, recover_at};
use crate::reclaim::reclaim_at;
use crate::reset::reset_at;
use crate::verdict::verdict_at;
use session::{IsoEvent, IsoRefusal};

pub fn dwc2_iso_check(session: &[u8]) -> u32
    ensures { result ≡ check_by session.now }
{
    match verdict_at(session) {
        Err(refusal) => refusal_number(refusal),
        Ok(None) => refusal_number(IsoRefusal::BadRecord),
        Ok(Some(_)) => 0,
    }
}

pub fn dwc2_iso_reset(session: &mut [u8]) -> PortReply
    ensures { (result ≡ reply_by session.old reset_reply)
        × (session.new ≡ bytes_by session.old (λ (s : IsoChannelState). (reset_reply s).session)) }
{
    match verdict_at(session) {
        Err(refusal) => reply_refused(refusal),
        Ok(sums) => reset_at(session, sums.is_none()),
    }
}

pub fn dwc2_iso_cancel(session: &mut [u8], id: u64) -> PortReply
    ensures { (result ≡ reply_by session.old (λ (s : IsoChannelState). cancelled s id))
        × (session.new ≡ bytes_by session.old (λ (s : IsoChannelState). (cancelled s id).session)) }
{
    match verdict_at(session) {
        Err(refusal) => reply_refused(refusal),
        Ok(sums) => cancel_at(session, sums.is_none(), id),
    }
}

pub fn dwc2_iso_recover(session: &mut [u8], ring: &mut [u32]) -> PortReply
    ensures { (result ≡ reply_by session.old (λ (s : IsoChannelState). recovered s (length ring.old)))
        × (session.new
        ≡ bytes_by session.old (λ (s : IsoChannelState). (recovered s (length ring.old)).session))
        × (ring.new
        ≡ words_by session.old ring.old (λ (s : IsoChannelState). recovered_ring s ring.old)) }
{
    match verdict_at(session) {
        Err(refusal) => reply_refused(refusal),
        Ok(sums) => recover_at(session, sums.is_none(), ring),
    }
}

fn event_of(reported: u32, unplugged: u32, hcint: u32) -> Option<IsoEvent>
    ensures { result ≡ event_of reported unplugged hcint }
{
    (reported != 0).then_some(IsoEvent {
        unplugged: unplugged != 0,
        hcint,
    })
}

pub fn dwc2_iso_poll(
    session: &mut [u8],
    ring: &mut [u32],
    reported: u32,
    unplugged: u32,
    hcint: u32,
) -> PortReply
    ensures { (result ≡ reply_by session.old (λ (s : IsoChannelState). polled s (event_of reported unplugged hcint) ring.old))
        × (session.new
        ≡ bytes_by session.old (λ (s : IsoChannelState). (polled s (event_of reported unplugged hcint) ring.old).session))
        × (ring.new
        ≡ words_by session.old ring.old
        (λ (s : IsoChannelState). polled_ring s (event_of reported unplugged hcint) ring.old)) }
{
    match verdict_at(session) {
        Err(refusal) => reply_refused(refusal),
        Ok(sums) => {
            let bad = sums.is_none();
            poll_on(session, bad, event_of(reported, unplugged, hcint), ring)
        }
    }
}

pub fn dwc2_iso_reclaim(
    session: &mut [u8],
    ring: &mut [u32],
    results: &mut [u64],
    id: u64,
    reported: u32,
    unplugged: u32,
    hcint: u32,
) -> PortReclaimed
    ensures { (result
        ≡ reclaim_by session.old
        (λ (s : IsoChannelState). reclaimed s id (event_of reported unplugged hcint) ring.old (length results.old)))
        × (session.new
        ≡ bytes_by session.old
        (λ (s : IsoChannelState). (reclaimed s id (event_of reported unplugged hcint) ring.old (length results.old)).session))
        × (ring.new
        ≡ words_by session.old ring.old
        (λ (s : IsoChannelState). reclaimed_ring s id (event_of reported unplugged hcint) ring.old (length results.old)))
        × (results.new
        ≡ words_by session.old results.old
        (λ (s : IsoChannelState). reclaimed_results s id (event_of reported unplugged hcint) ring.old results.old)) }
{
    let event = event_of(reported, unplugged, hcint);
    match verdict_at(session) {
        Err(refusal) => reclaim_refused(refusal),
        Ok(sums) => reclaim_at(session, sums, id, event, ring, results),
    }
}
