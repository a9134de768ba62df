// The camera session, for C.
ghost use Rattle.std.specs.Prelude.{◌≡◌, length};
ghost use Rattle.session.specs.Poll.{polled, polled_ring, recovered, recovered_ring, reset_reply};
ghost use Rattle.session.specs.Cancel.{cancelled};
ghost use Rattle.session.specs.Reclaim.{reclaimed, reclaimed_ring, reclaimed_results};
ghost use Rattle.session.specs.declared.types.IsoChannelState.{IsoChannelState};
ghost use Rattle.port.specs.Calls.{open_by, open_bytes, open_ring, is_bad_names, config_by, submit_by, submit_bytes, submit_ring};
ghost use Rattle.port.specs.Calls.{reply_by, bytes_by, words_by, check_by, event_of, reclaim_by};

use port::{PortReclaimed, PortReply, PortSubmitted, PortTransfer};

#[unsafe(no_mangle)]
pub extern "C" fn dwc2_iso_open(
    session: &mut [u8],
    ring: &mut [u32],
    speed: u8,
    direction: u8,
    mode: u8,
    interval: u16,
    max_packet_size: u16,
    endpoint: u8,
    device: u8,
    mult: u8,
) -> u32
    ensures { (result
        ≡ open_by session.old (is_bad_names speed direction mode)
        (config_by speed direction mode interval max_packet_size endpoint device mult) (length ring.old))
        × (session.new
        ≡ open_bytes session.old (is_bad_names speed direction mode)
        (config_by speed direction mode interval max_packet_size endpoint device mult) (length ring.old))
        × (ring.new
        ≡ open_ring session.old (is_bad_names speed direction mode)
        (config_by speed direction mode interval max_packet_size endpoint device mult) ring.old) }
{
    port::dwc2_iso_open(
        session,
        ring,
        speed,
        direction,
        mode,
        interval,
        max_packet_size,
        endpoint,
        device,
        mult,
    )
}

#[unsafe(no_mangle)]
pub extern "C" fn dwc2_iso_submit(
    session: &mut [u8],
    ring: &mut [u32],
    lengths: &[u32],
    transfer: PortTransfer,
) -> PortSubmitted
    ensures { (result ≡ submit_by session.old transfer lengths.now ring.old)
        × (session.new ≡ submit_bytes session.old transfer lengths.now ring.old)
        × (ring.new ≡ submit_ring session.old transfer lengths.now ring.old) }
{
    port::dwc2_iso_submit(session, ring, lengths, transfer)
}

#[unsafe(no_mangle)]
pub extern "C" fn dwc2_iso_check(session: &[u8]) -> u32
    ensures { result ≡ check_by session.now }
{
    port::dwc2_iso_check(session)
}

#[unsafe(no_mangle)]
pub extern "C" fn dwc2_iso_reset(session: &mut [u8]) -> PortReply
    ensures { (result ≡ reply_by session.old reset_reply)
        × (session.new ≡ bytes_by session.old (λ (s : IsoChannelState). (reset_reply s).session)) }
{
    port::dwc2_iso_reset(session)
}

#[unsafe(no_mangle)]
pub extern "C" fn dwc2_iso_cancel(session: &mut [u8], id: u64) -> PortReply
    ensures { (result ≡ reply_by session.old (λ (s : IsoChannelState). cancelled s id))
        × (session.new ≡ bytes_by session.old (λ (s : IsoChannelState). (cancelled s id).session)) }
{
    port::dwc2_iso_cancel(session, id)
}

#[unsafe(no_mangle)]
pub extern "C" fn dwc2_iso_recover(session: &mut [u8], ring: &mut [u32]) -> PortReply
    ensures { (result ≡ reply_by session.old (λ (s : IsoChannelState). recovered s (length ring.old)))
        × (session.new
        ≡ bytes_by session.old (λ (s : IsoChannelState). (recovered s (length ring.old)).session))
        × (ring.new
        ≡ words_by session.old ring.old (λ (s : IsoChannelState). recovered_ring s ring.old)) }
{
    port::dwc2_iso_recover(session, ring)
}

#[unsafe(no_mangle)]
pub extern "C" fn dwc2_iso_poll(
    session: &mut [u8],
    ring: &mut [u32],
    reported: u32,
    unplugged: u32,
    hcint: u32,
) -> PortReply
    ensures { (result ≡ reply_by session.old (λ (s : IsoChannelState). polled s (event_of reported unplugged hcint) ring.old))
        × (session.new
        ≡ bytes_by session.old (λ (s : IsoChannelState). (polled s (event_of reported unplugged hcint) ring.old).session))
        × (ring.new
        ≡ words_by session.old ring.old
        (λ (s : IsoChannelState). polled_ring s (event_of reported unplugged hcint) ring.old)) }
{
    port::dwc2_iso_poll(session, ring, reported, unplugged, hcint)
}

#[unsafe(no_mangle)]
pub extern "C" fn dwc2_iso_reclaim(
    session: &mut [u8],
    ring: &mut [u32],
    results: &mut [u64],
    id: u64,
    reported: u32,
    unplugged: u32,
    hcint: u32,
) -> PortReclaimed
    ensures { (result
        ≡ reclaim_by session.old
        (λ (s : IsoChannelState). reclaimed s id (event_of reported unplugged hcint) ring.old (length results.old)))
        × (session.new
        ≡ bytes_by session.old
        (λ (s : IsoChannelState). (reclaimed s id (event_of reported unplugged hcint) ring.old (length results.old)).session))
        × (ring.new
        ≡ words_by session.old ring.old
        (λ (s : IsoChannelState). reclaimed_ring s id (event_of reported unplugged hcint) ring.old (length results.old)))
        × (results.new
        ≡ words_by session.old results.old
        (λ (s : IsoChannelState). reclaimed_results s id (event_of reported unplugged hcint) ring.old results.old)) }
{
    port::dwc2_iso_reclaim(session, ring, results, id, reported, unplugged, hcint)
}
