// Opening and submitting by bytes.
ghost use Rattle.std.specs.Prelude.{◌≡◌, cond, Some, None, length};
ghost use Rattle.port.specs.Calls.{open_by, open_bytes, open_ring, is_bad_names, config_by, submit_by, submit_bytes, submit_ring};

use crate::answers::{PortSubmitted, PortTransfer, refusal_number, submit_refused, transfer_of};
use crate::save::put_idle;
use crate::submit::submit_at;
use crate::tags::{named_direction, named_mode, named_speed};
use crate::verdict::verdict_at;
use session::{IsoConfig, IsoRefusal, clear_first, is_bad_config, ring_words};

// The configuration that numbers name. There are eight, as C gives them one by one.
fn config_named(
    speed: u8,
    direction: u8,
    mode: u8,
    interval: u16,
    max_packet_size: u16,
    endpoint: u8,
    device: u8,
    mult: u8,
) -> Option<IsoConfig>
    ensures { result
        ≡ cond (is_bad_names speed direction mode) None
        (Some (config_by speed direction mode interval max_packet_size endpoint device mult)) }
{
    Some(IsoConfig {
        speed: named_speed(speed)?,
        direction: named_direction(direction)?,
        interval,
        endpoint,
        device,
        max_packet_size,
        mult,
        mode: named_mode(mode)?,
    })
}

// Refused or not, the session becomes an idle one of what was offered; it is written where it stands and made nowhere else.
pub fn dwc2_iso_open(
    session: &mut [u8],
    ring: &mut [u32],
    speed: u8,
    direction: u8,
    mode: u8,
    interval: u16,
    max_packet_size: u16,
    endpoint: u8,
    device: u8,
    mult: u8,
) -> u32
    ensures { (result
        ≡ open_by session.old (is_bad_names speed direction mode)
        (config_by speed direction mode interval max_packet_size endpoint device mult) (length ring.old))
        × (session.new
        ≡ open_bytes session.old (is_bad_names speed direction mode)
        (config_by speed direction mode interval max_packet_size endpoint device mult) (length ring.old))
        × (ring.new
        ≡ open_ring session.old (is_bad_names speed direction mode)
        (config_by speed direction mode interval max_packet_size endpoint device mult) ring.old) }
{
    if session.len() < 8_488 {
        return refusal_number(IsoRefusal::ShortBuffer);
    }
    let Some(cfg) = config_named(
        speed,
        direction,
        mode,
        interval,
        max_packet_size,
        endpoint,
        device,
        mult,
    ) else {
        return refusal_number(IsoRefusal::BadRecord);
    };
    put_idle(session, cfg);
    let words = ring_words(cfg);
    if ring.len() < words {
        return refusal_number(IsoRefusal::ShortBuffer);
    }
    if is_bad_config(cfg) {
        return refusal_number(IsoRefusal::BadRecord);
    }
    clear_first(ring, words);
    0
}

pub fn dwc2_iso_submit(
    session: &mut [u8],
    ring: &mut [u32],
    lengths: &[u32],
    transfer: PortTransfer,
) -> PortSubmitted
    ensures { (result ≡ submit_by session.old transfer lengths.now ring.old)
        × (session.new ≡ submit_bytes session.old transfer lengths.now ring.old)
        × (ring.new ≡ submit_ring session.old transfer lengths.now ring.old) }
{
    match verdict_at(session) {
        Err(refusal) => submit_refused(refusal),
        Ok(sums) => {
            let unnamed = transfer.kind > 3;
            if unnamed {
                return submit_refused(IsoRefusal::BadRecord);
            }
            submit_at(session, sums, transfer_of(transfer), lengths, ring)
        }
    }
}
