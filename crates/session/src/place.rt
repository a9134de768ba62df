// Where the packets of a submission go: document 01, "Submit".
ghost use Rattle.std.specs.Prelude.{◌≡◌, ◌≤◌, ◌<◌};
ghost use Rattle.ring.specs.RingSums.{slot_at};
ghost use Rattle.session.specs.Session.{slots};
ghost use Rattle.session.specs.Place.{step_of, start_at, cursor_at, target_at, insert_at};

use crate::transfer::IsoTransfer;
use crate::types::{IsoConfig, IsoHead};
use ring::{advance_along_grid, frame_to_desc_idx, iso_ring_size, iso_starting_frame};
use words::is_active_at;

pub(crate) fn slots_of(cfg: IsoConfig) -> u16
    ensures { (result ≡ slots cfg) × (0 < result) × (result ≤ 256) }
{
    iso_ring_size(cfg.speed)
}

pub(crate) fn step_of(cfg: IsoConfig) -> u16
    ensures { result ≡ step_of cfg }
{
    cfg.interval.max(1)
}

// The frame in which the channel starts: as it did, or by the first reading.
pub(crate) fn start_of(cfg: IsoConfig, head: IsoHead, transfer: IsoTransfer) -> u32
    ensures { result ≡ start_at cfg head transfer }
{
    if head.live {
        return head.start_full_frame;
    }
    iso_starting_frame(transfer.start_reading, cfg.speed)
}

fn cursor_of(cfg: IsoConfig, head: IsoHead, transfer: IsoTransfer) -> u16
    ensures { result ≡ cursor_at cfg head transfer }
{
    if head.live {
        return head.td_last;
    }
    frame_to_desc_idx(cfg.speed, start_of(cfg, head, transfer))
}

fn target_of(cfg: IsoConfig, transfer: IsoTransfer) -> u16
    ensures { result ≡ target_at cfg transfer }
{
    frame_to_desc_idx(
        cfg.speed,
        iso_starting_frame(transfer.frame_reading, cfg.speed),
    )
}

// While the newest packet in flight is still the controller's, the next one follows it without a gap; else the first slot ahead of
// the controller that the channel visits. `tail` is that packet's slot.
pub fn insert_of(
    cfg: IsoConfig,
    head: IsoHead,
    transfer: IsoTransfer,
    tail: u16,
    ring: &[u32],
) -> u16
    ensures { result ≡ insert_at cfg head transfer tail ring.now }
{
    let active = is_active_at(ring, tail);
    if (head.done < head.count) & active {
        return head.td_last;
    }
    advance_along_grid(
        cursor_of(cfg, head, transfer),
        target_of(cfg, transfer),
        cfg.interval,
        slots_of(cfg),
    )
}

// The slot after the last of `n` packets.
pub(crate) fn slot_after(slots: u16, insert: u16, step: u16, n: usize) -> u16
    requires { (0 < slots) × (n ≤ 255) }
    ensures { result ≡ slot_at slots insert step n }
{
    ((insert as u32 + n as u32 * step as u32) % slots as u32) as u16
}
