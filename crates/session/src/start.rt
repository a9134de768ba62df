// What the caller programs a channel with that starts: document 01, "Submit".
ghost use Rattle.std.specs.Prelude.{◌≡◌, cond, Some, None, max};
ghost use Rattle.session.specs.Scan.{only};
ghost use Rattle.session.specs.Submit.{start_words};

use crate::place::{slots_of, start_of};
use crate::transfer::{IsoChannelStart, IsoTransfer};
use crate::types::{IsoConfig, IsoHead};
use ring::{iso_pid, iso_schinfo, iso_service_frames};
use words::Dwc2EpType;

// What the caller programs a channel with that starts now. A camera's packet holds at least one byte.
fn start_words(cfg: IsoConfig, head: IsoHead, transfer: IsoTransfer) -> IsoChannelStart
    ensures { result ≡ start_words (only cfg head) transfer }
{
    let start = start_of(cfg, head, transfer);
    let pid = iso_pid(cfg.speed, cfg.direction, cfg.mult);
    let schinfo = iso_schinfo(cfg.speed, cfg.interval);
    IsoChannelStart {
        hcchar: words::hcchar(
            cfg.device,
            cfg.endpoint,
            cfg.direction,
            Dwc2EpType::Isochronous,
            cfg.max_packet_size.max(1),
            false,
            cfg.mult,
            false,
        ),
        hctsiz: words::hctsiz_ddma(pid, slots_of(cfg) as u32, schinfo),
        hcintmsk: words::iso_hcintmsk(cfg.direction),
        frames: iso_service_frames(start, cfg.interval, cfg.speed),
    }
}

// The words of a channel that starts, where this submission is the first.
pub(crate) fn start_if(
    first: bool,
    cfg: IsoConfig,
    head: IsoHead,
    transfer: IsoTransfer,
) -> Option<IsoChannelStart>
    ensures { result ≡ cond first (Some (start_words (only cfg head) transfer)) None }
{
    first.then(|| start_words(cfg, head, transfer))
}
