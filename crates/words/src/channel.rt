// The two words that program a channel, HCCHAR and HCTSIZ: document 01, "Words".
ghost use Rattle.std.specs.Prelude.{◌≡◌, ◌-◌};
ghost use Rattle.words.specs.Words.{hcchar_word, hctsiz_word, mult_of};

use crate::types::{Direction, Dwc2EpType, Dwc2Pid};

// HCCHAR without the bits that enable the channel.
pub fn hcchar(
    device: u8,
    endpoint: u8,
    direction: Direction,
    ep_type: Dwc2EpType,
    mps: u16,
    low_speed: bool,
    mult: u8,
    odd_frame: bool,
) -> u32
    ensures { result ≡ hcchar_word device endpoint direction ep_type mps low_speed mult odd_frame }
{
    u32::from(mps % 2_048)
        + u32::from(endpoint % 16) * 0x800
        + u32::from(direction) * 0x8000
        + u32::from(low_speed) * 0x2_0000
        + u32::from(ep_type) * 0x4_0000
        + u32::from(mult_of(ep_type, mult) % 4) * 0x10_0000
        + u32::from(device % 128) * 0x40_0000
        + u32::from(odd_frame) * 0x2000_0000
}

// Only an isochronous endpoint moves more than one packet a microframe.
fn mult_of(ep_type: Dwc2EpType, mult: u8) -> u8
    ensures { result ≡ mult_of ep_type mult }
{
    if ep_type == Dwc2EpType::Isochronous {
        mult.max(1)
    } else {
        1
    }
}

// HCTSIZ for a channel that walks descriptors by itself. No descriptors count as one.
pub fn hctsiz_ddma(pid: Dwc2Pid, descs: u32, schinfo: u32) -> u32
    ensures { result ≡ hctsiz_word pid descs schinfo }
{
    schinfo % 256 + descs.saturating_sub(1) % 256 * 0x100 + u32::from(pid) * 0x2000_0000
}
