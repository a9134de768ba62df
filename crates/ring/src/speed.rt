// What the speed of the port decides by itself: document 01, "Ring sums".
ghost use Rattle.std.specs.Prelude.{◌≡◌};
ghost use Rattle.ring.specs.RingSums.{at_speed, ring_size, packet_limit};

#[derive(Clone, Copy, Debug, PartialEq, Eq)]
pub enum Speed {
    High,
    Full,
    Low,
}

const DWC2_ISO_RING_HS: u16 = 256;

const DWC2_ISO_RING_FS: u16 = 64;

const DWC2_ISO_MAX_XFER_HS: u16 = 3072;

const DWC2_ISO_MAX_XFER_FS: u16 = 1023;

// The first at high speed, else the second: low speed counts as full.
pub(crate) fn at_speed<T: Copy>(speed: Speed, high: T, full: T) -> T
    ensures { result ≡ at_speed speed high full }
{
    if speed == Speed::High { high } else { full }
}

// The slots of a ring: 32 frames of 8 microframes, or 64 frames.
pub fn iso_ring_size(speed: Speed) -> u16
    ensures { result ≡ ring_size speed }
{
    at_speed(speed, DWC2_ISO_RING_HS, DWC2_ISO_RING_FS)
}

// The most bytes that one packet may hold: three of 1,024 in a microframe, or one of 1,023 in a frame.
pub fn iso_max_xfer_size(speed: Speed) -> u16
    ensures { result ≡ packet_limit speed }
{
    at_speed(speed, DWC2_ISO_MAX_XFER_HS, DWC2_ISO_MAX_XFER_FS)
}
