// The ring sums, for C.
ghost use Rattle.std.specs.Prelude.{◌≡◌, ◌||◌};
ghost use Rattle.words.specs.Numbers.{pid_number};
ghost use Rattle.ring.specs.Gcd.{gcd};
ghost use Rattle.ring.specs.RingSums.{ring_size, packet_limit, capacity, starting_frame, frame_slot, grid_slot, schinfo, pid_of, next_number, service_frames, frame_table};
ghost use Rattle.port.specs.Tags.{speed_of, direction_of};
ghost use Rattle.port.specs.Sums.{is_bad_speed, is_bad_direction, number_unless, frames_unless};

use port::{PortFrames, PortNumber};

#[unsafe(no_mangle)]
pub extern "C" fn dwc2_iso_ring_size(speed: u8) -> PortNumber
    ensures { result ≡ number_unless (is_bad_speed speed) (ring_size (speed_of speed)) }
{
    port::dwc2_iso_ring_size(speed)
}

#[unsafe(no_mangle)]
pub extern "C" fn dwc2_iso_max_xfer_size(speed: u8) -> PortNumber
    ensures { result ≡ number_unless (is_bad_speed speed) (packet_limit (speed_of speed)) }
{
    port::dwc2_iso_max_xfer_size(speed)
}

#[unsafe(no_mangle)]
pub extern "C" fn dwc2_gcd(a: u16, b: u16) -> u16
    ensures { result ≡ gcd a b }
{
    port::dwc2_gcd(a, b)
}

#[unsafe(no_mangle)]
pub extern "C" fn dwc2_iso_max_packets(interval: u16, speed: u8) -> PortNumber
    ensures { result ≡ number_unless (is_bad_speed speed) (capacity interval (ring_size (speed_of speed))) }
{
    port::dwc2_iso_max_packets(interval, speed)
}

#[unsafe(no_mangle)]
pub extern "C" fn dwc2_iso_starting_frame(raw_frame: u32, speed: u8) -> PortNumber
    ensures { result ≡ number_unless (is_bad_speed speed) (starting_frame (speed_of speed) raw_frame) }
{
    port::dwc2_iso_starting_frame(raw_frame, speed)
}

#[unsafe(no_mangle)]
pub extern "C" fn dwc2_frame_to_desc_idx(speed: u8, full_frame: u32) -> PortNumber
    ensures { result ≡ number_unless (is_bad_speed speed) (frame_slot (speed_of speed) full_frame) }
{
    port::dwc2_frame_to_desc_idx(speed, full_frame)
}

#[unsafe(no_mangle)]
pub extern "C" fn dwc2_advance_along_grid(
    td_last: u16,
    target: u16,
    interval: u16,
    ring: u16,
) -> u16
    ensures { result ≡ grid_slot td_last target interval ring }
{
    port::dwc2_advance_along_grid(td_last, target, interval, ring)
}

#[unsafe(no_mangle)]
pub extern "C" fn dwc2_iso_schinfo(speed: u8, interval: u16) -> PortNumber
    ensures { result ≡ number_unless (is_bad_speed speed) (schinfo (speed_of speed) interval) }
{
    port::dwc2_iso_schinfo(speed, interval)
}

#[unsafe(no_mangle)]
pub extern "C" fn dwc2_iso_pid(speed: u8, direction: u8, mult: u8) -> PortNumber
    ensures { result ≡ number_unless (is_bad_speed speed || is_bad_direction direction) (pid_number (pid_of (speed_of speed) (direction_of direction) mult)) }
{
    port::dwc2_iso_pid(speed, direction, mult)
}

#[unsafe(no_mangle)]
pub extern "C" fn dwc2_next_request_id(id: u64) -> u64
    ensures { result ≡ next_number id }
{
    port::dwc2_next_request_id(id)
}

#[unsafe(no_mangle)]
pub extern "C" fn dwc2_iso_service_frames(
    start_full_frame: u32,
    interval: u16,
    speed: u8,
) -> PortFrames
    ensures { result ≡ frames_unless (is_bad_speed speed) (frame_table (service_frames start_full_frame interval (speed_of speed))) }
{
    port::dwc2_iso_service_frames(start_full_frame, interval, speed)
}
