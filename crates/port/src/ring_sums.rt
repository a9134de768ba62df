// The ring sums by numbers, for C. Each answers as crate `ring` does for what the numbers name, and 18 where one names nothing.
ghost use Rattle.std.specs.Prelude.{◌≡◌, ◌||◌};
ghost use Rattle.words.specs.Numbers.{pid_number};
ghost use Rattle.ring.specs.Gcd.{gcd};
ghost use Rattle.ring.specs.RingSums.{ring_size, packet_limit, capacity, starting_frame, frame_slot, grid_slot, schinfo, pid_of, next_number, service_frames, frame_table};
ghost use Rattle.port.specs.Tags.{speed_of, direction_of};
ghost use Rattle.port.specs.Sums.{is_bad_speed, is_bad_direction, number_unless, number_from, frames_unless, frames_from};

use crate::tags::{named_direction, named_speed};
use ring::IsoServiceFrames;

// As C has it: `refusal` is 0 or the refusal number; refused, `value` is 0.
#[repr(C)]
#[derive(Clone, Copy)]
pub struct PortNumber {
    pub refusal: u32,
    pub value: u32,
}

// As C has it: the first `count` entries of the frame list, in the order of service; the others are 0.
#[repr(C)]
#[derive(Clone, Copy)]
pub struct PortFrames {
    pub refusal: u32,
    pub count: u32,
    pub frames: [u8; 64],
}

// A number that names nothing is refused.
impl From<Option<u32>> for PortNumber {
    ghost from_gives = { λ value number. number ≡ number_from value };

    fn from(value: Option<u32>) -> PortNumber {
        match value {
            Some(value) => PortNumber { refusal: 0, value },
            None => PortNumber {
                refusal: 18,
                value: 0,
            },
        }
    }
}

pub fn dwc2_iso_ring_size(speed: u8) -> PortNumber
    ensures { result ≡ number_unless (is_bad_speed speed) (ring_size (speed_of speed)) }
{
    named_speed(speed)
        .map(|speed| u32::from(ring::iso_ring_size(speed)))
        .into()
}

pub fn dwc2_iso_max_xfer_size(speed: u8) -> PortNumber
    ensures { result ≡ number_unless (is_bad_speed speed) (packet_limit (speed_of speed)) }
{
    named_speed(speed)
        .map(|speed| u32::from(ring::iso_max_xfer_size(speed)))
        .into()
}

pub fn dwc2_gcd(a: u16, b: u16) -> u16
    ensures { result ≡ gcd a b }
{
    ring::gcd(a, b)
}

pub fn dwc2_iso_max_packets(interval: u16, speed: u8) -> PortNumber
    ensures { result ≡ number_unless (is_bad_speed speed) (capacity interval (ring_size (speed_of speed))) }
{
    named_speed(speed)
        .map(|speed| u32::from(ring::iso_max_packets(interval, speed)))
        .into()
}

pub fn dwc2_iso_starting_frame(raw_frame: u32, speed: u8) -> PortNumber
    ensures { result ≡ number_unless (is_bad_speed speed) (starting_frame (speed_of speed) raw_frame) }
{
    named_speed(speed)
        .map(|speed| ring::iso_starting_frame(raw_frame, speed))
        .into()
}

pub fn dwc2_frame_to_desc_idx(speed: u8, full_frame: u32) -> PortNumber
    ensures { result ≡ number_unless (is_bad_speed speed) (frame_slot (speed_of speed) full_frame) }
{
    named_speed(speed)
        .map(|speed| u32::from(ring::frame_to_desc_idx(speed, full_frame)))
        .into()
}

pub fn dwc2_advance_along_grid(td_last: u16, target: u16, interval: u16, ring: u16) -> u16
    ensures { result ≡ grid_slot td_last target interval ring }
{
    ring::advance_along_grid(td_last, target, interval, ring)
}

pub fn dwc2_iso_schinfo(speed: u8, interval: u16) -> PortNumber
    ensures { result ≡ number_unless (is_bad_speed speed) (schinfo (speed_of speed) interval) }
{
    named_speed(speed)
        .map(|speed| ring::iso_schinfo(speed, interval))
        .into()
}

pub fn dwc2_iso_pid(speed: u8, direction: u8, mult: u8) -> PortNumber
    ensures { result ≡ number_unless (is_bad_speed speed || is_bad_direction direction) (pid_number (pid_of (speed_of speed) (direction_of direction) mult)) }
{
    named_speed(speed)
        .zip(named_direction(direction))
        .map(|(speed, direction)| u32::from(ring::iso_pid(speed, direction, mult)))
        .into()
}

pub fn dwc2_next_request_id(id: u64) -> u64
    ensures { result ≡ next_number id }
{
    ring::next_request_id(id)
}

impl From<Option<IsoServiceFrames>> for PortFrames {
    ghost from_gives = { λ list frames. frames ≡ frames_from list };

    fn from(list: Option<IsoServiceFrames>) -> PortFrames {
        match list {
            Some(list) => {
                let frames = list.frames;
                PortFrames {
                    refusal: 0,
                    count: u32::from(list.count),
                    frames,
                }
            }
            None => PortFrames {
                refusal: 18,
                count: 0,
                frames: [0; 64],
            },
        }
    }
}

pub fn dwc2_iso_service_frames(start_full_frame: u32, interval: u16, speed: u8) -> PortFrames
    ensures { result ≡ frames_unless (is_bad_speed speed) (frame_table (service_frames start_full_frame interval (speed_of speed))) }
{
    named_speed(speed)
        .map(|speed| ring::iso_service_frames(start_full_frame, interval, speed))
        .into()
}
