// The ring sums of the list.
use crate::answers::{Line, Verdict};
use crate::digest::digest_of;
use ring::Speed;
use words::Direction;

#[derive(Clone, Copy)]
pub(crate) enum RingSum {
    Size,
    PacketLimit,
    Gcd,
    Capacity,
    StartingFrame,
    Slot,
    Grid,
    Schinfo,
    FrameList,
    Pid,
    NextNumber,
}

// Here and in plans.rt a kind comes from a number by a function: a From would be between types of other crates.
pub(crate) fn speed_of(n: u64) -> Speed {
    match n {
        0 => Speed::High,
        1 => Speed::Full,
        _ => Speed::Low,
    }
}

pub(crate) fn direction_of(n: u64) -> Direction {
    match n {
        0 => Direction::Out,
        _ => Direction::In,
    }
}

pub(crate) fn make(sum: RingSum, line: Line) -> Verdict {
    let answer = match sum {
        RingSum::Size => u64::from(ring::iso_ring_size(speed_of(line.number(1)))),
        RingSum::PacketLimit => u64::from(ring::iso_max_xfer_size(speed_of(line.number(1)))),
        RingSum::Gcd => u64::from(ring::gcd(line.half(1), line.half(2))),
        RingSum::Capacity => capacity(line),
        RingSum::StartingFrame => starting_frame(line),
        RingSum::Slot => slot(line),
        RingSum::Grid => grid(line),
        RingSum::Schinfo => schinfo(line),
        RingSum::FrameList => return frames(line),
        RingSum::Pid => pid(line),
        RingSum::NextNumber => ring::next_request_id(line.number(1)),
    };
    line.judge(&[answer])
}

fn capacity(line: Line) -> u64 {
    let speed = speed_of(line.number(2));
    u64::from(ring::iso_max_packets(line.half(1), speed))
}

fn starting_frame(line: Line) -> u64 {
    let speed = speed_of(line.number(2));
    u64::from(ring::iso_starting_frame(line.word(1), speed))
}

fn slot(line: Line) -> u64 {
    let speed = speed_of(line.number(1));
    u64::from(ring::frame_to_desc_idx(speed, line.word(2)))
}

fn schinfo(line: Line) -> u64 {
    let speed = speed_of(line.number(1));
    u64::from(ring::iso_schinfo(speed, line.half(2)))
}

fn grid(line: Line) -> u64 {
    u64::from(ring::advance_along_grid(line.half(1), line.half(2), line.half(3), line.half(4)))
}

// HCTSIZ's number of it.
fn pid(line: Line) -> u64 {
    let speed = speed_of(line.number(1));
    let direction = direction_of(line.number(2));
    u64::from(u32::from(ring::iso_pid(speed, direction, line.byte(3))))
}

fn frames(line: Line) -> Verdict {
    let speed = speed_of(line.number(3));
    let list = ring::iso_service_frames(line.word(1), line.half(2), speed);
    line.judge(&[u64::from(list.count), digest_of(&list.frames)])
}
