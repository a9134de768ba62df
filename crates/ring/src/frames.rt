// Frames, the slots that stand for them, and what the periodic schedule is told of them: document 01, "Ring sums".
ghost use Rattle.std.specs.Prelude.{◌≡◌, ◌<◌};
ghost use Rattle.ring.specs.RingSums.{microframes_ahead, starting_frame, frame_slot, schinfo, microframe_bits, frame_step, walk, service_frames, frame_table};

use crate::speed::{Speed, at_speed};

// The frame list has 64 entries. The first `count` bytes are the entries of one channel, in the order of service: a fixed table
// beside its count, since there is no heap.
#[derive(Clone, Copy)]
pub struct IsoServiceFrames {
    pub count: u16,
    pub frames: [u8; 64],
}

// The whole frame in which a channel may start: a reading late in its frame skips one frame more, so that the descriptors are
// written before the controller fetches them.
pub fn iso_starting_frame(raw_frame: u32, speed: Speed) -> u32
    ensures { result ≡ starting_frame speed raw_frame }
{
    let high = raw_frame.wrapping_add(microframes_ahead(raw_frame)) / 8;
    let full = raw_frame.wrapping_add(2) % 0x1_0000;
    at_speed(speed, high, full)
}

fn microframes_ahead(raw_frame: u32) -> u32
    ensures { result ≡ microframes_ahead raw_frame }
{
    if raw_frame % 8 >= 5 { 16 } else { 8 }
}

// The slot of a whole frame: its first microframe at high speed.
pub fn frame_to_desc_idx(speed: Speed, full_frame: u32) -> u16
    ensures { result ≡ frame_slot speed full_frame }
{
    at_speed(speed, full_frame % 32 * 8, full_frame % 64) as u16
}

// The microframes of a frame in which the channel is served, a bit each. From an interval of 8 on it is the first alone.
pub fn iso_schinfo(speed: Speed, interval: u16) -> u32
    ensures { result ≡ schinfo speed interval }
{
    at_speed(speed, microframes(interval), 0xff)
}

// The bits 0, i, 2i, .. below 8 at high speed. An interval of 0 counts as 1, and has an arm of its own: with one number to each arm the
// compiler makes one table of the eight.
#[tactic(auto, using(crate::proofs::Microframes::first_alone))]
fn microframes(interval: u16) -> u32
    ensures { result ≡ microframe_bits interval }
{
    match interval {
        0 => 0b1111_1111,
        1 => 0b1111_1111,
        2 => 0b0101_0101,
        3 => 0b0100_1001,
        4 => 0b0001_0001,
        5 => 0b0010_0001,
        6 => 0b0100_0001,
        7 => 0b1000_0001,
        8.. => 0b0000_0001,
    }
}

// How many frames lie between two services.
fn frame_step(speed: Speed, interval: u16) -> u16
    ensures { result ≡ frame_step speed interval }
{
    let i = interval.max(1);
    at_speed(speed, i.div_ceil(8), i)
}

// The entries of the frame list that name the channel, from its start on until the first comes again.
#[tactic(auto, unfolding(crate::specs::RingSums::service_frames))]
pub fn iso_service_frames(
    start_full_frame: u32,
    interval_slots: u16,
    speed: Speed,
) -> IsoServiceFrames
    ensures { result ≡ frame_table (service_frames start_full_frame interval_slots speed) }
{
    walk_frames(start_full_frame % 64, frame_step(speed, interval_slots))
}

// One pass over the 64 places: the walk comes round by then.
fn walk_frames(first: u32, step: u16) -> IsoServiceFrames
    requires { first < 64 }
    ensures { result ≡ frame_table (walk 64 step first 64 first) }
{
    let mut frames = [0; 64];
    let mut frame = first;
    for i in 0..64u16 {
        frames[usize::from(i)] = frame as u8;
        frame = (frame + u32::from(step)) % 64;
        if frame == first {
            return IsoServiceFrames {
                count: i + 1,
                frames,
            };
        }
    }
    IsoServiceFrames { count: 64, frames }
}
