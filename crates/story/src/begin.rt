// Scenes 1 to 4: two submissions, their service, a late complete bit. The status word of a packet of 192 bytes is 0x800000C0, of the
// last one of a request 0x820000C0.
ghost use Rattle.std.specs.Prelude.{IfOk, ◌≤◌};

use crate::play::Acts;
use crate::row::{Row, rows};
use std::io;

pub(crate) fn all(rt: &impl Print, seen: &Acts) -> io::Result<usize>
    ensures { IfOk result (λ n. n ≤ 40) }
{
    Ok(
        programmed(rt, seen)?
            + placed(rt, seen)?
            + follows(rt, seen)?
            + polled(rt, seen)?
            + freed(rt, seen)?
            + handed_out(rt, seen)?
            + results(rt, seen)?
            + late(rt, seen)?,
    )
}

// Scene 1: both readings 8, two packets. Frame 10 is the first that can be reached.
fn programmed(rt: &impl Print, seen: &Acts) -> io::Result<usize>
    ensures { IfOk result (λ n. n ≤ 7) }
{
    rows(
        rt,
        1,
        &[
            Row::says("number", 1, seen[0].said.number),
            Row::says("starts the channel", 1, seen[0].said.starts),
            Row::says("HCCHAR", 5_540_032, seen[0].said.hcchar),
            Row::says("HCTSIZ", 16_383, seen[0].said.hctsiz),
            Row::says("interrupt mask", 903, seen[0].said.hcintmsk),
            Row::says("frame list entries", 64, seen[0].said.entries),
            Row::says("first of the frame list", 10, seen[0].said.frame),
        ],
    )
}

fn placed(rt: &impl Print, seen: &Acts) -> io::Result<usize>
    ensures { IfOk result (λ n. n ≤ 6) }
{
    rows(
        rt,
        1,
        &[
            Row::says("word 20", 2_147_483_840, seen[0].ring[20]),
            Row::says("word 21", 4096, seen[0].ring[21]),
            Row::says("word 22", 2_181_038_272, seen[0].ring[22]),
            Row::says("word 23", 4288, seen[0].ring[23]),
            Row::says("cursor", 12, seen[0].head.td_last),
            Row::says("start", 10, seen[0].head.start_full_frame),
        ],
    )
}

// Scene 2: request 1 is still the controller's, so the next one follows it, whatever the readings say.
fn follows(rt: &impl Print, seen: &Acts) -> io::Result<usize>
    ensures { IfOk result (λ n. n ≤ 4) }
{
    rows(
        rt,
        2,
        &[
            Row::says("number", 2, seen[1].said.number),
            Row::says("starts the channel", 0, seen[1].said.starts),
            Row::says("word 24", 2_181_038_272, seen[1].ring[24]),
            Row::says("cursor", 13, seen[1].head.td_last),
        ],
    )
}

// Scene 3: of the first packet 100 bytes were moved; the second failed with all of its 192 bytes left.
fn polled(rt: &impl Print, seen: &Acts) -> io::Result<usize>
    ensures { IfOk result (λ n. n ≤ 3) }
{
    rows(
        rt,
        3,
        &[
            Row::says("poll takes the event", 1, seen[4].said.taken),
            Row::says("poll asks for a halt", 0, seen[4].said.halt),
            Row::says("completed", 1, seen[4].head.done),
        ],
    )
}

fn freed(rt: &impl Print, seen: &Acts) -> io::Result<usize>
    ensures { IfOk result (λ n. n ≤ 5) }
{
    rows(
        rt,
        3,
        &[
            Row::says("word 20", 0, seen[4].ring[20]),
            Row::says("word 21", 0, seen[4].ring[21]),
            Row::says("word 22", 0, seen[4].ring[22]),
            Row::says("word 23", 0, seen[4].ring[23]),
            Row::says("word 24", 2_181_038_272, seen[4].ring[24]),
        ],
    )
}

fn handed_out(rt: &impl Print, seen: &Acts) -> io::Result<usize>
    ensures { IfOk result (λ n. n ≤ 4) }
{
    rows(
        rt,
        3,
        &[
            Row::open("reclaim 2, not yet is 5", 5, seen[5].said.outcome),
            Row::open("reclaim 1, done is 0", 0, seen[6].said.outcome),
            Row::says("reclaim 1, total", 100, seen[6].said.total),
            Row::says("reclaim 1, packets", 2, seen[6].said.packets),
        ],
    )
}

fn results(rt: &impl Print, seen: &Acts) -> io::Result<usize>
    ensures { IfOk result (λ n. n ≤ 4) }
{
    rows(
        rt,
        3,
        &[
            Row::open("reclaim 1, result 0", 786_532, seen[6].said.results[0]),
            Row::open("reclaim 1, result 1", 17_563_648, seen[6].said.results[1]),
            Row::says("reclaim 1, result 2", 7, seen[6].said.results[2]),
            Row::says("reclaim 1 again", 15, seen[7].said.refusal),
        ],
    )
}

// Scene 4: the complete bit settles request 2 although its descriptor is active, with 192 bytes left.
fn late(rt: &impl Print, seen: &Acts) -> io::Result<usize>
    ensures { IfOk result (λ n. n ≤ 7) }
{
    rows(
        rt,
        4,
        &[
            Row::open("reclaim 2, done is 0", 0, seen[9].said.outcome),
            Row::says("reclaim 2, total", 0, seen[9].said.total),
            Row::open("reclaim 2, result 0", 786_432, seen[9].said.results[0]),
            Row::says("word 24", 0, seen[9].ring[24]),
            Row::says("word 25", 0, seen[9].ring[25]),
            Row::says("requests", 0, seen[9].head.count),
            Row::says("live channel", 1, seen[9].head.live),
        ],
    )
}
