// Scene 5: nothing is pending, so reading 20 decides: slot 22. Then babble, a transaction error and the halt.
ghost use Rattle.std.specs.Prelude.{IfOk, ◌≤◌};

use crate::play::Acts;
use crate::row::{Row, rows};
use std::io;

pub(crate) fn all(rt: &impl Print, seen: &Acts) -> io::Result<usize>
    ensures { IfOk result (λ n. n ≤ 22) }
{
    Ok(
        on_grid(rt, seen)?
            + asked(rt, seen)?
            + halted(rt, seen)?
            + reported(rt, seen)?
            + idle(rt, seen)?,
    )
}

fn on_grid(rt: &impl Print, seen: &Acts) -> io::Result<usize>
    ensures { IfOk result (λ n. n ≤ 3) }
{
    rows(
        rt,
        5,
        &[
            Row::says("number", 3, seen[10].said.number),
            Row::says("word 44", 2_181_038_272, seen[10].ring[44]),
            Row::says("cursor", 23, seen[10].head.td_last),
        ],
    )
}

// The later fault becomes the reason.
fn asked(rt: &impl Print, seen: &Acts) -> io::Result<usize>
    ensures { IfOk result (λ n. n ≤ 5) }
{
    rows(
        rt,
        5,
        &[
            Row::says("babble, taken", 1, seen[11].said.taken),
            Row::says("babble, asks for a halt", 1, seen[11].said.halt),
            Row::says("submission then", 1, seen[12].said.refusal),
            Row::says("transaction, taken", 1, seen[13].said.taken),
            Row::says("transaction, asks for a halt", 1, seen[13].said.halt),
        ],
    )
}

fn halted(rt: &impl Print, seen: &Acts) -> io::Result<usize>
    ensures { IfOk result (λ n. n ≤ 5) }
{
    rows(
        rt,
        5,
        &[
            Row::says("waits, taken", 1, seen[14].said.taken),
            Row::says("waits, asks for a halt", 0, seen[14].said.halt),
            Row::says("waits, completed", 0, seen[14].head.done),
            Row::says("halted, taken", 1, seen[15].said.taken),
            Row::says("halted, asks for a halt", 0, seen[15].said.halt),
        ],
    )
}

fn reported(rt: &impl Print, seen: &Acts) -> io::Result<usize>
    ensures { IfOk result (λ n. n ≤ 5) }
{
    rows(
        rt,
        5,
        &[
            Row::open("reclaim 3, a fault is 3", 3, seen[16].said.outcome),
            Row::says("reclaim 3, its word", 128, seen[16].said.fault),
            Row::open("reclaim 3, total", 0, seen[16].said.total),
            Row::says("reclaim 3, packets", 1, seen[16].said.packets),
            Row::says("reclaim 3, result 0", 7, seen[16].said.results[0]),
        ],
    )
}

fn idle(rt: &impl Print, seen: &Acts) -> io::Result<usize>
    ensures { IfOk result (λ n. n ≤ 4) }
{
    rows(
        rt,
        5,
        &[
            Row::says("halted, word 44", 0, seen[16].ring[44]),
            Row::says("halted, live channel", 0, seen[16].head.live),
            Row::says("halted, cursor", 0, seen[16].head.td_last),
            Row::says("halted, start", 0, seen[16].head.start_full_frame),
        ],
    )
}
