// Scenes 6 to 8: cancel, reset, and a submission that is cut, with the recovery from it.
ghost use Rattle.std.specs.Prelude.{IfOk, ◌≤◌};

use crate::play::Acts;
use crate::row::{Row, rows};
use std::io;

pub(crate) fn all(rt: &impl Print, seen: &Acts) -> io::Result<usize>
    ensures { IfOk result (λ n. n ≤ 44) }
{
    Ok(
        cancelled(rt, seen)?
            + halted(rt, seen)?
            + cancelled_late(rt, seen)?
            + emptied(rt, seen)?
            + placed(rt, seen)?
            + cut_short(rt, seen)?
            + recovered(rt, seen)?
            + zeroed(rt, seen)?
            + goes_on(rt, seen)?,
    )
}

// Scene 6: request 4 is cancelled while it is pending. The session is ending from the first cancel on.
fn cancelled(rt: &impl Print, seen: &Acts) -> io::Result<usize>
    ensures { IfOk result (λ n. n ≤ 6) }
{
    rows(
        rt,
        6,
        &[
            Row::says("number", 4, seen[17].said.number),
            Row::says("word 20", 2_181_038_272, seen[17].ring[20]),
            Row::says("cancel 4, asks for a halt", 1, seen[18].said.halt),
            Row::says("again, asks for a halt", 0, seen[19].said.halt),
            Row::says("cancel 99", 15, seen[20].said.refusal),
            Row::says("reset", 16, seen[21].said.refusal),
        ],
    )
}

fn halted(rt: &impl Print, seen: &Acts) -> io::Result<usize>
    ensures { IfOk result (λ n. n ≤ 3) }
{
    rows(
        rt,
        6,
        &[
            Row::says("halted, taken", 1, seen[22].said.taken),
            Row::open("reclaim 4, cancelled is 2", 2, seen[23].said.outcome),
            Row::says("reclaim 4, result 0", 7, seen[23].said.results[0]),
        ],
    )
}

// Request 5 is cancelled after the controller moved all of it.
fn cancelled_late(rt: &impl Print, seen: &Acts) -> io::Result<usize>
    ensures { IfOk result (λ n. n ≤ 6) }
{
    rows(
        rt,
        6,
        &[
            Row::says("next number", 5, seen[24].said.number),
            Row::says("next, word 20", 2_181_038_272, seen[24].ring[20]),
            Row::says("cancel 5, asks for a halt", 0, seen[27].said.halt),
            Row::open("reclaim 5, cancelled is 2", 2, seen[28].said.outcome),
            Row::open("reclaim 5, total", 0, seen[28].said.total),
            Row::says("reclaim 5, result 0", 7, seen[28].said.results[0]),
        ],
    )
}

// Scene 7: the channel is live and nothing is there.
fn emptied(rt: &impl Print, seen: &Acts) -> io::Result<usize>
    ensures { IfOk result (λ n. n ≤ 5) }
{
    rows(
        rt,
        7,
        &[
            Row::says("live channel", 1, seen[28].head.live),
            Row::says("cursor", 11, seen[28].head.td_last),
            Row::says("reset", 0, seen[29].said.refusal),
            Row::says("cursor then", 0, seen[29].head.td_last),
            Row::says("start", 10, seen[29].head.start_full_frame),
        ],
    )
}

// Scene 8: behind request 6, one of two packets is cut after three words: its second status is not stored.
fn placed(rt: &impl Print, seen: &Acts) -> io::Result<usize>
    ensures { IfOk result (λ n. n ≤ 3) }
{
    rows(
        rt,
        8,
        &[
            Row::says("number", 6, seen[30].said.number),
            Row::says("word 44", 2_181_038_272, seen[30].ring[44]),
            Row::says("cursor", 23, seen[30].head.td_last),
        ],
    )
}

fn cut_short(rt: &impl Print, seen: &Acts) -> io::Result<usize>
    ensures { IfOk result (λ n. n ≤ 7) }
{
    rows(
        rt,
        8,
        &[
            Row::says("three words, cut", 1, seen[31].said.cut),
            Row::says("cut, word 47", 4096, seen[31].ring[47]),
            Row::says("cut, word 46", 2_147_483_840, seen[31].ring[46]),
            Row::says("cut, word 49", 4288, seen[31].ring[49]),
            Row::says("cut, word 48", 0, seen[31].ring[48]),
            Row::says("cut, next number", 7, seen[31].head.next_request_id),
            Row::says("cut, cursor", 23, seen[31].head.td_last),
        ],
    )
}

fn recovered(rt: &impl Print, seen: &Acts) -> io::Result<usize>
    ensures { IfOk result (λ n. n ≤ 5) }
{
    rows(
        rt,
        8,
        &[
            Row::says("recovery", 0, seen[32].said.refusal),
            Row::says("recovered, live channel", 0, seen[32].head.live),
            Row::says("recovered, cursor", 0, seen[32].head.td_last),
            Row::says("recovered, start", 0, seen[32].head.start_full_frame),
            Row::says("recovered, next number", 7, seen[32].head.next_request_id),
        ],
    )
}

fn zeroed(rt: &impl Print, seen: &Acts) -> io::Result<usize>
    ensures { IfOk result (λ n. n ≤ 6) }
{
    rows(
        rt,
        8,
        &[
            Row::says("recovered, word 44", 0, seen[32].ring[44]),
            Row::says("recovered, word 45", 0, seen[32].ring[45]),
            Row::says("recovered, word 46", 0, seen[32].ring[46]),
            Row::says("recovered, word 47", 0, seen[32].ring[47]),
            Row::says("recovered, word 48", 0, seen[32].ring[48]),
            Row::says("recovered, word 49", 0, seen[32].ring[49]),
        ],
    )
}

// The number that the cut call drew is drawn again.
fn goes_on(rt: &impl Print, seen: &Acts) -> io::Result<usize>
    ensures { IfOk result (λ n. n ≤ 3) }
{
    rows(
        rt,
        8,
        &[
            Row::open("reclaim 6, disconnected is 1", 1, seen[33].said.outcome),
            Row::says("number after recovery", 7, seen[34].said.number),
            Row::says("starts the channel", 1, seen[34].said.starts),
        ],
    )
}
