// P1 to P5: the ring sums.
ghost use Rattle.std.specs.Prelude.{IfOk, ◌≤◌};

use crate::row::{Line, lines};
use ring::Speed;
use std::io;

pub(crate) fn all(rt: &impl Print) -> io::Result<usize>
    ensures { IfOk result (λ n. n ≤ 20) }
{
    Ok(p1(rt)? + p2(rt)? + p3(rt)? + p4(rt)? + p5(rt)?)
}

fn p1(rt: &impl Print) -> io::Result<usize>
    ensures { IfOk result (λ n. n ≤ 6) }
{
    lines(
        rt,
        &[
            Line::new(
                "P1 SCHINFO, high speed, interval 0",
                255,
                ring::iso_schinfo(Speed::High, 0),
            ),
            Line::new(
                "P1 SCHINFO, high speed, interval 1",
                255,
                ring::iso_schinfo(Speed::High, 1),
            ),
            Line::new(
                "P1 SCHINFO, high speed, interval 2",
                85,
                ring::iso_schinfo(Speed::High, 2),
            ),
            Line::new(
                "P1 SCHINFO, high speed, interval 3",
                73,
                ring::iso_schinfo(Speed::High, 3),
            ),
            Line::new(
                "P1 SCHINFO, high speed, interval 4",
                17,
                ring::iso_schinfo(Speed::High, 4),
            ),
            Line::new(
                "P1 SCHINFO, high speed, interval 8",
                1,
                ring::iso_schinfo(Speed::High, 8),
            ),
        ],
    )
}

fn p2(rt: &impl Print) -> io::Result<usize>
    ensures { IfOk result (λ n. n ≤ 4) }
{
    lines(
        rt,
        &[
            Line::new(
                "P2 capacity, high speed, interval 1",
                255,
                ring::iso_max_packets(1, Speed::High),
            ),
            Line::new(
                "P2 capacity, high speed, interval 6",
                127,
                ring::iso_max_packets(6, Speed::High),
            ),
            Line::new(
                "P2 capacity, high speed, interval 128",
                1,
                ring::iso_max_packets(128, Speed::High),
            ),
            Line::new(
                "P2 capacity, high speed, interval 256",
                0,
                ring::iso_max_packets(256, Speed::High),
            ),
        ],
    )
}

fn p3(rt: &impl Print) -> io::Result<usize>
    ensures { IfOk result (λ n. n ≤ 4) }
{
    lines(
        rt,
        &[
            Line::new(
                "P3 start, high speed, raw 4",
                1,
                ring::iso_starting_frame(4, Speed::High),
            ),
            Line::new(
                "P3 start, high speed, raw 5",
                2,
                ring::iso_starting_frame(5, Speed::High),
            ),
            Line::new(
                "P3 start, high speed, raw 4294967295",
                1,
                ring::iso_starting_frame(4_294_967_295, Speed::High),
            ),
            Line::new(
                "P3 start, full speed, raw 65534",
                0,
                ring::iso_starting_frame(65_534, Speed::Full),
            ),
        ],
    )
}

fn p4(rt: &impl Print) -> io::Result<usize>
    ensures { IfOk result (λ n. n ≤ 3) }
{
    lines(
        rt,
        &[
            Line::new(
                "P4 slot, high speed, frame 31",
                248,
                ring::frame_to_desc_idx(Speed::High, 31),
            ),
            Line::new(
                "P4 slot, high speed, frame 32",
                0,
                ring::frame_to_desc_idx(Speed::High, 32),
            ),
            Line::new(
                "P4 slot, full speed, frame 64",
                0,
                ring::frame_to_desc_idx(Speed::Full, 64),
            ),
        ],
    )
}

fn p5(rt: &impl Print) -> io::Result<usize>
    ensures { IfOk result (λ n. n ≤ 3) }
{
    lines(
        rt,
        &[
            Line::new(
                "P5 grid, interval 4, R 64, c 5, t 16",
                17,
                ring::advance_along_grid(5, 16, 4, 64),
            ),
            Line::new(
                "P5 grid, interval 4, R 64, c 2, t 63",
                2,
                ring::advance_along_grid(2, 63, 4, 64),
            ),
            Line::new(
                "P5 grid, interval 4, R 64, c 3, t 63",
                63,
                ring::advance_along_grid(3, 63, 4, 64),
            ),
        ],
    )
}
