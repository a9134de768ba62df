// P7: chunks and stages of a disk's transfer, packets of 512.
ghost use Rattle.std.specs.Prelude.{IfOk, ◌≤◌};

use crate::row::{Line, lines};
use plan::{DataKind, DataRequest, DataToggle};
use ring::Speed;
use std::io;
use words::Direction;

pub(crate) fn p7(rt: &impl Print) -> io::Result<usize>
    ensures { IfOk result (λ n. n ≤ 9) }
{
    let none = plan::split_dma_lengths(0, 512);
    let one = plan::split_dma_lengths(130_560, 512);
    let two = plan::split_dma_lengths(130_561, 512);
    lines(
        rt,
        &[
            Line::new("P7 m 512, length 0, chunks", 1, none.count),
            Line::new("P7 m 512, length 0, last chunk", 0, none.last),
            Line::new("P7 m 512, length 130560, chunks", 1, one.count),
            Line::new("P7 m 512, length 130560, last chunk", 130_560, one.last),
            Line::new("P7 m 512, length 130561, chunks", 2, two.count),
            Line::new("P7 m 512, length 130561, first chunk", 130_560, two.chunk),
            Line::new("P7 m 512, length 130561, last chunk", 1, two.last),
            Line::new("P7 m 512, length 33423360, stages", 1, stages(33_423_360)),
            Line::new("P7 m 512, length 33423361, stages", 2, stages(33_423_361)),
        ],
    )
}

// The stages of a bulk OUT of so many bytes; a plan that is refused has none.
fn stages(len: u64) -> u32 {
    let mut array = [0u32; 2048];
    let request = DataRequest {
        kind: DataKind::Bulk,
        direction: Direction::Out,
        port_speed: Speed::High,
        device: 1,
        endpoint: 2,
        max_packet_size: 512,
        odd_frame: false,
        toggle: DataToggle::data0(),
        base: 0,
        len,
    };
    plan::data_stages(request, &mut array).map_or(0, |made| made.count)
}
