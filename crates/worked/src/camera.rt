// P6 and P8: a camera's requests on its ring.
ghost use Rattle.std.specs.Prelude.{◌≡◌, IfOk, [], ◌∷◌, ◌≤◌, ◌*◌, ◌/◌, length, get_or};
ghost use Rattle.ring.specs.declared.speed.Speed.TheVariants.{Full};
ghost use Rattle.session.specs.Numbers.{submit_number};
ghost use Rattle.session.specs.Session.{idle_session};
ghost use Rattle.session.specs.Open.{opened_ring};
ghost use Rattle.session.specs.Submit.{submitted, submitted_ring};
ghost use Rattle.worked.specs.Camera.{camera_config, camera_transfer, use_mark, slots_in_use};

use crate::row::{Line, lines};
use ring::Speed;
use session::{IsoChannelState, IsoConfig, IsoMode, IsoRefusal, IsoSubmission, IsoTransfer};
use std::io;
use words::Direction;

// Words 20 and 22 are the status of slots 10 and 11. Served, they are zero here, so that the slots in use after the second call are
// those that it wrote.
pub(crate) fn p6(rt: &impl Print) -> io::Result<usize>
    ensures { IfOk result (λ n. n ≤ 6) }
{
    Ok(compatible(rt)? + guarded(rt)?)
}

fn compatible(rt: &impl Print) -> io::Result<usize>
    ensures { IfOk result (λ n. n ≤ 5) }
{
    let mut ring = [0u32; 128];
    let session = pending(IsoMode::Compatible, &mut ring);
    let first = nth_in_use(&ring, 0);
    let second = nth_in_use(&ring, 1);
    ring[20] = 0;
    ring[22] = 0;
    let _ = again(session, &mut ring);
    lines(
        rt,
        &[
            Line::new("P6 pending, first slot", 10, first),
            Line::new("P6 pending, second slot", 11, second),
            Line::new("P6 pending, cursor", 12, session.head.td_last),
            Line::new("P6 compatible, raw 71, first slot", 9, nth_in_use(&ring, 0)),
            Line::new(
                "P6 compatible, raw 71, second slot",
                10,
                nth_in_use(&ring, 1),
            ),
        ],
    )
}

fn guarded(rt: &impl Print) -> io::Result<usize>
    ensures { IfOk result (λ n. n ≤ 1) }
{
    let mut ring = [0u32; 128];
    let session = pending(IsoMode::Guarded, &mut ring);
    ring[20] = 0;
    ring[22] = 0;
    let refusal = refusal_of(again(session, &mut ring));
    lines(rt, &[Line::new("P6 guarded, raw 71, refusal", 13, refusal)])
}

pub(crate) fn p8(rt: &impl Print) -> io::Result<usize>
    ensures { IfOk result (λ n. n ≤ 7) }
{
    let mut ring = [0u32; 512];
    let opened = IsoChannelState::open(config(Speed::High, 8, IsoMode::Compatible), &mut ring);
    let done = opened
        .session
        .submit(transfer(16, 576), &[192, 192, 192], &mut ring);
    lines(
        rt,
        &[
            Line::new("P8 first slot", 24, nth_in_use(&ring, 0)),
            Line::new("P8 second slot", 32, nth_in_use(&ring, 1)),
            Line::new("P8 third slot", 40, nth_in_use(&ring, 2)),
            Line::new("P8 cursor", 48, done.session.head.td_last),
            Line::new(
                "P8 status of slot 24, 0x800000C0",
                2_147_483_840,
                status_of(&ring, 24),
            ),
            Line::new(
                "P8 status of slot 32, 0x800000C0",
                2_147_483_840,
                status_of(&ring, 32),
            ),
            Line::new(
                "P8 status of slot 40, 0x820000C0",
                2_181_038_272,
                status_of(&ring, 40),
            ),
        ],
    )
}

fn config(speed: Speed, interval: u16, mode: IsoMode) -> IsoConfig
    ensures { result ≡ camera_config speed interval mode }
{
    IsoConfig {
        speed,
        direction: Direction::In,
        interval,
        endpoint: 1,
        device: 1,
        max_packet_size: 192,
        mult: 1,
        mode,
    }
}

fn transfer(reading: u32, bytes: u32) -> IsoTransfer
    ensures { result ≡ camera_transfer reading bytes }
{
    IsoTransfer {
        isochronous: true,
        has_buffer: true,
        buffer_len: bytes,
        base: 4096,
        start_reading: reading,
        frame_reading: reading,
        channel_free: true,
        gate_program: true,
        gate_enable: true,
        words: 2048,
    }
}

// Raw 8 starts at frame 10: the two packets go to slots 10 and 11.
fn pending(mode: IsoMode, ring: &mut [u32]) -> IsoChannelState
    ensures { (result ≡ (submitted (idle_session (camera_config Full 1 mode)) (camera_transfer 8 384) (192 ∷ 192 ∷ [])
        (opened_ring (camera_config Full 1 mode) ring.old)).session)
        × (ring.new ≡ submitted_ring (idle_session (camera_config Full 1 mode)) (camera_transfer 8 384) (192 ∷ 192 ∷ [])
        (opened_ring (camera_config Full 1 mode) ring.old)) }
{
    let opened = IsoChannelState::open(config(Speed::Full, 1, mode), ring);
    let done = opened.session.submit(transfer(8, 384), &[192, 192], ring);
    done.session
}

fn again(session: IsoChannelState, ring: &mut [u32]) -> Result<IsoSubmission, IsoRefusal>
    ensures { (result ≡ (submitted session (camera_transfer 71 384) (192 ∷ 192 ∷ []) ring.old).answer)
        × (ring.new ≡ submitted_ring session (camera_transfer 71 384) (192 ∷ 192 ∷ []) ring.old) }
{
    let done = session.submit(transfer(71, 384), &[192, 192], ring);
    done.answer
}

fn refusal_of(answer: Result<IsoSubmission, IsoRefusal>) -> u64
    ensures { result ≡ submit_number answer }
{
    match answer {
        Ok(_) => 0,
        Err(refusal) => u64::from(u16::from(refusal)),
    }
}

// Slot number n of those in use; the number of slots where there are fewer.
fn nth_in_use(ring: &[u32], n: usize) -> u64
    ensures { result ≡ get_or (slots_in_use 0 ring.now) n (length ring.now / 2) }
{
    let mut left = n;
    for slot in 0..ring.len() / 2 {
        let used = mark(ring[slot * 2]);
        if left < used {
            return slot as u64;
        }
        left -= used;
    }
    (ring.len() / 2) as u64
}

// 1 for a status word in use.
fn mark(status: u32) -> usize
    ensures { result ≡ use_mark status }
{
    usize::from(status != 0)
}

fn status_of(ring: &[u32], slot: u16) -> u32
    ensures { result ≡ get_or ring.now (2 * slot) 0 }
{
    ring.get(2 * usize::from(slot)).copied().unwrap_or(0)
}
