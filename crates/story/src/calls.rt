// The story's calls on the session. Each gives back the session beside what it said, so that rows are printed where no session is.
// What a call promises is left out.
use crate::answers::{number_of, outcome_of, packets_of, refusal_of, total_of, word_of};
use ring::Speed;
use session::{
    IsoChannelStart, IsoChannelState, IsoCompletion, IsoConfig, IsoEvent, IsoMode, IsoRefusal,
    IsoReply, IsoSubmission, IsoTransfer,
};
use words::Direction;

// What a call said, in numbers; what it has no word for is 0 or no.
#[derive(Clone, Copy, Default)]
pub(crate) struct Said {
    pub refusal: u64,
    // Of a submission: the number it drew, whether it was cut, whether it starts the channel, and what with.
    pub number: u64,
    pub cut: bool,
    pub starts: bool,
    pub hcchar: u32,
    pub hctsiz: u32,
    pub hcintmsk: u32,
    pub entries: u16,
    pub frame: u8,
    // Of a poll, cancel, reset or recovery: whether it took the event, and whether it asks for a halt.
    pub taken: bool,
    pub halt: bool,
    // Of a reclaim: how the request ended, the interrupt word of a fault, and the first three results.
    pub outcome: u64,
    pub fault: u32,
    pub total: u64,
    pub packets: u64,
    pub results: [u64; 3],
}

#[derive(Clone, Copy)]
pub(crate) struct Step {
    pub session: IsoChannelState,
    pub said: Said,
}

// Full speed, IN, interval 1, packets of 192 bytes, guarded.
pub(crate) fn open(ring: &mut [u32]) -> IsoChannelState {
    let config = IsoConfig {
        speed: Speed::Full,
        direction: Direction::In,
        interval: 1,
        endpoint: 1,
        device: 1,
        max_packet_size: 192,
        mult: 1,
        mode: IsoMode::Guarded,
    };
    IsoChannelState::open(config, ring).session
}

// One packet of 192 bytes, every word stored.
pub(crate) fn submit_one(session: IsoChannelState, reading: u32, ring: &mut [u32]) -> Step {
    submit(session, transfer(reading, 192, 2048), &[192], ring)
}

// Two of them, with so many words that may be stored.
pub(crate) fn submit_two(
    session: IsoChannelState,
    reading: u32,
    words: u32,
    ring: &mut [u32],
) -> Step {
    submit(session, transfer(reading, 384, words), &[192, 192], ring)
}

// A buffer at 4096, both readings the same, nothing in its way. Each program has its own: a crate for ten fields is no plainer.
fn transfer(reading: u32, bytes: u32, words: u32) -> IsoTransfer {
    IsoTransfer {
        isochronous: true,
        has_buffer: true,
        buffer_len: bytes,
        base: 4096,
        start_reading: reading,
        frame_reading: reading,
        channel_free: true,
        gate_program: true,
        gate_enable: true,
        words,
    }
}

fn submit(
    session: IsoChannelState,
    request: IsoTransfer,
    lengths: &[u32],
    ring: &mut [u32],
) -> Step {
    let done = session.submit(request, lengths, ring);
    Step {
        session: done.session,
        said: sent(done.answer, done.start),
    }
}

fn sent(answer: Result<IsoSubmission, IsoRefusal>, start: Option<IsoChannelStart>) -> Said {
    let said = Said {
        refusal: refusal_of(answer),
        number: number_of(answer),
        cut: matches!(answer, Ok(IsoSubmission::Cut)),
        ..Said::default()
    };
    let Some(start) = start else {
        return said;
    };
    Said {
        starts: true,
        hcchar: start.hcchar,
        hctsiz: start.hctsiz,
        hcintmsk: start.hcintmsk,
        entries: start.frames.count,
        frame: start.frames.frames[0],
        ..said
    }
}

// What the controller stores into a word of the ring.
pub(crate) fn serve(session: IsoChannelState, ring: &mut [u32], at: usize, word: u32) -> Step {
    if let Some(status) = ring.get_mut(at) {
        *status = word;
    }
    Step {
        session,
        said: Said::default(),
    }
}

pub(crate) fn poll(session: IsoChannelState, hcint: u32, ring: &mut [u32]) -> Step {
    let event = IsoEvent {
        unplugged: false,
        hcint,
    };
    told(session.poll_channel(Some(event), ring))
}

pub(crate) fn cancel(session: IsoChannelState, id: u64) -> Step {
    told(session.cancel(id))
}

pub(crate) fn reset(session: IsoChannelState) -> Step {
    told(session.reset())
}

pub(crate) fn recover(session: IsoChannelState, ring: &mut [u32]) -> Step {
    told(session.recover(ring))
}

fn told(reply: IsoReply) -> Step {
    Step {
        session: reply.session,
        said: Said {
            refusal: refusal_of(reply.answer),
            taken: reply.taken,
            halt: reply.halt,
            ..Said::default()
        },
    }
}

// With no event, and results that were all 7.
pub(crate) fn reclaim(session: IsoChannelState, id: u64, ring: &mut [u32]) -> Step {
    let mut results = [7u64; 255];
    let done = session.reclaim(id, None, ring, &mut results);
    Step {
        session: done.session,
        said: handed(done.answer, [results[0], results[1], results[2]]),
    }
}

fn handed(answer: Result<Option<IsoCompletion>, IsoRefusal>, results: [u64; 3]) -> Said {
    Said {
        refusal: refusal_of(answer),
        outcome: outcome_of(answer),
        fault: word_of(answer),
        total: total_of(answer),
        packets: packets_of(answer),
        results,
        ..Said::default()
    }
}
