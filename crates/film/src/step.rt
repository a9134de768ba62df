// The acts on the session. Each gives back the session beside what the call said, so that nothing is printed where a session is.
use crate::script::{Act, Run};
use session::{
    IsoChannelState, IsoCompletion, IsoConfig, IsoEvent, IsoOutcome, IsoRefusal, IsoSubmission,
    IsoTransfer,
};
use std::fmt;
use words::Direction;

// What a call said: the number of the request, the bytes handed out, or why it is refused. Unfinished is what no scene comes to: a
// request that is not settled yet, or ended another way.
#[derive(Clone, Copy)]
pub(crate) enum Said {
    Accepted(u64),
    Cut,
    Refused(IsoRefusal),
    Done(u64, u32),
    Disconnected(u64),
    Unfinished(u64),
}

impl fmt::Display for Said {
    fn fmt<W: fmt::Write>(&self, f: &mut fmt::Formatter<W>) -> fmt::Result {
        match self {
            Said::Accepted(id) => write!(f, "accepted as request {id}"),
            Said::Cut => f.write_str("cut"),
            Said::Refused(refusal) => write!(f, "refused with {}", u16::from(*refusal)),
            Said::Done(id, bytes) => write!(f, "request {id} done, {bytes} bytes"),
            Said::Disconnected(id) => write!(f, "request {id} disconnected"),
            Said::Unfinished(id) => write!(f, "request {id} not done"),
        }
    }
}

#[derive(Clone, Copy)]
pub(crate) struct Step {
    pub session: IsoChannelState,
    pub said: Option<Said>,
}

pub(crate) fn perform(session: IsoChannelState, act: Act, ring: &mut [u32]) -> Step {
    match act {
        Act::Submit(reading, packets, words) => submitted(session, reading, packets, words, ring),
        Act::Serve(slot, status) => served(session, slot, status, ring),
        Act::Collect(id) => collected(session, id, ring),
        Act::Recover => Step {
            session: session.recover(ring).session,
            said: None,
        },
    }
}

// IN, packets of 192 bytes.
pub(crate) fn opened(run: &Run, ring: &mut [u32]) -> IsoChannelState {
    let config = IsoConfig {
        speed: run.speed,
        direction: Direction::In,
        interval: run.interval,
        endpoint: 1,
        device: 1,
        max_packet_size: 192,
        mult: 1,
        mode: run.mode,
    };
    IsoChannelState::open(config, ring).session
}

const LENGTHS: [u32; 4] = [192; 4];

fn submitted(
    session: IsoChannelState,
    reading: u32,
    packets: u16,
    words: u32,
    ring: &mut [u32],
) -> Step {
    let lengths = &LENGTHS[..usize::from(packets).min(4)];
    let done = session.submit(transfer(reading, packets, words), lengths, ring);
    Step {
        session: done.session,
        said: Some(submit_said(done.answer)),
    }
}

// A buffer at 4096, both readings the same, nothing in its way. Each program has its own: a crate for ten fields is no plainer.
fn transfer(reading: u32, packets: u16, words: u32) -> IsoTransfer {
    IsoTransfer {
        isochronous: true,
        has_buffer: true,
        buffer_len: u32::from(packets) * 192,
        base: 4096,
        start_reading: reading,
        frame_reading: reading,
        channel_free: true,
        gate_program: true,
        gate_enable: true,
        words,
    }
}

fn submit_said(answer: Result<IsoSubmission, IsoRefusal>) -> Said {
    match answer {
        Ok(IsoSubmission::Accepted(id)) => Said::Accepted(id),
        Ok(IsoSubmission::Cut) => Said::Cut,
        Err(refusal) => Said::Refused(refusal),
    }
}

// The controller's store into a status word.
fn served(session: IsoChannelState, slot: u16, status: u32, ring: &mut [u32]) -> Step {
    if let Some(word) = ring.get_mut(2 * usize::from(slot)) {
        *word = status;
    }
    Step {
        session,
        said: None,
    }
}

// An event without any bit: what was served is settled.
fn collected(session: IsoChannelState, id: u64, ring: &mut [u32]) -> Step {
    let mut results = [0u64; 255];
    let event = IsoEvent {
        unplugged: false,
        hcint: 0,
    };
    let done = session.reclaim(id, Some(event), ring, &mut results);
    Step {
        session: done.session,
        said: Some(reclaim_said(id, done.answer)),
    }
}

fn reclaim_said(id: u64, answer: Result<Option<IsoCompletion>, IsoRefusal>) -> Said {
    match answer {
        Ok(Some(completion)) => match completion.outcome {
            IsoOutcome::Done => Said::Done(id, completion.actual_length),
            IsoOutcome::Disconnected => Said::Disconnected(id),
            _ => Said::Unfinished(id),
        },
        Ok(None) => Said::Unfinished(id),
        Err(refusal) => Said::Refused(refusal),
    }
}
