// The session's calls of the list, through the C interface: the session crosses as bytes, and the ring lent has 2,048 words.
use crate::answers::{Line, Verdict};
use crate::digest::digest_of;
use port::{PortReclaimed, PortReply, PortSubmitted, PortTransfer};

#[derive(Clone, Copy)]
pub(crate) enum SessionCall {
    Open,
    Submit,
    Poll,
    Reclaim,
    Cancel,
    Reset,
}

pub(crate) fn make(call: SessionCall, line: Line, session: &mut [u8], ring: &mut [u32]) -> Verdict {
    let reply = match call {
        SessionCall::Open => open(line, session, ring),
        SessionCall::Submit => return submit(line, session, ring),
        SessionCall::Poll => poll(line, session, ring),
        SessionCall::Reclaim => return reclaim(line, session, ring),
        SessionCall::Cancel => port::dwc2_iso_cancel(session, line.number(1)),
        SessionCall::Reset => port::dwc2_iso_reset(session),
    };
    replied(line, session, ring, reply)
}

fn poll(line: Line, session: &mut [u8], ring: &mut [u32]) -> PortReply {
    let hcint = line.word(3);
    port::dwc2_iso_poll(session, ring, line.word(1), line.word(2), hcint)
}

fn replied(line: Line, session: &[u8], ring: &[u32], r: PortReply) -> Verdict {
    line.judge(&[
        u64::from(r.refusal),
        u64::from(r.taken),
        u64::from(r.halt),
        digest_of(ring),
        digest_of(session),
    ])
}

// The controller's word.
pub(crate) fn store(words: &mut [u32], at: u16, word: u32) {
    if let Some(place) = words.get_mut(usize::from(at)) {
        *place = word;
    }
}

// The ring is not zero before, and stays so behind its words.
fn open(line: Line, session: &mut [u8], ring: &mut [u32]) -> PortReply {
    ring.fill(0xdead_beef);
    let refusal = port::dwc2_iso_open(
        session,
        ring,
        line.byte(1),
        line.byte(2),
        line.byte(3),
        line.half(4),
        line.half(5),
        line.byte(6),
        line.byte(7),
        line.byte(8),
    );
    PortReply {
        refusal,
        taken: 0,
        halt: 0,
    }
}

fn transfer_of(line: Line) -> PortTransfer {
    PortTransfer {
        base: line.number(1),
        buffer_len: line.word(2),
        start_reading: line.word(3),
        frame_reading: line.word(4),
        words: line.word(5),
        kind: line.byte(6),
        has_buffer: line.byte(7),
        channel_free: line.byte(8),
        gate_program: line.byte(9),
        gate_enable: line.byte(10),
    }
}

// The lengths of the packets stand behind the ten other inputs.
fn submit(line: Line, session: &mut [u8], ring: &mut [u32]) -> Verdict {
    let given = line.numbers.get(11..line.inputs).unwrap_or(&[]);
    let mut lengths = [0u32; 512];
    for (length, number) in lengths.iter_mut().zip(given) {
        *length = (number & 0xffff_ffff) as u32;
    }
    let lengths = &lengths[..given.len().min(512)];
    let done = port::dwc2_iso_submit(session, ring, lengths, transfer_of(line));
    submitted(line, session, ring, done)
}

fn submitted(line: Line, session: &[u8], ring: &[u32], s: PortSubmitted) -> Verdict {
    line.judge(&[
        s.value,
        u64::from(s.refusal),
        u64::from(s.cut),
        u64::from(s.first),
        u64::from(s.hcchar),
        u64::from(s.hctsiz),
        u64::from(s.hcintmsk),
        u64::from(s.frame_count),
        digest_of(&s.frames),
        digest_of(ring),
        digest_of(session),
    ])
}

// The results were 0x5A in each byte.
fn reclaim(line: Line, session: &mut [u8], ring: &mut [u32]) -> Verdict {
    let mut results = [0x5a5a_5a5a_5a5a_5a5au64; 255];
    let done = port::dwc2_iso_reclaim(
        session,
        ring,
        &mut results,
        line.number(1),
        line.word(2),
        line.word(3),
        line.word(4),
    );
    reclaimed(line, session, ring, digest_of(&results), done)
}

fn reclaimed(line: Line, session: &[u8], ring: &[u32], results: u64, r: PortReclaimed) -> Verdict {
    line.judge(&[
        u64::from(r.refusal),
        u64::from(r.completed),
        u64::from(r.outcome),
        u64::from(r.fault),
        u64::from(r.word),
        u64::from(r.length),
        u64::from(r.packets),
        u64::from(r.taken),
        u64::from(r.halt),
        results,
        digest_of(ring),
        digest_of(session),
    ])
}
