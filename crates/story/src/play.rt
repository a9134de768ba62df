// The acts of the story in their order, on one session and one ring, and what is seen after each.
use crate::calls::{
    Said, Step, cancel, open, poll, reclaim, recover, reset, serve, submit_one, submit_two,
};
use session::{IsoChannelState, IsoHead};

const ACTS: usize = 35;

// Submit one packet at a reading, or two with so many words that may be stored; the controller stores into a word of the ring; poll
// with a word of interrupts; reclaim or cancel a request; reset; recover.
#[derive(Clone, Copy)]
enum Act {
    SubmitOne(u32),
    SubmitTwo(u32, u32),
    Serve(usize, u32),
    Poll(u32),
    Reclaim(u64),
    Cancel(u64),
    Reset,
    Recover,
}

// Of the first request the controller moves 100 bytes of the first packet, and the second packet fails with all of its 192 bytes left
// (0x100000C0). The complete bit is 1, halted 2, a transaction error 128, babble 256.
const SCRIPT: [Act; ACTS] = [
    Act::SubmitTwo(8, 2048),
    Act::SubmitOne(40),
    Act::Serve(20, 92),
    Act::Serve(22, 268_435_648),
    Act::Poll(0),
    Act::Reclaim(2),
    Act::Reclaim(1),
    Act::Reclaim(1),
    Act::Poll(1),
    Act::Reclaim(2),
    Act::SubmitOne(20),
    Act::Poll(256),
    Act::SubmitOne(20),
    Act::Poll(128),
    Act::Poll(0),
    Act::Poll(2),
    Act::Reclaim(3),
    Act::SubmitOne(8),
    Act::Cancel(4),
    Act::Cancel(4),
    Act::Cancel(99),
    Act::Reset,
    Act::Poll(2),
    Act::Reclaim(4),
    Act::SubmitOne(8),
    Act::Serve(20, 0),
    Act::Poll(0),
    Act::Cancel(5),
    Act::Reclaim(5),
    Act::Reset,
    Act::SubmitOne(20),
    Act::SubmitTwo(40, 3),
    Act::Recover,
    Act::Reclaim(6),
    Act::SubmitOne(8),
];

// What is seen after an act: what its call said, the session's numbers and the ring.
#[derive(Clone, Copy)]
pub(crate) struct Seen {
    pub said: Said,
    pub head: IsoHead,
    pub ring: [u32; 128],
}

// Of every act, in their order.
pub(crate) type Acts = [Seen; ACTS];

// No row is printed here: one session is there at a time.
pub(crate) fn all() -> Acts {
    let mut ring = [0u32; 128];
    let mut session = open(&mut ring);
    SCRIPT.map(|act| {
        let step = play(session, act, &mut ring);
        session = step.session;
        Seen {
            said: step.said,
            head: session.head,
            ring,
        }
    })
}

fn play(session: IsoChannelState, act: Act, ring: &mut [u32]) -> Step {
    match act {
        Act::SubmitOne(reading) => submit_one(session, reading, ring),
        Act::SubmitTwo(reading, words) => submit_two(session, reading, words, ring),
        Act::Serve(at, word) => serve(session, ring, at, word),
        Act::Poll(hcint) => poll(session, hcint, ring),
        Act::Reclaim(id) => reclaim(session, id, ring),
        Act::Cancel(id) => cancel(session, id),
        Act::Reset => reset(session),
        Act::Recover => recover(session, ring),
    }
}
