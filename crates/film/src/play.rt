// A run's acts on a session and a ring of its own, and what is seen after each.
use crate::cells::{Cell, Change, cells, first_change};
use crate::script::Run;
use crate::step::{Said, opened, perform};
use std::io;

#[derive(Clone, Copy)]
pub(crate) struct Seen {
    pub said: Option<Said>,
    pub cursor: u16,
    // The first word that the act changed.
    pub change: Option<Change>,
    pub cells: [Cell; 256],
}

// No row is printed here: one session is there at a time.
pub(crate) fn play(run: &Run) -> [Seen; 7] {
    let mut ring = [0u32; 512];
    let mut session = opened(run, &mut ring);
    run.acts.map(|act| {
        let before = ring;
        let step = perform(session, act, &mut ring);
        session = step.session;
        Seen {
            said: step.said,
            cursor: session.head.td_last,
            change: first_change(&before, &ring),
            cells: cells(&session, &before, &ring),
        }
    })
}

// The cursor below a row's cells, which begin behind a margin of twelve.
pub(crate) fn cursor(rt: &impl Print, seen: &Seen) -> io::Result<()> {
    let column = 12 + usize::from(seen.cursor % 64);
    println!(rt; "{:column$}^", "")
}
