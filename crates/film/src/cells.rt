// The ring as characters, one a slot: from the record's plans, the ring's words and the ring's words before the act.
use session::{IsoChannelState, IsoRequest};
use std::{array, fmt};

const SLOTS: usize = 256;

// Status bit 31.
const ACTIVE: u32 = 2_147_483_648;

// What a slot is to the eye.
#[derive(Clone, Copy)]
pub(crate) enum Cell {
    Free,
    Addressed,
    Stored,
    Active,
    Served,
    Overwritten,
}

impl fmt::Display for Cell {
    fn fmt<W: fmt::Write>(&self, f: &mut fmt::Formatter<W>) -> fmt::Result {
        f.write_str(match self {
            Cell::Free => ".",
            Cell::Addressed => "a",
            Cell::Stored => "*",
            Cell::Active => "A",
            Cell::Served => "s",
            Cell::Overwritten => "!",
        })
    }
}

// Cells side by side.
#[derive(Clone, Copy)]
pub(crate) struct Strip<'a>(pub &'a [Cell]);

impl fmt::Display for Strip<'_> {
    fn fmt<W: fmt::Write>(&self, f: &mut fmt::Formatter<W>) -> fmt::Result {
        for cell in self.0 {
            write!(f, "{cell}")?;
        }
        Ok(())
    }
}

pub(crate) fn cells(
    session: &IsoChannelState,
    before: &[u32; 512],
    ring: &[u32; 512],
) -> [Cell; SLOTS] {
    let held = holders(session);
    array::from_fn(|slot| drawn(
        held[slot],
        before[2 * slot],
        ring[2 * slot],
        ring[2 * slot + 1],
    ))
}

// How many of the plans in use hold each slot.
fn holders(session: &IsoChannelState) -> [u8; SLOTS] {
    let mut held = [0u8; SLOTS];
    let oldest = packets(&session.requests, session.head.done);
    let end = packets(&session.requests, session.head.count);
    for plan in session.plans.iter().take(end).skip(oldest) {
        if let Some(plans) = held.get_mut(usize::from(plan.desc_index)) {
            *plans = plans.saturating_add(1);
        }
    }
    held
}

// Of the first so many requests.
fn packets(requests: &[IsoRequest; 64], count: u16) -> usize {
    requests
        .iter()
        .take(usize::from(count))
        .fold(0, |sum: usize, request| {
            sum.saturating_add(usize::from(request.packets))
        })
}

fn drawn(held: u8, old: u32, status: u32, addr: u32) -> Cell {
    match held {
        0 | 1 if status >= ACTIVE && old == status => Cell::Active,
        0 | 1 if status >= ACTIVE => Cell::Stored,
        0 if status == 0 && addr == 0 => Cell::Free,
        0 => Cell::Addressed,
        1 => Cell::Served,
        _ => Cell::Overwritten,
    }
}

// A word of a slot, and what it is now.
#[derive(Clone, Copy)]
pub(crate) enum Change {
    Status(usize, u32),
    Address(usize, u32),
}

impl fmt::Display for Change {
    fn fmt<W: fmt::Write>(&self, f: &mut fmt::Formatter<W>) -> fmt::Result {
        match self {
            Change::Status(slot, word) => write!(f, "slot {slot}, status  0x{word:08x}"),
            Change::Address(slot, word) => write!(f, "slot {slot}, address 0x{word:08x}"),
        }
    }
}

// The first word that differs. Of a slot's two words the second is its address.
pub(crate) fn first_change(before: &[u32; 512], ring: &[u32; 512]) -> Option<Change> {
    for (at, (old, word)) in before.iter().zip(ring).enumerate() {
        if old != word {
            let slot = at / 2;
            return Some(if at % 2 == 0 {
                Change::Status(slot, *word)
            } else {
                Change::Address(slot, *word)
            });
        }
    }
    None
}
