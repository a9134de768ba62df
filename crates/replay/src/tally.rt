// What was replayed and what differed, as lines.
use crate::answers::{Difference, Verdict};
use crate::kinds::{COUNT, KINDS, Kind};
use std::{fmt, io};

// The first line that differs, by its number.
#[derive(Clone, Copy)]
pub(crate) struct First {
    line: u64,
    other: Difference,
}

impl fmt::Display for First {
    fn fmt<W: fmt::Write>(&self, f: &mut fmt::Formatter<W>) -> fmt::Result {
        let First { line, other } = *self;
        let Difference {
            place,
            listed,
            said,
        } = other;
        write!(
            f,
            "first: line {line}, answer {place}, listed {listed}, answered {said}"
        )
    }
}

// How many lines of each kind were read, how many of all, how many of them differ, and the first of these.
#[derive(Clone, Copy, Default)]
pub(crate) struct Tally {
    counts: [u64; COUNT],
    lines: u64,
    differ: u64,
    first: Option<First>,
}

impl Tally {
    // Kinds that are none are not counted. Of several lines that differ the first is kept.
    pub(crate) fn note(&mut self, number: u8, verdict: Verdict) {
        self.lines = self.lines.wrapping_add(1);
        if let Some(count) = self.counts.get_mut(usize::from(number)) {
            *count = count.wrapping_add(1);
        }
        if let Err(other) = verdict {
            self.differ = self.differ.wrapping_add(1);
            let line = self.lines;
            self.first.get_or_insert(First { line, other });
        }
    }

    // A line for each kind, and how many of the calls differ: a stored word is none.
    pub(crate) fn tell(&self, rt: &impl Print) -> io::Result<()> {
        let mut calls: u64 = 0;
        for ((kind, name), count) in KINDS.iter().zip(self.counts.iter()) {
            println!(rt; "{name} {count}")?;
            if !matches!(kind, Kind::Store) {
                calls = calls.wrapping_add(*count);
            }
        }
        if let Some(first) = self.first {
            println!(rt; "{first}")?;
        }
        println!(rt; "{} of {calls} calls differ", self.differ)
    }
}
