// The printed lines, one for each number.
ghost use Rattle.std.specs.Prelude.{IfOk, ◌≤◌, length};

use std::{fmt, io};

// Where the number that a call is to answer stands: document 01 says it, or leaves it open, as the layout of a result, the number of
// an outcome and the total of an error.
#[derive(Clone, Copy)]
enum Source {
    Document,
    Open,
}

impl fmt::Display for Source {
    fn fmt<W: fmt::Write>(&self, f: &mut fmt::Formatter<W>) -> fmt::Result {
        f.write_str(match self {
            Source::Document => "document 01 says",
            Source::Open => "expected",
        })
    }
}

// A number by its name, what it is to be and what the code answers.
#[derive(Clone, Copy)]
pub(crate) struct Row {
    name: &'static str,
    source: Source,
    wanted: u64,
    answers: u64,
}

impl Row {
    pub(crate) fn says(name: &'static str, wanted: u64, answers: impl Into<u64>) -> Row {
        Row {
            name,
            source: Source::Document,
            wanted,
            answers: answers.into(),
        }
    }

    pub(crate) fn open(name: &'static str, wanted: u64, answers: impl Into<u64>) -> Row {
        Row {
            name,
            source: Source::Open,
            wanted,
            answers: answers.into(),
        }
    }

    fn differs(&self) -> bool {
        self.wanted != self.answers
    }
}

impl fmt::Display for Row {
    fn fmt<W: fmt::Write>(&self, f: &mut fmt::Formatter<W>) -> fmt::Result {
        let Row {
            name,
            source,
            wanted,
            answers,
        } = *self;
        let mark = if self.differs() { ": WRONG" } else { "" };
        write!(
            f,
            "{name}: {source} {wanted}, the code answers {answers}{mark}"
        )
    }
}

// A scene's lines. How many differ.
pub(crate) fn rows(rt: &impl Print, scene: u8, rows: &[Row]) -> io::Result<usize>
    ensures { IfOk result (λ n. n ≤ length rows.now) }
{
    let mut wrong = 0;
    for row in rows {
        println!(rt; "story {scene}, {row}")?;
        wrong += usize::from(row.differs());
    }
    Ok(wrong)
}

// The last line: how many differ.
pub(crate) fn last(rt: &impl Print, wrong: usize) -> io::Result<()> {
    println!(rt; "{wrong} differ")
}
