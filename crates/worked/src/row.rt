// One printed line for each worked number.
ghost use Rattle.std.specs.Prelude.{IfOk, ◌≤◌, length};

use std::{fmt, io};

// A number by its name, what document 01 says and what the code answers. Story's Row has a source too, which one type for both would
// carry here unused.
#[derive(Clone, Copy)]
pub(crate) struct Line {
    what: &'static str,
    says: u64,
    answers: u64,
}

impl Line {
    pub(crate) fn new(what: &'static str, says: u64, answers: impl Into<u64>) -> Line {
        Line {
            what,
            says,
            answers: answers.into(),
        }
    }

    fn differs(&self) -> bool {
        self.says != self.answers
    }
}

impl fmt::Display for Line {
    fn fmt<W: fmt::Write>(&self, f: &mut fmt::Formatter<W>) -> fmt::Result {
        let Line {
            what,
            says,
            answers,
        } = *self;
        let mark = if self.differs() { ": WRONG" } else { "" };
        write!(
            f,
            "{what}: document 01 says {says}, the code answers {answers}{mark}"
        )
    }
}

// How many of them differ.
pub(crate) fn lines(rt: &impl Print, lines: &[Line]) -> io::Result<usize>
    ensures { IfOk result (λ n. n ≤ length lines.now) }
{
    let mut wrong = 0;
    for line in lines {
        println!(rt; "{line}")?;
        wrong += usize::from(line.differs());
    }
    Ok(wrong)
}

// The last line: how many differ.
pub(crate) fn last(rt: &impl Print, wrong: usize) -> io::Result<()> {
    println!(rt; "{wrong} differ from document 01")
}
