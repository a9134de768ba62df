// The list, line by line: the call is made, and its answers are judged.
ghost use Rattle.std.specs.Prelude.{IfSome, ◌<◌};

use crate::answers::{Line, Verdict, put};
use crate::kinds::{Kind, kind_of};
use crate::session_calls::store;
use crate::tally::Tally;

// The value of a figure or a capital from A to F.
fn digit(byte: u8) -> Option<u8>
    ensures { IfSome result (λ digit. digit < 16) }
{
    match byte {
        b'0'..=b'9' => Some(byte - b'0'),
        b'A'..=b'F' => Some(byte - b'A' + 10),
        _ => None,
    }
}

// The numbers of a line, each ended by any other character. A number of more than sixteen digits keeps its last sixteen, and one that
// the text ends in is not read: `parse` and `split_whitespace` would refuse lines that this one takes.
fn read_line<'a>(text: &[u8], numbers: &'a mut [u64]) -> Line<'a> {
    let mut count = 0;
    let mut inputs = 0;
    let mut number = None;
    for byte in text {
        if let Some(digit) = digit(*byte) {
            number = Some(number.unwrap_or(0u64) << 4 | u64::from(digit));
            continue;
        }
        if let Some(number) = number.take() {
            count = put(numbers, count, number);
        }
        if *byte == b':' {
            inputs = count;
        }
    }
    Line {
        numbers,
        count,
        inputs,
    }
}

// A line that has fewer numbers than its call takes has those of the lines before it.
pub(crate) fn replay(text: &[u8]) -> Tally {
    let mut listed = [0u64; 512];
    let mut session = [0u8; 8488];
    let mut words = [0u32; 2048];
    let mut tally = Tally::default();
    for text in text.split_inclusive(|byte| *byte == b'\n') {
        let line = read_line(text, &mut listed);
        let number = line.byte(0);
        let verdict = made(kind_of(number), line, &mut session, &mut words);
        tally.note(number, verdict);
    }
    tally
}

// The words are those of the ring or of a plan's array: in the list all plans come before the first session.
fn made(kind: Kind, line: Line, session: &mut [u8], words: &mut [u32]) -> Verdict {
    match kind {
        Kind::Session(call) => crate::session_calls::make(call, line, session, words),
        Kind::Ring(sum) => crate::ring_calls::make(sum, line),
        Kind::Plan(call) => crate::plans::make(call, line, words),
        Kind::Store => {
            store(words, line.half(1), line.word(2));
            Ok(())
        }
    }
}
