// The stored list, replayed with no Rust at hand: 3,031 calls of ring sums, planning and the session, each made once more and all its
// answers compared with those on its line of the file `stdin`. `oracle list --seed 1` writes that file: its answers are the Rust's
// (source document 000), and the model of document 01 agreed with the Rust at each of these calls. `oracle list --seed 1 | cmp - stdin`
// shows whether it is still the same list. The head of the oracle's list.rs says what a line holds. Digits are 0 to 9 and A to F in
// capitals, so that the names on a line are passed over.
#![tactic(auto)]

ghost use Rattle.std.specs.Prelude.{IfOk, ◌≤◌, length};

mod answers;
mod digest;
mod kinds;
mod lines;
mod plans;
mod ring_calls;
mod session_calls;
mod tally;

use std::io;
use std::io::Read;

fn main(rt: HostRuntime) -> io::Result<()> {
    let mut text = [0u8; 300000];
    run(&rt, &mut text)
}

fn run(rt: &(impl Input + Print), text: &mut [u8]) -> io::Result<()> {
    let n = read_full(&mut rt.reader(), text)?;
    lines::replay(&text[..n]).tell(rt)
}

// Reads until the text is full or the input ends; how many bytes it read. `read_to_end` takes a Vec, and there is no heap.
fn read_full(input: &mut impl Read, text: &mut [u8]) -> io::Result<usize>
    ensures { IfOk result (λ n. n ≤ length text.new) }
{
    let mut done = 0;
    while done < text.len() {
        let n = input.read(&mut text[done..])?;
        if n == 0 {
            return Ok(done);
        }
        done += n;
    }
    Ok(done)
}
