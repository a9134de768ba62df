// Scene 1: document 01's P8, word by word.
use crate::cells::Strip;
use crate::play::{Seen, cursor, play};
use crate::script::WORD_BY_WORD;
use crate::step::Said;
use std::io;

pub(crate) fn scene(rt: &impl Print) -> io::Result<()> {
    rt.print(
        "1. A submission, word by word
   High speed, interval 8, three packets of 192 bytes at address 0x1000 (document
   01, P8). The same call is made seven times, with one word more that it may
   store; a call that is cut hands the session back as it came. Wherever power
   fails, a slot that is active has both its words.

words       slots 20 to 51                    last word stored
",
    )?;
    let seen = play(&WORD_BY_WORD);
    for (words, act) in seen.iter().enumerate() {
        print!(rt;
            "{words} {:<10}{}  ",
            outcome(act),
            Strip(&act.cells[20..52])
        )?;
        match act.change {
            Some(change) => println!(rt; "{change}")?,
            None => println!(rt; "none")?,
        }
    }
    whole(rt, &seen[6])
}

fn outcome(act: &Seen) -> &'static str {
    match act.said {
        Some(Said::Cut) => "cut",
        Some(Said::Accepted(_)) => "accepted",
        _ => "refused",
    }
}

fn whole(rt: &impl Print, act: &Seen) -> io::Result<()> {
    println!(rt; "\n   The whole ring of 256 slots after it:\n")?;
    println!(rt; "slots 0     {}", Strip(&act.cells[..64]))?;
    cursor(rt, act)?;
    println!(rt; "slots 64    {}", Strip(&act.cells[64..128]))?;
    println!(rt; "slots 128   {}", Strip(&act.cells[128..192]))?;
    println!(rt; "slots 192   {}\n", Strip(&act.cells[192..]))
}
