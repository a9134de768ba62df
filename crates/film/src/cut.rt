// Scene 3: a submission that is cut in the middle of a packet, and the recovery from it.
use crate::cells::Strip;
use crate::play::{Seen, cursor, play};
use crate::script::CUT_SHORT;
use std::io;

pub(crate) fn scene(rt: &impl Print) -> io::Result<()> {
    rt.print(
        "3. Power fails in the middle of a packet
   Full speed, guarded. Request 1 holds slots 10 to 12, and slot 10 is served. A
   request of four packets is cut after five of its eight words: two packets are
   whole, the third has only its address. Recovery takes the session from before
   the cut. It leaves no slot behind that the controller could run on, and reports
   each pending request once. Field failure 1: after a dip the old driver went on.

",
    )?;
    let seen = play(&CUT_SHORT);
    row(rt, "before", &seen[1])?;
    row(rt, "cut", &seen[2])?;
    row(rt, "recovered", &seen[3])?;
    said(rt, &seen[4])?;
    row(rt, "again", &seen[5])?;
    said(rt, &seen[5])?;
    println!(rt)
}

fn row(rt: &impl Print, name: &str, act: &Seen) -> io::Result<()> {
    println!(rt; "{name:<12}{}", Strip(&act.cells[..64]))?;
    cursor(rt, act)
}

fn said(rt: &impl Print, act: &Seen) -> io::Result<()> {
    if let Some(said) = act.said {
        println!(rt; "            {said}")?;
    }
    Ok(())
}
