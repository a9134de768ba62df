// Scene 2: document 01's P6, in both modes.
use crate::cells::Strip;
use crate::play::{Seen, play};
use crate::script::{COMPATIBLE, GUARDED};
use std::io;

// The two acts of serving are one row.
pub(crate) fn scene(rt: &impl Print) -> io::Result<()> {
    rt.print(
        "2. A slot whose result nobody has collected
   Full speed, interval 1 (document 01, P6). Request 1 stands in slots 10 and 11,
   and the controller has served both: 100 bytes came, then 192. Now two packets
   more are submitted at frame reading 71, for which slots 9 and 10 are next.
   Field failure 3: crab-usb 0.12.1 writes over slot 10, and the recording looks
   whole and isn't. Guarded mode refuses.

            as crab-usb 0.12.1 does             guarded mode
            slots 0 to 31                       slots 0 to 31
",
    )?;
    let left = play(&COMPATIBLE);
    let right = play(&GUARDED);
    row(rt, "submit", &left[0], &right[0])?;
    row(rt, "serve", &left[2], &right[2])?;
    row(rt, "submit", &left[3], &right[3])?;
    row(rt, "collect", &left[4], &right[4])?;
    row(rt, "then", &left[5], &right[5])?;
    rt.print(
        "
   On the left 100 bytes of request 1 are lost, and request 2 is handed out with
   192 bytes before the controller has touched it; no error is reported. On the
   right nothing is lost, and the submission is made again.

",
    )
}

// An act in both runs: 32 cells each, the cursors below them, and what was said where something was.
fn row(rt: &impl Print, name: &str, left: &Seen, right: &Seen) -> io::Result<()> {
    println!(rt;
        "{name:<12}{}    {}",
        Strip(&left.cells[..32]),
        Strip(&right.cells[..32])
    )?;
    let at = usize::from(left.cursor % 32);
    let column = 12 + at;
    let gap = 35 - at + usize::from(right.cursor % 32);
    println!(rt; "{:column$}^{:gap$}^", "", "")?;
    if let (Some(left), Some(right)) = (left.said, right.said) {
        println!(rt; "            left: {left}; right: {right}")?;
    }
    Ok(())
}
