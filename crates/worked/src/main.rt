// Document 01's worked numbers through the code: each on a line beside what the code answers. The claim that the definitions
// give them stands in proofs/Claim.antt.
#![tactic(auto)]

mod camera;
mod planning;
mod ring_sums;
mod row;

use std::io;

fn main(rt: HostRuntime) -> io::Result<()> {
    let wrong = ring_sums::all(&rt)? + planning::p7(&rt)? + camera::p6(&rt)? + camera::p8(&rt)?;
    row::last(&rt, wrong)
}
