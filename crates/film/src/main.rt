// The film of `./run`: the library at work on a simulated controller, five scenes. What is drawn comes from the session and the ring
// that the proved calls gave; only prose and titles are literals.
#![tactic(auto)]

mod cells;
mod cut;
mod disk;
mod empty;
mod guard;
mod long;
mod play;
mod script;
mod step;
mod submission;

use std::io;

fn main(rt: HostRuntime) -> io::Result<()> {
    rt.print(
        "The film: a camera's ring and a disk's transfers on a simulated USB host
controller, played by the library. It is proved against document 01, the paper of
rules. Three earlier drivers failed in the field; the scenes say how, and why it
cannot happen here.

Driver and controller share a ring of slots, one slot a packet. A slot has two
words. Its address is stored first, then its status, whose top bit hands the slot
to the controller. One character below is one slot:

  .  free
  a  address stored, status still 0: the controller does not use it yet
  *  active, stored by this call
  A  active, stored by an earlier call
  s  served by the controller, result not collected yet
  !  held by two packets: written over before its result was collected
  ^  in the line below: the cursor, where a next packet would follow

",
    )?;
    submission::scene(&rt)?;
    guard::scene(&rt)?;
    cut::scene(&rt)?;
    long::scene(&rt)?;
    empty::scene(&rt)?;
    rt.print(
        "Read next: README.md, what stands where; docs/READING.md, a way through the rules
and the proofs; include/dwc2_port.h, these calls from C; crates/session/specs, the
rules that this film keeps, as the prover reads them.
",
    )
}
