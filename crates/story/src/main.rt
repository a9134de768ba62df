// The session of document 01 played on a simulated controller: each answer on a line beside the number worked out by hand from
// document 01. Yes is 1, no is 0, and a call that is not refused answers 0.
#![tactic(auto)]

mod answers;
mod begin;
mod calls;
mod end;
mod fault;
mod play;
mod row;

use std::io;

fn main(rt: HostRuntime) -> io::Result<()> {
    let seen = play::all();
    row::last(
        &rt,
        begin::all(&rt, &seen)? + fault::all(&rt, &seen)? + end::all(&rt, &seen)?,
    )
}
