// The exports of the C interface, include/dwc2_port.h: a function for each of crate `port` that C calls, under the same name and with the same
// promise, which only calls it.
#![tactic(auto)]

mod calls;
mod plans;
mod sums;
