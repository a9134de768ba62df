// The kinds of calls, by the numbers that begin their lines.
use crate::plans::PlanCall;
use crate::ring_calls::RingSum;
use crate::session_calls::SessionCall;

#[derive(Clone, Copy)]
pub(crate) enum Kind {
    Session(SessionCall),
    Ring(RingSum),
    Plan(PlanCall),
    // The controller's word in the ring, or the read-back's in the array.
    Store,
}

pub(crate) const COUNT: usize = 25;

pub(crate) const KINDS: [(Kind, &str); COUNT] = [
    (Kind::Session(SessionCall::Open), "open"),
    (Kind::Session(SessionCall::Submit), "submit"),
    (Kind::Session(SessionCall::Poll), "poll"),
    (Kind::Session(SessionCall::Reclaim), "reclaim"),
    (Kind::Session(SessionCall::Cancel), "cancel"),
    (Kind::Session(SessionCall::Reset), "reset"),
    (Kind::Store, "store into the ring"),
    (Kind::Ring(RingSum::Size), "ring size"),
    (Kind::Ring(RingSum::PacketLimit), "packet limit"),
    (Kind::Ring(RingSum::Gcd), "gcd"),
    (Kind::Ring(RingSum::Capacity), "capacity"),
    (Kind::Ring(RingSum::StartingFrame), "starting frame"),
    (Kind::Ring(RingSum::Slot), "slot of a frame"),
    (Kind::Ring(RingSum::Grid), "grid"),
    (Kind::Ring(RingSum::Schinfo), "SCHINFO"),
    (Kind::Ring(RingSum::FrameList), "frame list"),
    (Kind::Ring(RingSum::Pid), "PID"),
    (Kind::Ring(RingSum::NextNumber), "next number"),
    (Kind::Plan(PlanCall::Data), "data plan"),
    (Kind::Plan(PlanCall::Control), "control plan"),
    (Kind::Plan(PlanCall::ReadBack), "stage read back"),
    (Kind::Plan(PlanCall::Setup), "setup bytes"),
    (Kind::Plan(PlanCall::Split), "split"),
    (Kind::Plan(PlanCall::Packets), "packets"),
    (Kind::Store, "store into the array"),
];

// A number that is none of the kinds' is made as the count of packets, and not counted.
pub(crate) fn kind_of(number: u8) -> Kind {
    KINDS
        .get(usize::from(number))
        .map_or(Kind::Plan(PlanCall::Packets), |(kind, _)| *kind)
}
