// The refusals of document 01's table that a session call answers. What each stands for in a number is `refusal_number`.
ghost use Rattle.std.specs.Prelude.{◌≡◌};
ghost use Rattle.session.specs.Numbers.{refusal_number};

// In 01's order, 1 to 18; a packet that is too long comes with the index of the first.
#[derive(Clone, Copy, Debug, PartialEq, Eq)]
pub enum IsoRefusal {
    Ending,
    LowSpeed,
    NotIsochronous,
    NoPackets,
    NoBuffer,
    OverCapacity,
    OverCapacityPending,
    TablesFull,
    PacketTooLong(u32),
    LengthsDiffer,
    AddressLimit,
    NoChannel,
    SlotHeld,
    Unplugged,
    UnknownRequest,
    NotEmpty,
    ShortBuffer,
    BadRecord,
}

impl From<IsoRefusal> for u16 {
    ghost from_gives = { λ refusal r. r ≡ refusal_number refusal };

    fn from(refusal: IsoRefusal) -> u16 {
        match refusal {
            IsoRefusal::Ending => 1,
            IsoRefusal::LowSpeed => 2,
            IsoRefusal::NotIsochronous => 3,
            IsoRefusal::NoPackets => 4,
            IsoRefusal::NoBuffer => 5,
            IsoRefusal::OverCapacity => 6,
            IsoRefusal::OverCapacityPending => 7,
            IsoRefusal::TablesFull => 8,
            IsoRefusal::PacketTooLong(_) => 9,
            IsoRefusal::LengthsDiffer => 10,
            IsoRefusal::AddressLimit => 11,
            IsoRefusal::NoChannel => 12,
            IsoRefusal::SlotHeld => 13,
            IsoRefusal::Unplugged => 14,
            IsoRefusal::UnknownRequest => 15,
            IsoRefusal::NotEmpty => 16,
            IsoRefusal::ShortBuffer => 17,
            IsoRefusal::BadRecord => 18,
        }
    }
}
