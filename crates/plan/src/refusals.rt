// Why a planning call refuses, and a test that the calls share: document 01, "Refusal numbers".
ghost use Rattle.std.specs.Prelude.{◌≡◌};
ghost use Rattle.plan.specs.Numbers.{refusal_number};
ghost use Rattle.plan.specs.Refusals.{is_bad};

#[derive(Clone, Copy, Debug, PartialEq, Eq)]
pub enum PlanRefusal {
    ShortBuffer,
    BadEndpoint,
    ControlTooLong,
    TooManyDescriptors,
    AddressLimit,
}

// Document 01's number.
impl From<PlanRefusal> for u32 {
    ghost from_gives = { λ refusal n. n ≡ refusal_number refusal };

    fn from(refusal: PlanRefusal) -> u32 {
        match refusal {
            PlanRefusal::ShortBuffer => 17,
            PlanRefusal::BadEndpoint => 18,
            PlanRefusal::ControlTooLong => 19,
            PlanRefusal::TooManyDescriptors => 20,
            PlanRefusal::AddressLimit => 11,
        }
    }
}

pub(crate) fn is_bad(endpoint: u8, device: u8, packet: u16) -> bool
    ensures { result ≡ is_bad endpoint device packet }
{
    (endpoint > 15) | ((device > 127) | (packet > 2_047))
}
