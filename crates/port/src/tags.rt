// Enums as bytes: the number of each case, and the case of each number.
ghost use Rattle.std.specs.Prelude.{◌≡◌, cond, nat_lt, Some, None};
ghost use Rattle.words.specs.Numbers.{fault_bit};
ghost use Rattle.port.specs.Tags.{speed_tag, speed_of, direction_tag, direction_of, mode_tag, mode_of, status_tag, status_of, flag_tag};
ghost use Rattle.port.specs.Tags.{fault_of, is_fault, outcome_tagged, outcome_of, reason_tagged, fatal_tagged, fatal_of, is_bad_tagged};
ghost use Rattle.port.specs.Sums.{is_bad_speed, is_bad_direction};

use ring::Speed;
use session::{IsoHaltReason, IsoMode, IsoOutcome, TransferStatus};
use words::{Direction, Dwc2TransferFault};

// A tag, with the fault and the interrupt word that go with it.
#[derive(Clone, Copy, Debug, PartialEq, Eq)]
pub(crate) struct Tagged {
    pub tag: u8,
    pub kind: u8,
    pub word: u32,
}

// The tag 0, with neither.
const BARE: Tagged = Tagged {
    tag: 0,
    kind: 0,
    word: 0,
};

// `From` between a byte and an enum of another crate is for that crate to write, and session may not know the layout: each direction is a function.
pub(crate) fn speed_tag(speed: Speed) -> u8
    ensures { result ≡ speed_tag speed }
{
    match speed {
        Speed::High => 0,
        Speed::Full => 1,
        Speed::Low => 2,
    }
}

pub(crate) fn speed_of(tag: u8) -> Speed
    ensures { result ≡ speed_of tag }
{
    match tag {
        0 => Speed::High,
        1 => Speed::Full,
        _ => Speed::Low,
    }
}

pub(crate) fn is_bad_speed(speed: u8) -> bool
    ensures { result ≡ is_bad_speed speed }
{
    speed > 2
}

// The speed that a number names.
pub(crate) fn named_speed(speed: u8) -> Option<Speed>
    ensures { result ≡ cond (is_bad_speed speed) None (Some (speed_of speed)) }
{
    (!is_bad_speed(speed)).then(|| speed_of(speed))
}

pub(crate) fn direction_tag(direction: Direction) -> u8
    ensures { result ≡ direction_tag direction }
{
    u32::from(direction) as u8
}

pub(crate) fn direction_of(tag: u8) -> Direction
    ensures { result ≡ direction_of tag }
{
    match tag {
        0 => Direction::Out,
        _ => Direction::In,
    }
}

pub(crate) fn is_bad_direction(direction: u8) -> bool
    ensures { result ≡ is_bad_direction direction }
{
    direction > 1
}

// The direction that a number names.
pub(crate) fn named_direction(direction: u8) -> Option<Direction>
    ensures { result ≡ cond (is_bad_direction direction) None (Some (direction_of direction)) }
{
    (!is_bad_direction(direction)).then(|| direction_of(direction))
}

pub(crate) fn mode_tag(mode: IsoMode) -> u8
    ensures { result ≡ mode_tag mode }
{
    match mode {
        IsoMode::Compatible => 0,
        IsoMode::Guarded => 1,
    }
}

pub(crate) fn mode_of(tag: u8) -> IsoMode
    ensures { result ≡ mode_of tag }
{
    match tag {
        0 => IsoMode::Compatible,
        _ => IsoMode::Guarded,
    }
}

// The mode that a number names.
pub(crate) fn named_mode(mode: u8) -> Option<IsoMode>
    ensures { result ≡ cond (nat_lt 1 mode) None (Some (mode_of mode)) }
{
    (mode <= 1).then(|| mode_of(mode))
}

pub(crate) fn status_tag(status: TransferStatus) -> u8
    ensures { result ≡ status_tag status }
{
    match status {
        TransferStatus::Completed => 0,
        TransferStatus::Error => 1,
    }
}

pub(crate) fn status_of(tag: u8) -> TransferStatus
    ensures { result ≡ status_of tag }
{
    match tag {
        0 => TransferStatus::Completed,
        _ => TransferStatus::Error,
    }
}

pub(crate) fn flag_tag(flag: bool) -> u8
    ensures { result ≡ flag_tag flag }
{
    u8::from(flag)
}

// A fault is its bit of HCINT.
fn fault_tag(fault: Dwc2TransferFault) -> u8
    ensures { result ≡ fault_bit fault }
{
    u32::from(fault) as u8
}

fn fault_of(kind: u8) -> Dwc2TransferFault
    ensures { result ≡ fault_of kind }
{
    match kind {
        2 => Dwc2TransferFault::Ahb,
        3 => Dwc2TransferFault::Stall,
        7 => Dwc2TransferFault::Transaction,
        8 => Dwc2TransferFault::Babble,
        9 => Dwc2TransferFault::FrameOverrun,
        _ => Dwc2TransferFault::DataToggle,
    }
}

fn is_fault(kind: u8) -> bool
    ensures { result ≡ is_fault kind }
{
    matches!(kind, 2 | 3 | 7..=10)
}

impl From<IsoOutcome> for Tagged {
    ghost from_gives = { λ outcome t. t ≡ outcome_tagged outcome };

    fn from(outcome: IsoOutcome) -> Tagged {
        match outcome {
            IsoOutcome::Done => BARE,
            IsoOutcome::Disconnected => Tagged { tag: 1, ..BARE },
            IsoOutcome::Cancelled => Tagged { tag: 2, ..BARE },
            IsoOutcome::Fault(fault, word) => Tagged {
                tag: 3,
                kind: fault_tag(fault),
                word,
            },
            IsoOutcome::UnexpectedHalt(word) => Tagged {
                tag: 4,
                word,
                ..BARE
            },
        }
    }
}

impl From<Tagged> for IsoOutcome {
    ghost from_gives = { λ t outcome. outcome ≡ outcome_of t };

    fn from(t: Tagged) -> IsoOutcome {
        match t.tag {
            0 => IsoOutcome::Done,
            1 => IsoOutcome::Disconnected,
            2 => IsoOutcome::Cancelled,
            3 => IsoOutcome::Fault(fault_of(t.kind), t.word),
            _ => IsoOutcome::UnexpectedHalt(t.word),
        }
    }
}

impl From<IsoHaltReason> for Tagged {
    ghost from_gives = { λ reason t. t ≡ reason_tagged reason };

    fn from(reason: IsoHaltReason) -> Tagged {
        match reason {
            IsoHaltReason::Cancelled => Tagged { tag: 1, ..BARE },
            IsoHaltReason::Fault(fault, word) => Tagged {
                tag: 2,
                kind: fault_tag(fault),
                word,
            },
        }
    }
}

impl From<Option<IsoHaltReason>> for Tagged {
    ghost from_gives = { λ fatal t. t ≡ fatal_tagged fatal };

    fn from(fatal: Option<IsoHaltReason>) -> Tagged {
        match fatal {
            None => BARE,
            Some(reason) => Tagged::from(reason),
        }
    }
}

impl From<Tagged> for Option<IsoHaltReason> {
    ghost from_gives = { λ t fatal. fatal ≡ fatal_of t };

    fn from(t: Tagged) -> Option<IsoHaltReason> {
        match t.tag {
            0 => None,
            1 => Some(IsoHaltReason::Cancelled),
            _ => Some(IsoHaltReason::Fault(fault_of(t.kind), t.word)),
        }
    }
}

// Tags up to `last`; the tag `fault` alone has a fault, and those below it have no word.
pub(crate) fn is_bad_tagged(fault: u8, last: u8, t: Tagged) -> bool
    ensures { result ≡ is_bad_tagged fault last t }
{
    t.tag > last
        || (if t.tag == fault {
            !is_fault(t.kind)
        } else {
            t.kind != 0
        })
        || (t.tag < fault && t.word != 0)
}
