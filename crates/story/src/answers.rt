// The session's answers as numbers.
ghost use Rattle.std.specs.Prelude.{◌≡◌, Ok, Err};
ghost use Rattle.session.specs.declared.refusal.IsoRefusal.{IsoRefusal};
ghost use Rattle.session.specs.Numbers.{refusal_number, submit_value, reclaim_length, reclaim_packets};

use session::{IsoCompletion, IsoOutcome, IsoRefusal, IsoSubmission};

// 0 for a call that is not refused.
pub(crate) fn refusal_of<T: Copy>(answer: Result<T, IsoRefusal>) -> u64
    ensures done { (given : T) → answer ≡ Ok given → result ≡ 0 }
    ensures refused { (refusal : IsoRefusal) → answer ≡ Err refusal → result ≡ refusal_number refusal }
{
    match answer {
        Ok(_) => 0,
        Err(refusal) => u64::from(u16::from(refusal)),
    }
}

// The number that a submission drew, or the index of the packet that is too long.
pub(crate) fn number_of(answer: Result<IsoSubmission, IsoRefusal>) -> u64
    ensures { result ≡ submit_value answer }
{
    match answer {
        Ok(IsoSubmission::Accepted(id)) => id,
        Err(IsoRefusal::PacketTooLong(index)) => u64::from(index),
        Ok(IsoSubmission::Cut) | Err(_) => 0,
    }
}

pub(crate) fn total_of(answer: Result<Option<IsoCompletion>, IsoRefusal>) -> u64
    ensures { result ≡ reclaim_length answer }
{
    match answer {
        Ok(Some(completion)) => u64::from(completion.actual_length),
        Ok(None) | Err(_) => 0,
    }
}

pub(crate) fn packets_of(answer: Result<Option<IsoCompletion>, IsoRefusal>) -> u64
    ensures { result ≡ reclaim_packets answer }
{
    match answer {
        Ok(Some(completion)) => u64::from(completion.packets),
        Ok(None) | Err(_) => 0,
    }
}

// Done 0, disconnected 1, cancelled 2, a fault 3, an unexpected halt 4; not yet 5, and refused 6.
pub(crate) fn outcome_of(answer: Result<Option<IsoCompletion>, IsoRefusal>) -> u64 {
    match answer {
        Ok(Some(completion)) => kind_of(completion.outcome),
        Ok(None) => 5,
        Err(_) => 6,
    }
}

fn kind_of(outcome: IsoOutcome) -> u64 {
    match outcome {
        IsoOutcome::Done => 0,
        IsoOutcome::Disconnected => 1,
        IsoOutcome::Cancelled => 2,
        IsoOutcome::Fault(_, _) => 3,
        IsoOutcome::UnexpectedHalt(_) => 4,
    }
}

// The interrupt word of a fault or of an unexpected halt.
pub(crate) fn word_of(answer: Result<Option<IsoCompletion>, IsoRefusal>) -> u32 {
    match answer {
        Ok(Some(completion)) => halt_word(completion.outcome),
        Ok(None) | Err(_) => 0,
    }
}

fn halt_word(outcome: IsoOutcome) -> u32 {
    match outcome {
        IsoOutcome::Done | IsoOutcome::Disconnected | IsoOutcome::Cancelled => 0,
        IsoOutcome::Fault(_, word) | IsoOutcome::UnexpectedHalt(word) => word,
    }
}
