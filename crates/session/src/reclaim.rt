// Reclaiming: document 01, "Reclaim". A completed request is handed out once; the tables close up behind it, so that its room is free at once.
ghost use Rattle.std.specs.Prelude.{◌≡◌, false, map, ◌+◌, ◌≤◌, ◌<◌, length};
ghost use Rattle.std.proofs.lemmas.List.Edits.{sets};
ghost use Rattle.session.specs.Session.{ring_words};
ghost use Rattle.session.specs.Record.{is_bad_record};
ghost use Rattle.session.specs.Reclaim.{is_done, error_bit, result_word, looked, looked_ring, plans_begin, plans_end, removed, handed_length, handed_answer, handed_results, reclaim_reply, looked_again, looked_results, reclaimed, reclaimed_ring, reclaimed_results};

use crate::open::ring_words;
use crate::refusal::IsoRefusal;
use crate::reply::{IsoCompletion, IsoEvent, IsoReply, Reclaimed, done};
use crate::tables::packets_of;
use crate::types::{IsoChannelState, IsoOutcome, IsoPacketPlan, IsoRequest, TransferStatus};

// Public for who holds a record in bytes (docs/PROMISES.md); here the library's `==` says the same.
pub fn is_done(outcome: IsoOutcome) -> bool
    ensures { result ≡ is_done outcome }
{
    outcome == IsoOutcome::Done
}

fn error_bit(status: TransferStatus) -> u32
    ensures { (result ≡ error_bit status) × (result ≤ 16777216) }
{
    match status {
        TransferStatus::Completed => 0,
        TransferStatus::Error => 16_777_216,
    }
}

// One packet's result: the length moved, the length asked for and whether it failed.
fn result_word(plan: IsoPacketPlan) -> u64
    ensures { result ≡ result_word plan }
{
    u64::from(plan.actual) + 4_096 * u64::from(plan.planned) + u64::from(error_bit(plan.status))
}

// The results of some plans; those behind them stay.
fn write_results(plans: &[IsoPacketPlan], results: &mut [u64])
    requires { length plans.now ≤ length results.old }
    ensures { results.new ≡ sets results.old 0 (map result_word plans.now) }
{
    for (i, plan) in plans.iter().enumerate() {
        results[i] = result_word(*plan);
    }
}

fn reclaim_reply(
    answer: Result<Option<IsoCompletion>, IsoRefusal>,
    taken: bool,
    halt: bool,
    session: IsoChannelState,
) -> Reclaimed
    ensures { result ≡ reclaim_reply answer taken halt session }
{
    Reclaimed {
        answer,
        taken,
        halt,
        session,
    }
}

// An error has no length.
fn handed_length(request: IsoRequest) -> u32
    ensures { result ≡ handed_length request }
{
    if request.outcome == IsoOutcome::Done {
        request.actual_length
    } else {
        0
    }
}

pub fn handed_answer(request: IsoRequest) -> IsoCompletion
    ensures { result ≡ handed_answer request }
{
    IsoCompletion {
        outcome: request.outcome,
        actual_length: handed_length(request),
        packets: request.packets,
    }
}

impl IsoChannelState {
    // Where the plans of the request at `at` begin, and where they end.
    pub(crate) fn plans_begin(&self, at: usize) -> usize
        requires { (is_bad_record self.now ≡ false) × (at < self.now.head.count) }
        ensures { result ≡ plans_begin at self.now }
    {
        packets_of(&self.requests[..at])
    }

    pub(crate) fn plans_end(&self, at: usize) -> usize
        requires { (is_bad_record self.now ≡ false) × (at < self.now.head.count) }
        ensures { (result ≡ plans_end at self.now) × (plans_begin at self.now < result) × (result ≤ plans_begin at self.now + 255) × (result ≤ 1024) }
    {
        self.plans_begin(at) + usize::from(self.requests[at].packets)
    }

    // The session without the request at `at` and without its plans.
    fn remove(mut self, at: usize) -> Self
        requires { (is_bad_record self ≡ false) × (at < self.head.done) }
        ensures { result ≡ removed at self }
    {
        let from = self.plans_begin(at);
        let to = self.plans_end(at);
        let count = usize::from(self.head.count);
        let all = packets_of(&self.requests[..count]);
        self.plans.copy_within(to..all, from);
        self.requests.copy_within(at + 1..count, at);
        self.head.done -= 1;
        self.head.count -= 1;
        self
    }

    // The results of the request at `at`, unless it ended in an error.
    fn hand_results(&self, at: usize, results: &mut [u64])
        requires { (is_bad_record self.now ≡ false) × (at < self.now.head.done) × (255 ≤ length results.old) }
        ensures { results.new ≡ handed_results at self.now results.old }
    {
        let ended = self.requests[at].outcome;
        if ended == IsoOutcome::Done {
            let from = self.plans_begin(at);
            let to = self.plans_end(at);
            write_results(&self.plans[from..to], results);
        }
    }

    // Polls, unless the request is completed already.
    fn look(self, id: u64, event: Option<IsoEvent>, ring: &mut [u32]) -> IsoReply
        requires { (is_bad_record self ≡ false) × (ring_words self.cfg ≤ length ring.old) }
        ensures { (result ≡ looked id event self ring.old) × (ring.new ≡ looked_ring id event self ring.old) }
    {
        match self.find(id) {
            Some(at) if at < usize::from(self.head.done) => done(false, false, self),
            _ => self.poll_by(self.poll_way(event), ring),
        }
    }

    // Hands the request out where it is completed.
    fn look_again(self, id: u64, taken: bool, halt: bool, results: &mut [u64]) -> Reclaimed
        requires { (is_bad_record self ≡ false) × (255 ≤ length results.old) }
        ensures { (result ≡ looked_again id taken halt self) × (results.new ≡ looked_results id self results.old) }
    {
        match self.find(id) {
            Some(at) if at < usize::from(self.head.done) => {
                let answer = handed_answer(self.requests[at]);
                self.hand_results(at, results);
                reclaim_reply(Ok(Some(answer)), taken, halt, self.remove(at))
            }
            Some(_) => reclaim_reply(Ok(None), taken, halt, self),
            None => reclaim_reply(Err(IsoRefusal::UnknownRequest), taken, halt, self),
        }
    }

    // Hands out the completed request with the number: its outcome and, unless that is an error, a result for each packet.
    pub fn reclaim(
        self,
        id: u64,
        event: Option<IsoEvent>,
        ring: &mut [u32],
        results: &mut [u64],
    ) -> Reclaimed
        ensures { (result ≡ reclaimed self id event ring.old (length results.old))
            × (ring.new ≡ reclaimed_ring self id event ring.old (length results.old))
            × (results.new ≡ reclaimed_results self id event ring.old results.old) }
    {
        let words = ring_words(self.cfg);
        if ring.len() < words || results.len() < 255 {
            return reclaim_reply(Err(IsoRefusal::ShortBuffer), false, false, self);
        }
        if self.is_bad_record() {
            return reclaim_reply(Err(IsoRefusal::BadRecord), false, false, self);
        }
        let reply = self.look(id, event, ring);
        reply
            .session
            .look_again(id, reply.taken, reply.halt, results)
    }
}
