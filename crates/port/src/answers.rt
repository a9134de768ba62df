// What the calls answer, as C has it: numbers only. include/dwc2_port.h says what each field means.
ghost use Rattle.std.specs.Prelude.{◌≡◌};
ghost use Rattle.session.specs.Numbers.{refusal_number, refusal_value, answer_number};
ghost use Rattle.port.specs.Tags.{flag_tag};
ghost use Rattle.port.specs.Calls.{port_reply, reply_refused, not_completed, reclaim_port, reclaim_refused, transfer_of, not_started, submit_port, submit_refused};

use crate::tags::Tagged;
use session::{IsoChannelStart, IsoCompletion, IsoRefusal, IsoSubmission, IsoTransfer};

#[repr(C)]
#[derive(Clone, Copy)]
pub struct PortReply {
    pub refusal: u32,
    pub taken: u32,
    pub halt: u32,
}

#[repr(C)]
#[derive(Clone, Copy)]
pub struct PortReclaimed {
    pub refusal: u32,
    pub completed: u32,
    pub outcome: u32,
    pub fault: u32,
    pub word: u32,
    pub length: u32,
    pub packets: u32,
    pub taken: u32,
    pub halt: u32,
}

#[repr(C)]
#[derive(Clone, Copy)]
pub struct PortTransfer {
    pub base: u64,
    pub buffer_len: u32,
    pub start_reading: u32,
    pub frame_reading: u32,
    pub words: u32,
    pub kind: u8,
    pub has_buffer: u8,
    pub channel_free: u8,
    pub gate_program: u8,
    pub gate_enable: u8,
}

#[repr(C)]
#[derive(Clone, Copy)]
pub struct PortSubmitted {
    pub value: u64,
    pub refusal: u32,
    pub cut: u32,
    pub first: u32,
    pub hcchar: u32,
    pub hctsiz: u32,
    pub hcintmsk: u32,
    pub frame_count: u32,
    pub frames: [u8; 64],
}

// The number of a refusal, as C has it.
pub(crate) fn refusal_number(refusal: IsoRefusal) -> u32
    ensures { result ≡ refusal_number refusal }
{
    u32::from(u16::from(refusal))
}

fn answer_number(answer: Result<(), IsoRefusal>) -> u32
    ensures { result ≡ answer_number answer }
{
    match answer {
        Ok(()) => 0,
        Err(refusal) => refusal_number(refusal),
    }
}

pub(crate) fn reply_refused(refusal: IsoRefusal) -> PortReply
    ensures { result ≡ reply_refused (refusal_number refusal) }
{
    reply_port(Err(refusal), false, false)
}

pub(crate) fn reply_port(answer: Result<(), IsoRefusal>, taken: bool, halt: bool) -> PortReply
    ensures { result ≡ port_reply (answer_number answer) (flag_tag taken) (flag_tag halt) }
{
    PortReply {
        refusal: answer_number(answer),
        taken: u32::from(taken),
        halt: u32::from(halt),
    }
}

fn not_completed(refusal: u32, taken: bool, halt: bool) -> PortReclaimed
    ensures { result ≡ not_completed refusal (flag_tag taken) (flag_tag halt) }
{
    PortReclaimed {
        refusal,
        completed: 0,
        outcome: 0,
        fault: 0,
        word: 0,
        length: 0,
        packets: 0,
        taken: u32::from(taken),
        halt: u32::from(halt),
    }
}

pub(crate) fn reclaim_refused(refusal: IsoRefusal) -> PortReclaimed
    ensures { result ≡ reclaim_refused (refusal_number refusal) }
{
    not_completed(refusal_number(refusal), false, false)
}

pub(crate) fn reclaim_port(
    answer: Result<Option<IsoCompletion>, IsoRefusal>,
    taken: bool,
    halt: bool,
) -> PortReclaimed
    ensures { result ≡ reclaim_port answer (flag_tag taken) (flag_tag halt) }
{
    match answer {
        Ok(Some(completion)) => {
            let t = Tagged::from(completion.outcome);
            PortReclaimed {
                refusal: 0,
                completed: 1,
                outcome: u32::from(t.tag),
                fault: u32::from(t.kind),
                word: t.word,
                length: completion.actual_length,
                packets: u32::from(completion.packets),
                taken: u32::from(taken),
                halt: u32::from(halt),
            }
        }
        Ok(None) => not_completed(0, taken, halt),
        Err(refusal) => not_completed(refusal_number(refusal), taken, halt),
    }
}

pub(crate) fn transfer_of(t: PortTransfer) -> IsoTransfer
    ensures { result ≡ transfer_of t }
{
    IsoTransfer {
        isochronous: t.kind == 1,
        has_buffer: t.has_buffer != 0,
        buffer_len: t.buffer_len,
        base: t.base,
        start_reading: t.start_reading,
        frame_reading: t.frame_reading,
        channel_free: t.channel_free != 0,
        gate_program: t.gate_program != 0,
        gate_enable: t.gate_enable != 0,
        words: t.words,
    }
}

// What comes with a refusal: the index of the first packet that is too long.
fn refusal_value(refusal: IsoRefusal) -> u64
    ensures { result ≡ refusal_value refusal }
{
    match refusal {
        IsoRefusal::PacketTooLong(index) => u64::from(index),
        _ => 0,
    }
}

// An answer with nothing to program.
fn not_started(value: u64, refusal: u32, cut: u32) -> PortSubmitted
    ensures { result ≡ not_started value refusal cut }
{
    PortSubmitted {
        value,
        refusal,
        cut,
        first: 0,
        hcchar: 0,
        hctsiz: 0,
        hcintmsk: 0,
        frame_count: 0,
        frames: [0; 64],
    }
}

pub(crate) fn submit_refused(refusal: IsoRefusal) -> PortSubmitted
    ensures { result ≡ submit_refused (refusal_number refusal) }
{
    not_started(0, refusal_number(refusal), 0)
}

pub(crate) fn submit_port(
    answer: Result<IsoSubmission, IsoRefusal>,
    start: Option<IsoChannelStart>,
) -> PortSubmitted
    ensures { result ≡ submit_port answer start }
{
    let (value, refusal, cut) = match answer {
        Ok(IsoSubmission::Accepted(id)) => (id, 0, 0),
        Ok(IsoSubmission::Cut) => (0, 0, 1),
        Err(refusal) => (refusal_value(refusal), refusal_number(refusal), 0),
    };
    let Some(start) = start else {
        return not_started(value, refusal, cut);
    };
    let list = start.frames;
    let frames = list.frames;
    PortSubmitted {
        value,
        refusal,
        cut,
        first: 1,
        hcchar: start.hcchar,
        hctsiz: start.hctsiz,
        hcintmsk: start.hcintmsk,
        frame_count: u32::from(list.count),
        frames,
    }
}
