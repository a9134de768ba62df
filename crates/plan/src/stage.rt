// A stage's descriptors in the caller's array, written before it runs and read back after: document 01, "Planning transfers".
ghost use Rattle.std.specs.Prelude.{◌≡◌, ◌+◌, ◌-◌, ◌*◌, ◌<◌, ◌≤◌, length, ◌==◌, slice_set, Ok};
ghost use Rattle.plan.specs.declared.types.Dwc2StageRole.TheVariants.{Data};
ghost use Rattle.std.proofs.lemmas.List.Edits.{sets};
ghost use Rattle.words.specs.Field.{get};
ghost use Rattle.words.specs.Words.{packets, packet_size, direction_in, byte_count, is_set};
ghost use Rattle.plan.specs.Planning.{stage_of, role_words, stage_words, laid_stage};
ghost use Rattle.plan.specs.StageLength.{StageFits, ChainFits, link_of, link_moved, chain_moved, is_forged, stage_moved, stage_answer, stage_length};

use crate::refusals::PlanRefusal;
use crate::split::chunk_of;
use crate::types::{Dwc2StageRole, Dwc2TransferStage};
use words::{DmaDescriptor, Dwc2Pid};

// `descs` descriptors of the array from number `base` on, for `len` bytes from `addr` on.
#[derive(Clone, Copy)]
pub(crate) struct Stretch {
    pub base: u32,
    pub descs: u32,
    pub addr: u32,
    pub len: u32,
}

impl Dwc2TransferStage {
    pub(crate) fn new(role: Dwc2StageRole, hcchar: u32, pid: Dwc2Pid, over: Stretch) -> Self
        ensures { result ≡ stage_of role hcchar pid over.addr over.base over.descs over.len }
    {
        Dwc2TransferStage {
            role,
            hcchar,
            hctsiz: words::hctsiz_ddma(pid, over.descs, 0),
            dma_addr: over.addr,
            desc_base: over.base,
            descs: over.descs,
            len: over.len,
        }
    }
}

// Writes the stage's descriptors into its own stretch of the array.
pub(crate) fn build_stage_descs(stage: Dwc2TransferStage, array: &mut [u32])
    requires { StageFits stage (length array.old) }
    ensures { array.new ≡ laid_stage stage array.old }
{
    let at = 2 * stage.desc_base as usize;
    fill_stage(stage, &mut array[at..]);
}

// The stage's descriptors, at the front of its stretch: a chain, unless it is a setup stage.
fn fill_stage(stage: Dwc2TransferStage, words: &mut [u32])
    requires { ChainFits (get packet_size stage.hcchar) stage.descs stage.len stage.dma_addr (length words.old) }
    ensures { words.new ≡ sets words.old 0 (stage_words stage) }
{
    match stage.role {
        Dwc2StageRole::ControlSetup => put_link(words, 0, DmaDescriptor::new_setup(stage.dma_addr)),
        Dwc2StageRole::Data | Dwc2StageRole::ControlData | Dwc2StageRole::ControlStatus => {
            fill_chain(stage, words)
        }
    }
}

// Every descriptor takes the chunk but the last, which takes the rest and ends the chain.
fn fill_chain(stage: Dwc2TransferStage, words: &mut [u32])
    requires { ChainFits (get packet_size stage.hcchar) stage.descs stage.len stage.dma_addr (length words.old) }
    ensures { words.new ≡ sets words.old 0 (role_words Data stage) }
{
    let mps = mps_of(stage.hcchar);
    let is_in = is_in_of(stage.hcchar);
    let chunk = chunk_of(mps);
    let last = stage.descs as usize - 1;
    let mut buf = stage.dma_addr;
    for i in 0..last {
        put_link(words, 2 * i, link(buf, chunk, mps, is_in, false));
        buf += chunk;
    }
    let rest = stage.len - last as u32 * chunk;
    put_link(words, 2 * last, link(buf, rest, mps, is_in, true));
}

fn link(paddr: u32, len: u32, mps: u16, is_in: bool, last: bool) -> DmaDescriptor
    ensures { result ≡ link_of paddr len mps is_in last }
{
    if is_in {
        return DmaDescriptor::new_in(paddr, len, mps, last);
    }
    DmaDescriptor::new_out(paddr, len, mps, last)
}

fn put_link(words: &mut [u32], at: usize, desc: DmaDescriptor)
    requires { at + 1 < length words.old }
    ensures { words.new ≡ slice_set (slice_set words.old at desc.status) (at + 1) desc.paddr }
{
    words[at] = desc.status;
    words[at + 1] = desc.paddr;
}

// The packet size and the direction that the channel is programmed with.
fn mps_of(hcchar: u32) -> u16
    ensures { (result ≡ get packet_size hcchar) × (result < 2048) }
{
    (hcchar % 2_048) as u16
}

fn is_in_of(hcchar: u32) -> bool
    ensures { result ≡ is_set direction_in hcchar }
{
    hcchar / 0x8000 % 2 == 1
}

// The bytes that a finished stage moved, from the counts that the controller left in the array. OUT leaves none, and counts as
// whole. Refused with 17, then with 18 for a stage that no planner makes.
pub fn stage_actual_length(stage: Dwc2TransferStage, array: &[u32]) -> Result<u32, PlanRefusal>
    ensures { result ≡ stage_length stage array.now }
{
    if array.len() < 2_048 {
        return Err(PlanRefusal::ShortBuffer);
    }
    if is_forged(stage) {
        return Err(PlanRefusal::BadEndpoint);
    }
    Ok(stage_moved(stage, array))
}

fn is_forged(stage: Dwc2TransferStage) -> bool
    ensures { result ≡ is_forged stage }
{
    let mps = mps_of(stage.hcchar);
    let chunk = chunk_of(mps);
    (mps == 0)
        | (stage.descs > 256)
        | (stage.desc_base as u64 + stage.descs as u64 > 1_024)
        | !is_count(stage.len, chunk, stage.descs)
}

// Whether a length falls into so many parts: the last of them begins within it and ends no earlier. This spares a division.
fn is_count(len: u32, part: u32, count: u32) -> bool
    requires { 0 < part }
    ensures { result ≡ (count == packets len part) }
{
    if len == 0 {
        return count == 1;
    }
    if count == 0 {
        return false;
    }
    let before = (count as u64 - 1) * part as u64;
    let behind = before + part as u64;
    (before < len as u64) & !(behind < len as u64)
}

fn stage_moved(stage: Dwc2TransferStage, array: &[u32]) -> u32
    requires { stage_answer stage (length array.now) ≡ Ok tt }
    ensures { result ≡ stage_moved stage array.now }
{
    if is_in_of(stage.hcchar) {
        return chain_moved(stage, array);
    }
    stage.len
}

// The sum over the descriptors. One that was not reached keeps its count, and adds nothing. Full chunks are whole packets, so that the
// count of a descriptor that is not the last was not rounded up.
fn chain_moved(stage: Dwc2TransferStage, array: &[u32]) -> u32
    requires { ChainFits (get packet_size stage.hcchar) stage.descs stage.len 0 (length array.now - 2 * stage.desc_base) }
    ensures { result ≡ chain_moved (get packet_size stage.hcchar) array.now stage.descs stage.desc_base stage.len }
{
    let mps = mps_of(stage.hcchar);
    let chunk = chunk_of(mps);
    let base = stage.desc_base as usize;
    let last = stage.descs - 1;
    let mut total: u32 = 0;
    for i in 0..last {
        total += chunk.saturating_sub(count_of(array[2 * (base + i as usize)]));
    }
    let rest = stage.len - last * chunk;
    total + link_moved(rest, mps, array[2 * (base + last as usize)])
}

// The bytes that a descriptor still counts.
fn count_of(status: u32) -> u32
    ensures { result ≡ get byte_count status }
{
    DmaDescriptor { status, paddr: 0 }.remaining()
}

// What one descriptor moved: never more than was asked for, though the count was rounded up.
fn link_moved(len: u32, mps: u16, status: u32) -> u32
    ensures { (result ≡ link_moved len mps status) × (result ≤ len) }
{
    let asked = words::initial_len(len, mps, true);
    let moved = asked.saturating_sub(count_of(status) as u64);
    moved.min(len as u64) as u32
}
