// The packets of a submission into a lent ring: document 01, "Submit". A ring of 0 slots counts as one of 1.
ghost use Rattle.std.specs.Prelude.{◌≡◌, ◌+◌, ◌-◌, ◌*◌, ◌/◌, ◌%◌, min, max, [], ◌∷◌, map, take};
ghost use Rattle.ring.specs.Stores.{stored, stores_from, as_word};

use crate::grid::next_slot;
use words::{DmaDescriptor, put_word};

// The first `words` of a slot's two, the address first, since the status hands the slot to the controller: a submission may end
// between them. Every packet is stored by this one function, so that the order holds for each.
fn put_some(ring: &mut [u32], slot: u16, desc: DmaDescriptor, words: u32)
    ensures { ring.new
        ≡ stored (take words (record { word = 2 * slot + 1; value = desc.paddr } ∷ record { word = 2 * slot; value = desc.status } ∷ [])) ring.old }
{
    let at = 2 * usize::from(slot);
    if words > 0 {
        put_word(ring, at + 1, desc.paddr);
    }
    if words > 1 {
        put_word(ring, at, desc.status);
    }
}

// Stores the packets' words, the address before the status, since the status hands the slot to the controller; at most `words` of
// them. A word that the ring does not have is not stored. The loop stores whole packets only, so that it tests neither the count
// nor the last packet; what may be stored of the one packet behind them comes after it, whether that is the last one or a cut one.
pub fn store_packets(
    ring: &mut [u32],
    slots: u16,
    insert: u16,
    step: u16,
    base: u32,
    lengths: &[u32],
    words: u32,
)
    ensures { ring.new
        ≡ stored (take words (map as_word (stores_from (max 1 slots) insert step 0 base lengths.now))) ring.old }
{
    let size = slots.max(1);
    let pairs = (words / 2) as usize;
    let whole = pairs.min(lengths.len().saturating_sub(1));
    let mut slot = insert % size;
    let mut addr = base;
    for &length in &lengths[..whole] {
        let desc = DmaDescriptor::new_iso(addr, length, false);
        put_some(ring, slot, desc, 2);
        addr = addr.wrapping_add(length);
        slot = next_slot(slot, step, size);
    }
    if let Some(&length) = lengths.get(whole) {
        let desc = DmaDescriptor::new_iso(addr, length, whole + 1 == lengths.len());
        put_some(ring, slot, desc, words - 2 * whole as u32);
    }
}
