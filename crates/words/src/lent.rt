// A descriptor in a lent ring: slot s has its status at word 2s and its address at word 2s + 1. A word that the ring does not have
// reads as 0 and is not stored.
ghost use Rattle.std.specs.Prelude.{◌≡◌, ◌+◌, ◌*◌, get_or, set};
ghost use Rattle.words.specs.Words.{is_set, active};

use crate::descriptor::DmaDescriptor;

// The word at `at`, if the ring has it.
pub fn put_word(ring: &mut [u32], at: usize, value: u32)
    ensures { ring.new ≡ set ring.old at value }
{
    // by index: the clause of `get_mut` speaks of no element of the slice after it
    if at < ring.len() {
        ring[at] = value;
    }
}

// The status word of a slot.
pub fn status_at(ring: &[u32], slot: u16) -> u32
    ensures { result ≡ get_or ring.now (2 * slot) 0 }
{
    ring.get(2 * usize::from(slot)).copied().unwrap_or(0)
}

// The controller still owns the slot.
pub fn is_active_at(ring: &[u32], slot: u16) -> bool
    ensures { result ≡ is_set active (get_or ring.now (2 * slot) 0) }
{
    let status = status_at(ring, slot);
    DmaDescriptor { status, paddr: 0 }.is_active()
}

// Both words of a slot become zero: an address that stayed would outlive its buffer.
pub fn clear_slot(ring: &mut [u32], slot: u16)
    ensures { ring.new ≡ set (set ring.old (2 * slot) 0) (2 * slot + 1) 0 }
{
    let at = 2 * usize::from(slot);
    put_word(ring, at, 0);
    put_word(ring, at + 1, 0)
}
