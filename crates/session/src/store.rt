// The tests of a submission that walk its packets.
ghost use Rattle.std.specs.Prelude.{◌≡◌, ◌≤◌, ◌<◌, length};
ghost use Rattle.ring.specs.RingSums.{slots_from};
ghost use Rattle.session.specs.Way.{sum, long_at, any_marked};

use ring::next_slot;

// The first packet that is longer than the limit.
pub(crate) fn first_long(limit: u16, lengths: &[u32]) -> Option<usize>
    ensures { result ≡ long_at limit lengths.now }
{
    lengths.iter().position(|&length| length > u32::from(limit))
}

pub(crate) fn sum_of(lengths: &[u32]) -> u64
    requires { length lengths.now ≤ 1024 }
    ensures { result ≡ sum lengths.now }
{
    lengths.iter().map(|&length| u64::from(length)).sum()
}

// Whether one of n packets' slots is marked in `held`.
pub(crate) fn any_marked(held: &[bool; 256], slots: u16, insert: u16, step: u16, n: usize) -> bool
    requires { (0 < slots) × (slots ≤ 256) }
    ensures { result ≡ any_marked held.now (slots_from slots insert step 0 n) }
{
    let mut slot = insert % slots;
    for _i in 0..n {
        if held[slot as usize] {
            return true;
        }
        slot = next_slot(slot, step, slots);
    }
    false
}
