// The grid of slots that a channel visits: document 01, "Ring sums".
ghost use Rattle.std.specs.Prelude.{◌≡◌, ◌+◌, ◌%◌, ◌<◌, max};
ghost use Rattle.ring.specs.Gcd.{gcd};
ghost use Rattle.ring.specs.RingSums.{ring_size, grid_step, capacity, grid_gap, grid_slot};

use crate::speed::{Speed, iso_ring_size};

// The greatest common divisor by Euclid's rule on remainders; 1 for 0 and 0, so that nothing divides by 0.
#[tactic(auto, using(crate::specs::Gcd::gcd_zero, crate::specs::Gcd::gcd_step))]
pub fn gcd(a: u16, b: u16) -> u16
    ensures { result ≡ gcd a b }
{
    if b == 0 {
        return a.max(1);
    }
    gcd(b, a % b)
}

// How far apart the slots lie that a channel visits.
fn grid_step(interval: u16, ring: u16) -> u16
    ensures { (result ≡ grid_step interval ring) × (0 < result) }
{
    gcd(interval.max(1), ring.max(1))
}

// How far the cursor's grid lies ahead of the target: (td_last - target) mod step, which is never negative. So many steps are added
// that the difference is not either. Not `rem_euclid` of a signed difference: tried, and the proof did not close.
#[tactic(auto, using(crate::proofs::RingFacts::gap_wide))]
fn grid_gap(step: u16, td_last: u16, target: u16) -> u16
    requires { 0 < step }
    ensures { result ≡ grid_gap step td_last target }
{
    let wide = u32::from(step);
    ((u32::from(td_last) + wide * 65_535 - u32::from(target)) % wide) as u16
}

// The slot at which to insert: the first at or after `target` on the grid of the cursor `td_last`. A service takes place where
// the descriptor index has the remainder of the channel's start, so any other slot is never visited.
pub fn advance_along_grid(td_last: u16, target: u16, interval: u16, ring: u16) -> u16
    ensures { result ≡ grid_slot td_last target interval ring }
{
    let step = grid_step(interval, ring);
    let gap = grid_gap(step, td_last, target);
    next_slot(target, gap, ring)
}

// The slot one step further round the ring. Most steps end before it does and need no division.
pub fn next_slot(slot: u16, step: u16, slots: u16) -> u16
    ensures { result ≡ (slot + step) % max 1 slots }
{
    let next = u32::from(slot) + u32::from(step);
    let size = u32::from(slots.max(1));
    if next < size {
        return next as u16;
    }
    (next % size) as u16
}

// The most packets in flight: one less than the slots that the grid has, so that the cursor never meets a slot in use.
pub fn iso_max_packets(interval: u16, speed: Speed) -> u16
    ensures { result ≡ capacity interval (ring_size speed) }
{
    let ring = iso_ring_size(speed);
    ring / grid_step(interval, ring) - 1
}
