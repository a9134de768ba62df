// A DMA descriptor, two words of which the controller rewrites the first: document 01, "Words".
ghost use Rattle.std.specs.Prelude.{◌≡◌, true, false};
ghost use Rattle.words.specs.Words.{iso_status, chain_status, setup_status, initial_len, moved_length, is_set, is_packet_error, byte_count, iso_byte_count, active};
ghost use Rattle.words.specs.Field.{get};

use crate::types::Direction;

#[derive(Clone, Copy)]
pub struct DmaDescriptor {
    pub status: u32,
    pub paddr: u32,
}

const ACTIVE: u32 = 0x8000_0000;

const END_OF_LIST: u32 = 0x0400_0000;

const INTERRUPT: u32 = 0x0200_0000;

const SETUP: u32 = 0x0100_0000;

impl DmaDescriptor {
    // One packet of a camera's ring. Only the last packet of a request interrupts.
    pub fn new_iso(paddr: u32, len: u32, last: bool) -> Self
        ensures { result ≡ record { status = iso_status len last; paddr = paddr } }
    {
        let status = ACTIVE + u32::from(last) * INTERRUPT + len % 4_096;
        DmaDescriptor { status, paddr }
    }

    // The eight bytes that begin a control transfer.
    pub fn new_setup(paddr: u32) -> Self
        ensures { result ≡ record { status = setup_status; paddr = paddr } }
    {
        let status = ACTIVE + END_OF_LIST + INTERRUPT + SETUP + 8;
        DmaDescriptor { status, paddr }
    }

    // A link of an IN chain: the device may fill whole packets, so the count is rounded up.
    pub fn new_in(paddr: u32, len: u32, mps: u16, last: bool) -> Self
        ensures { result ≡ record { status = chain_status (initial_len len mps true) last; paddr = paddr } }
    {
        DmaDescriptor::new_link(paddr, initial_len(len, mps, true), last)
    }

    // A link of an OUT chain.
    pub fn new_out(paddr: u32, len: u32, mps: u16, last: bool) -> Self
        ensures { result ≡ record { status = chain_status (initial_len len mps false) last; paddr = paddr } }
    {
        DmaDescriptor::new_link(paddr, initial_len(len, mps, false), last)
    }

    // A link of a chain: the last ends the list and interrupts.
    fn new_link(paddr: u32, count: u64, last: bool) -> Self
        ensures { result ≡ record { status = chain_status count last; paddr = paddr } }
    {
        let bytes = (count % 131_072) as u32;
        let status = ACTIVE + u32::from(last) * (END_OF_LIST + INTERRUPT) + bytes;
        DmaDescriptor { status, paddr }
    }
}

impl DmaDescriptor {
    // The controller still owns the descriptor.
    pub fn is_active(self) -> bool
        ensures { result ≡ is_set active self.status }
    {
        self.status / ACTIVE % 2 == 1
    }

    // What is left of a chain descriptor's byte count.
    pub fn remaining(self) -> u32
        ensures { result ≡ get byte_count self.status }
    {
        self.status % 131_072
    }

    // What is left of a camera packet's byte count.
    pub fn iso_remaining(self) -> u32
        ensures { result ≡ get iso_byte_count self.status }
    {
        self.status % 4_096
    }

    // The packet failed on the bus.
    pub fn iso_status_error(self) -> bool
        ensures { result ≡ is_packet_error self.status }
    {
        self.status / 0x1000_0000 % 4 == 1
    }
}

// The bytes that a descriptor is programmed with. A device may send a whole packet where fewer bytes were asked for, so IN is
// rounded up and needs that much room in memory.
pub fn initial_len(len: u32, mps: u16, is_in: bool) -> u64
    ensures { result ≡ initial_len len mps is_in }
{
    let len = u64::from(len);
    if is_in {
        let size = u64::from(mps).max(1);
        return len.div_ceil(size).max(1) * size;
    }
    len
}

// The bytes that a camera packet moved: IN what was planned without what remains, OUT what was planned.
pub fn moved_length(direction: Direction, planned: u16, status: u32) -> u16
    ensures { result ≡ moved_length direction planned status }
{
    match direction {
        Direction::In => {
            let left = DmaDescriptor { status, paddr: 0 }.iso_remaining();
            planned.saturating_sub(left as u16)
        }
        Direction::Out => planned,
    }
}
