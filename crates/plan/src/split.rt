// How a transfer falls into packets and descriptors: document 01, "Planning transfers".
ghost use Rattle.std.specs.Prelude.{◌≡◌, ◌<◌};
ghost use Rattle.words.specs.Words.{packets};
ghost use Rattle.plan.specs.Planning.{chunk_of, split_of};

// The lengths of the descriptors of a transfer: `count` of them, each `chunk` but the last, which is `last`.
#[derive(Clone, Copy)]
pub struct DmaSplit {
    pub chunk: u32,
    pub count: u64,
    pub last: u32,
}

const NBYTES_LIMIT: u32 = 131_071;

// The packets of a transfer. An empty transfer is one packet: counted as none, the toggle would stay one behind. One test finds that
// the length is above 0 and its last byte's number takes 32 bits, which are divided faster than 64.
pub fn packet_count(len: u64, max_packet_size: u16) -> u64
    ensures { result ≡ packets len max_packet_size }
{
    let m = max_packet_size.max(1);
    match u32::try_from(len.wrapping_sub(1)) {
        Ok(last) => (last / m as u32) as u64 + 1,
        Err(_) => whole_parts(len, m as u64),
    }
}

// A count of bytes is 17 bits wide, and an IN count is rounded up to whole packets: a chunk of whole packets, with a packet less
// one byte of room above it, stays in the field.
pub fn split_dma_lengths(len: u64, max_packet_size: u16) -> DmaSplit
    ensures { result ≡ split_of len max_packet_size }
{
    let chunk = chunk_of(max_packet_size);
    let count = whole_parts(len, chunk as u64);
    let last = (len - (count - 1) * chunk as u64) as u32;
    DmaSplit { chunk, count, last }
}

// The largest multiple of the packet size that leaves room for rounding up.
pub(crate) fn chunk_of(max_packet_size: u16) -> u32
    ensures { result ≡ chunk_of max_packet_size }
{
    let m = max_packet_size.max(1) as u32;
    (NBYTES_LIMIT - (m - 1)) / m * m
}

// How many parts a length falls into, all whole but perhaps the last: one where it is 0.
fn whole_parts(len: u64, part: u64) -> u64
    requires { 0 < part }
    ensures { result ≡ packets len part }
{
    len.div_ceil(part).max(1)
}
