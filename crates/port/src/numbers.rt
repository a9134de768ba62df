// Numbers in a run of bytes, little-endian, at an offset.
ghost use Rattle.std.specs.Prelude.{◌≡◌, ◌+◌, ◌≤◌, length, take, drop};
ghost use Rattle.std.proofs.Math.Seq.{slice};
ghost use Rattle.std.proofs.lemmas.List.Edits.{sets};
ghost use Rattle.port.specs.Bytes.{byte_of, u16_of, u32_of, u64_of, u16_bytes, u32_bytes, u64_bytes};

pub(crate) fn byte_at(bytes: &[u8], at: usize) -> u8
    requires { at + 1 ≤ length bytes.now }
    ensures { result ≡ byte_of (drop at bytes.now) }
{
    bytes[at]
}

// The N bytes from `at` on.
fn part<const N: usize>(bytes: &[u8], at: usize) -> [u8; N]
    requires { at + N ≤ length bytes.now }
    ensures { result ≡ take N (drop at bytes.now) }
{
    *bytes[at..at + N].first_chunk().unwrap()
}

// The width stands in each name, so that the code reads as docs/LAYOUT.md does.
pub(crate) fn u16_at(bytes: &[u8], at: usize) -> u16
    requires { at + 2 ≤ length bytes.now }
    ensures { result ≡ u16_of (drop at bytes.now) }
{
    u16::from_le_bytes(part(bytes, at))
}

pub(crate) fn u32_at(bytes: &[u8], at: usize) -> u32
    requires { at + 4 ≤ length bytes.now }
    ensures { result ≡ u32_of (drop at bytes.now) }
{
    u32::from_le_bytes(part(bytes, at))
}

pub(crate) fn u64_at(bytes: &[u8], at: usize) -> u64
    requires { at + 8 ≤ length bytes.now }
    ensures { result ≡ u64_of (drop at bytes.now) }
{
    u64::from_le_bytes(part(bytes, at))
}

// Bytes that are to stand from `at` on.
pub(crate) fn put<const N: usize>(bytes: &mut [u8], at: usize, part: [u8; N])
    requires { at + N ≤ length bytes.old }
    ensures { bytes.new ≡ sets bytes.old at part.entry }
{
    bytes[at..at + N].copy_from_slice(&part);
}

pub(crate) fn put_u16(bytes: &mut [u8], at: usize, x: u16)
    requires { at + 2 ≤ length bytes.old }
    ensures { bytes.new ≡ sets bytes.old at (u16_bytes x) }
{
    put(bytes, at, x.to_le_bytes());
}

pub(crate) fn put_u32(bytes: &mut [u8], at: usize, x: u32)
    requires { at + 4 ≤ length bytes.old }
    ensures { bytes.new ≡ sets bytes.old at (u32_bytes x) }
{
    put(bytes, at, x.to_le_bytes());
}

pub(crate) fn put_u64(bytes: &mut [u8], at: usize, x: u64)
    requires { at + 8 ≤ length bytes.old }
    ensures { bytes.new ≡ sets bytes.old at (u64_bytes x) }
{
    put(bytes, at, x.to_le_bytes());
}

// The `n` bytes from `from` on move down to `into`, sixteen a turn, and then those that are left: `copy_within` alone moves bytes to a place fewer
// than 32 before them one by one. It is a function of its own, since of a move by a fixed distance the compiler makes a call of C's `memmove`.
#[inline(never)]
pub(crate) fn move_down(bytes: &mut [u8], into: usize, from: usize, n: usize)
    requires { (into ≤ from) × (from + n ≤ length bytes.old) }
    ensures { bytes.new ≡ sets bytes.old into (slice from (from + n) bytes.old) }
{
    for k in 0..n / 16 {
        let some: [u8; 16] = part(bytes, from + 16 * k);
        put(bytes, into + 16 * k, some);
    }
    let done = n / 16 * 16;
    bytes.copy_within(from + done..from + n, into + done);
}
