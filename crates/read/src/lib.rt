// Reading: big-endian numbers at a place in a slice, parts, and the word sum (the crate's read.rs, and checksum of its lib.rs).
// A place number stands beside the slice; whoever calls has tested that what is read is there (`holds`). `reader` holds the two together.
#![tactic(auto)]

pub mod reader;

ghost use Rattle.std.specs.Prelude.{◌≡◌, ◌+◌, ◌*◌, ◌/◌, ◌%◌, ◌<◌, ◌≤◌, length, drop, nat_le, slice_index};
ghost use Rattle.model.specs.Bytes.{word16, word32, holds, part};
ghost use Rattle.model.specs.File.{word_sum, checksum};

// Whether [at, at + size) lies in b; at + size may pass what a usize holds.
pub fn holds(b: &[u8], at: usize, size: usize) -> bool
    ensures { result ≡ holds b.now at size }
{
    if b.len() < at {
        return false;
    }
    size <= b.len() - at
}

// That part of the caller's slice.
pub fn part(b: &[u8], at: usize, size: usize) -> &[u8]
    requires { at + size ≤ length b.now }
    ensures { result.now ≡ part b.now at size }
{
    let end = at + size;
    &b[at..end]
}

// The 16-bit number at a place. (A trait over this width and the next would be longer than both functions.)
// No `from_be_bytes`: it makes one load of the two bytes, and then LLVM vectors of loca's entries, which took 1.4 times as long to read.
pub fn u16_at(b: &[u8], at: usize) -> u16
    requires { at + 2 ≤ length b.now }
    ensures { result ≡ word16 b.now at }
{
    u16::from(b[at]) * 256 + u16::from(b[at + 1])
}

// Whether the 16-bit number at a place is negative, read as signed.
pub fn negative_at(b: &[u8], at: usize) -> bool
    requires { at + 2 ≤ length b.now }
    ensures { result ≡ nat_le 0x8000 (word16 b.now at) }
{
    0x8000 <= u16_at(b, at)
}

// The 32-bit number at a place.
pub fn u32_at(b: &[u8], at: usize) -> u32
    requires { at + 4 ≤ length b.now }
    ensures { result ≡ word32 b.now at }
{
    u32::from_be_bytes([b[at], b[at + 1], b[at + 2], b[at + 3]])
}

// The word of the last bytes, of which there are up to three, zero-padded.
fn tail_word(b: &[u8], at: usize) -> u32
    requires { (at ≤ length b.now) × (length b.now < at + 4) }
    ensures { result ≡ word_sum (drop at b.now) }
{
    u32::from_be_bytes(match &b[at..] {
        [x, y, z, ..] => [*x, *y, *z, 0],
        [x, y] => [*x, *y, 0, 0],
        [x] => [*x, 0, 0, 0],
        [] => [0; 4],
    })
}

// "A checksum is the sum of big-endian words, modulo 2^32, zero-padded": it wraps on purpose.
// The counted loop over u32_at is the form that LLVM vectorises.
pub fn checksum(b: &[u8]) -> u32
    ensures { result ≡ checksum b.now }
{
    let mut sum: u32 = 0;
    let words = b.len() / 4;
    for k in 0..words {
        sum = sum.wrapping_add(u32_at(b, 4 * k));
    }
    sum.wrapping_add(tail_word(b, 4 * words))
}
