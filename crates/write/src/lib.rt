// Writing: big-endian numbers, copies and zeros at a place of a lent slice (the crate's write.rs).
// Each leaves the bytes it wrote in the place of as many old ones, and the rest as it was.
#![tactic(auto)]

ghost use Rattle.std.specs.Prelude.{◌≡◌, ◌+◌, ◌≤◌, length, replicate};
ghost use Rattle.model.specs.Bytes.{be16, be32, part, put};

// Two functions of one line for the two widths: a trait over the width would be longer than both.
pub fn put_u16(out: &mut [u8], at: usize, half: u16)
    requires { at + 2 ≤ length out.old }
    ensures { out.new ≡ put out.old at (be16 half) }
{
    out[at..at + 2].copy_from_slice(&half.to_be_bytes());
}

pub fn put_u32(out: &mut [u8], at: usize, word: u32)
    requires { at + 4 ≤ length out.old }
    ensures { out.new ≡ put out.old at (be32 word) }
{
    out[at..at + 4].copy_from_slice(&word.to_be_bytes());
}

// Four bytes by value. No `copy_from_slice` here and below: of a length known only at run time it is a call of memmove, which the
// archive for C would need from outside, and of 16 bytes a test for overlap and a loop beside the move.
fn four_at(src: &[u8], from: usize) -> [u8; 4]
    requires { from + 4 ≤ length src.now }
    ensures { result ≡ part src.now from 4 }
{
    [src[from], src[from + 1], src[from + 2], src[from + 3]]
}

fn put_four(out: &mut [u8], at: usize, b: [u8; 4])
    requires { (length b ≡ 4) × (at + 4 ≤ length out.old) }
    ensures { out.new ≡ put out.old at b }
{
    out[at] = b[0];
    out[at + 1] = b[1];
    out[at + 2] = b[2];
    out[at + 3] = b[3];
}

// Eight bytes, all read before the first is written: so LLVM needs no test for overlap and makes one move of them.
fn copy_8(src: &[u8], from: usize, out: &mut [u8], at: usize)
    requires { (from + 8 ≤ length src.now) × (at + 8 ≤ length out.old) }
    ensures { out.new ≡ put out.old at (part src.now from 8) }
{
    let a = four_at(src, from);
    let b = four_at(src, from + 4);
    put_four(out, at, a);
    put_four(out, at + 4, b);
}

// Sixteen.
fn copy_16(src: &[u8], from: usize, out: &mut [u8], at: usize)
    requires { (from + 16 ≤ length src.now) × (at + 16 ≤ length out.old) }
    ensures { out.new ≡ put out.old at (part src.now from 16) }
{
    let a = four_at(src, from);
    let b = four_at(src, from + 4);
    let c = four_at(src, from + 8);
    let d = four_at(src, from + 12);
    put_four(out, at, a);
    put_four(out, at + 4, b);
    put_four(out, at + 8, c);
    put_four(out, at + 12, d);
}

// All of src, byte by byte.
fn copy_bytes(src: &[u8], out: &mut [u8], at: usize)
    requires { at + length src.now ≤ length out.old }
    ensures { out.new ≡ put out.old at src.now }
{
    for i in 0..src.len() {
        out[at + i] = src[i];
    }
}

// All of src: by sixteen bytes, the last sixteen over what is copied already. Most copies are a name or an outline, too short
// for the loop that LLVM makes of single bytes. A while: `step_by` tests twice a turn.
pub fn copy(src: &[u8], out: &mut [u8], at: usize)
    requires { at + length src.now ≤ length out.old }
    ensures { out.new ≡ put out.old at src.now }
{
    let n = src.len();
    if n < 8 {
        copy_bytes(src, out, at);
        return;
    }
    if n < 16 {
        copy_8(src, 0, out, at);
        copy_8(src, n - 8, out, at + n - 8);
        return;
    }
    let last = n - 16;
    let mut i = 0;
    while i < last {
        copy_16(src, i, out, at + i);
        i += 16;
    }
    copy_16(src, last, out, at + last);
}

// So many zeros.
pub fn zeros(out: &mut [u8], at: usize, count: usize)
    requires { at + count ≤ length out.old }
    ensures { out.new ≡ put out.old at (replicate count 0) }
{
    out[at..at + count].fill(0);
}
