// Reading the programs' lists of questions, big-endian, from a file; what is cut reads as 0 or as false.
#![tactic(auto)]

ghost use Rattle.std.specs.Prelude.{◌≡◌, ◌≤◌, IfOk, IsTrue, length};
ghost use Rattle.std.specs.Io.{ReadsAtMost};

use std::io;
use std::io::Read;

// The 32-bit number at a place; 0 if it is cut.
pub fn word(b: &[u8], at: usize) -> u32 {
    match b.get(at..) {
        Some([w, x, y, z, ..]) => u32::from_be_bytes([*w, *x, *y, *z]),
        _ => 0,
    }
}

pub fn size(b: &[u8], at: usize) -> usize
    ensures { result ≤ 4294967295 }
{
    word(b, at) as usize
}

// Reads until the bytes are full or the file ends, and answers how many it put at their start. The only error is a read's; it leaves
// in the bytes what was read before it, and the rest as it was.
// Not `read_exact`, which tells nothing of a file that ends early; a step is as long as a read was, so no `for`.
pub fn read_full<R: Read>(file: &mut R, bytes: &mut [u8]) -> io::Result<usize>
    ensures at_most { ReadsAtMost result bytes.new }
    ensures same_length { length bytes.new ≡ length bytes.old }
{
    let mut done = 0;
    while done < bytes.len() {
        match file.read(&mut bytes[done..])? {
            0 => break,
            n => done += n,
        }
    }
    Ok(done)
}

// The next n bytes of the file; whether there were so many, and places for them. The only error is a read's, here and below.
pub fn take_bytes<R: Read>(file: &mut R, n: usize, bytes: &mut [u8]) -> io::Result<bool>
    ensures same_length { length bytes.new ≡ length bytes.old }
    ensures placed { IfOk result (λ taken. IsTrue taken → n ≤ length bytes.new) }
{
    match bytes.get_mut(..n) {
        Some(taken) => Ok(read_full(file, taken)? == n),
        None => Ok(false),
    }
}

// The next number of the file, of 16 bits; 0 at its end.
pub fn take_number<R: Read>(file: &mut R) -> io::Result<u16> {
    let mut two = [0u8; 2];
    let n = read_full(file, &mut two)?;
    Ok(if n == 2 { u16::from_be_bytes(two) } else { 0 })
}

// The next n of them; whether there are places for so many.
pub fn take_numbers<R: Read>(file: &mut R, n: usize, numbers: &mut [u16]) -> io::Result<bool>
    ensures same_length { length numbers.new ≡ length numbers.old }
    ensures placed { IfOk result (λ taken. IsTrue taken → n ≤ length numbers.new) }
{
    match numbers.get_mut(..n) {
        Some(taken) => {
            for number in taken {
                *number = take_number(file)?;
            }
            Ok(true)
        }
        None => Ok(false),
    }
}
