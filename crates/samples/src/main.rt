// Runs document 01's bench samples through the public call and prints what it answers, a line each. samples.bin holds them as the script make
// wrote them: a number of samples; for each the lengths of its ids and font, how often the font's last twelve bytes are to be repeated
// behind it, then a label of 32 bytes, the ids and the font.
#![tactic(auto)]

ghost use Rattle.std.specs.Prelude.{◌≡◌, ◌≤◌, length};

use answer::{CutError, Font};
use std::fs::File;
use std::io;
use std::io::{Read, Write};

#[derive(Drop)]
struct Sample {
    ids: usize,
    font: usize,
    repeat: usize,
}

fn read_sample<F: Read>(file: &mut F) -> io::Result<Sample> {
    let mut head = [0u8; 12];
    let n = records::read_full(file, &mut head)?;
    let head = &head[..n];
    Ok(Sample {
        ids: records::size(head, 0),
        font: records::size(head, 4),
        repeat: records::size(head, 8),
    })
}

// The label is bytes of the file, whether or not they are text.
fn print_label<R: Print, F: Read>(rt: &R, file: &mut F) -> io::Result<()> {
    let mut label = [0u8; 32];
    let n = records::read_full(file, &mut label)?;
    io::writer(rt).write_all(&label[..n])
}

// The bytes from `from` to `to` are the twelve before them, again and again.
fn repeat(font: &mut [u8], from: usize, to: usize)
    requires from_in { 12 ≤ from }
    requires to_in { to ≤ length font.old }
    ensures { length font.new ≡ length font.old }
{
    for i in from..to {
        font[i] = font[i - 12];
    }
}

// Where name's storage starts, if the font has seven tables: name is the last of them.
fn print_storage<R: Print>(rt: &R, out: &[u8]) -> io::Result<()> {
    if half(out, 4) == 7 {
        print!(rt; ", storage at {}", half(out, records::size(out, 116) + 4))?;
    }
    Ok(())
}

fn half(out: &[u8], at: usize) -> u32 {
    records::word(out, at) / 65536
}

// A number of each directory record: the one that stands at `at` in the first.
fn print_rows<R: Print>(rt: &R, out: &[u8], tables: u32, at: u32) -> io::Result<()> {
    for k in 0..tables {
        print!(rt; " {}", records::word(out, 16 * k as usize + at as usize))?;
    }
    Ok(())
}

// The three search words and each table's length, by tag; of the font made for them, with 9 tables, the checksums too.
fn print_directory<R: Print>(rt: &R, out: &[u8]) -> io::Result<()> {
    let tables = half(out, 4);
    print!(rt;
        "; search {} {} {}; lengths",
        half(out, 6),
        half(out, 8),
        half(out, 10)
    )?;
    print_rows(rt, out, tables, 24)?;
    if tables == 9 {
        print!(rt; "; sums")?;
        print_rows(rt, out, tables, 16)?;
    }
    Ok(())
}

// Success: the roster, and what the font's own numbers say.
fn print_font<R: Print>(rt: &R, font: Font, scratch: &[u16], out: &[u8]) -> io::Result<()> {
    print!(rt; "kept {} length {}:", font.kept, font.length)?;
    for id in scratch.iter().take(font.kept) {
        print!(rt; " {id}")?;
    }
    print_storage(rt, out)?;
    print_directory(rt, out)
}

fn print_answer<R: Print>(
    rt: &R,
    answer: Result<Font, CutError>,
    scratch: &[u16],
    out: &[u8],
) -> io::Result<()> {
    match answer {
        Ok(font) => print_font(rt, font, scratch, out)?,
        Err(refusal) => print!(rt; "refused {}", refusal.number())?,
    }
    println!(rt; "")
}

fn run<R: Print>(rt: &R, font: &[u8], ids: &[u16]) -> io::Result<()> {
    let mut scratch = [0u16; 8192];
    let mut out = [0u8; 132096];
    let answer = subset::subset(font, 0, ids, &mut scratch, &mut out);
    print_answer(rt, answer, &scratch, &out)
}

// A sample that has no place here prints its label alone.
fn run_sample<R: Print, F: Read>(rt: &R, file: &mut F, s: Sample) -> io::Result<()> {
    let mut ids = [0u16; 8];
    let mut font = [0u8; 132096];
    print_label(rt, file)?;
    if !records::take_numbers(file, s.ids, &mut ids)? {
        return Ok(());
    }
    if !records::take_bytes(file, s.font, &mut font)? {
        return Ok(());
    }
    if s.repeat > 10921 || s.font > 65536 {
        return Ok(());
    }
    let end = s.font + 12 * s.repeat;
    if font.len() < end {
        return Ok(());
    }
    if s.font >= 12 {
        repeat(&mut font, s.font, end);
    }
    run(rt, &font[..end], &ids[..s.ids])
}

fn count<F: Read>(file: &mut F) -> io::Result<u32> {
    let mut head = [0u8; 4];
    let n = records::read_full(file, &mut head)?;
    Ok(records::word(&head[..n], 0))
}

fn run_all<R: Print, F: Read>(rt: &R, file: &mut F, samples: u32) -> io::Result<()> {
    for _ in 0..samples {
        let s = read_sample(file)?;
        run_sample(rt, file, s)?;
    }
    Ok(())
}

fn main(rt: HostRuntime) -> io::Result<()> {
    let mut file = File::open(&rt, "samples.bin")?;
    let samples = count(&mut file)?;
    run_all(&rt, &mut file, samples)
}
