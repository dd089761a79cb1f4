// Document 01's program: cuts font.ttf down to the ids on standard input, writes subset.ttf and prints the roster.
// It reads, lends and prints; the list, the lines and the cut are proved functions on slices.
#![tactic(auto)]

ghost use Rattle.std.specs.Prelude.{◌≤◌, length, IfOk};
ghost use Rattle.lines.specs.Ids.{room};

use lines::{BadList, Reading};
use std::fs::File;
use std::io::{Read, Write};
use std::rt::Files;
use std::{fs, io};

// "a missing file counts as empty"
fn read_font<R: Files>(rt: &R, font: &mut [u8]) -> io::Result<usize>
    ensures { IfOk result (λ n. n ≤ length font.new) }
{
    match File::open(rt, "font.ttf") {
        Ok(mut file) => records::read_full(&mut file, font),
        Err(_) => Ok(0),
    }
}

// The whole of standard input. A proved loop has to end, so it counts turns, to a number that no run uses up.
fn read_list<R: Read>(input: &mut R, ids: &mut [u16]) -> io::Result<Result<usize, BadList>>
    ensures { IfOk result (λ listed. room listed ≤ length ids.new) }
{
    let mut reading = Reading::begin();
    let mut text = [0u8; 4096];
    for _ in 0..u64::MAX {
        let n = records::read_full(input, &mut text)?;
        reading.feed(&text[..n], ids);
        if n < text.len() {
            break;
        }
    }
    Ok(reading.finish(ids))
}

// A file that can't be written is told on standard error; the roster is printed all the same.
fn save<R: Files + Eprint>(rt: &R, file: &[u8]) -> io::Result<()> {
    match fs::write(rt, "subset.ttf", file) {
        Ok(()) => Ok(()),
        Err(error) => eprintln!(rt; "subset.ttf: {error}"),
    }
}

fn print_kept<R: Print>(rt: &R, roster: &[u16], size: usize) -> io::Result<()>
    requires { length roster.now ≤ 8192 }
{
    let mut text = [0u8; 98384];
    let n = lines::kept(roster, size, &mut text);
    io::writer(rt).write_all(&text[..n])
}

fn print_refused<R: Print>(rt: &R, k: u32) -> io::Result<()> {
    let mut text = [0u8; 32];
    let n = lines::refused(k, &mut text);
    io::writer(rt).write_all(&text[..n])
}

// "lends 8,192 scratch numbers and 32,768 output bytes; on success writes subset.ttf; prints."
fn cut<R: Files + Print + Eprint>(rt: &R, font: &[u8], ids: &[u16]) -> io::Result<()> {
    let mut scratch = [0u16; 8192];
    let mut out = [0u8; 32768];
    match subset::subset(font, 0, ids, &mut scratch, &mut out) {
        Ok(font) => {
            save(rt, &out[..font.length])?;
            print_kept(rt, &scratch[..font.kept], font.length)
        }
        Err(refusal) => print_refused(rt, refusal.number()),
    }
}

fn main(rt: HostRuntime) -> io::Result<()> {
    let mut font = [0u8; 32769];
    let n = read_font(&rt, &mut font)?;
    if n > 32768 {
        return println!(rt; "font too long");
    }
    let mut ids = [0u16; 1024];
    let mut input = rt.reader();
    match read_list(&mut input, &mut ids)? {
        Ok(k) => cut(&rt, &font[..n], &ids[..k]),
        Err(bad) => println!(rt; "{bad}"),
    }
}
