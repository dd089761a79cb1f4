// Asks the public call every question of answers.bin (oracle/README.md has its format) and compares all that comes back with what
// the crate answered: the answer, every byte of the output and every place of the scratch, those that must not change among them.
#![tactic(auto)]

use answer::{CutError, Font, Refusal};
use std::fs::File;
use std::io::Read;
use std::{array, io};

// A record's head: the question's sizes, and the answer expected, if the record's three words for it are an answer.
#[derive(Clone, Copy)]
struct Question {
    index: u32,
    ids: usize,
    scratch: usize,
    out: usize,
    font: usize,
    expected: Option<Result<Font, CutError>>,
    set: usize,
}

fn read_head(head: &[u8]) -> Question {
    Question {
        index: records::word(head, 0),
        ids: records::size(head, 4),
        scratch: records::size(head, 8),
        out: records::size(head, 12),
        font: records::size(head, 16),
        expected: read_answer(
            records::word(head, 20),
            records::size(head, 24),
            records::size(head, 28),
        ),
        set: records::size(head, 32),
    }
}

// "A refusal reports N = 0 and length 0, but 6 reports the length needed."
fn read_answer(number: u32, kept: usize, length: usize) -> Option<Result<Font, CutError>> {
    match (number, kept, length) {
        (0, _, _) => Some(Ok(Font { kept, length })),
        (6, 0, needed) => Some(Err(CutError::OutputTooShort { needed })),
        (number, 0, 0) => Some(Err(CutError::Refused(read_refusal(number)?))),
        _ => None,
    }
}

fn read_refusal(number: u32) -> Option<Refusal> {
    match number {
        1 => Some(Refusal::UnknownKind),
        2 => Some(Refusal::NotTrueType),
        3 => Some(Refusal::MalformedFont),
        4 => Some(Refusal::NameOutsideStorage),
        5 => Some(Refusal::Overflow),
        7 => Some(Refusal::TooManyGlyphs),
        8 => Some(Refusal::ScratchTooShort),
        _ => None,
    }
}

// What the scratch and the output hold before the call.
fn place_before(i: usize) -> u16 {
    (i % 251 + 4096) as u16
}

fn byte_before(i: usize) -> u8 {
    (i % 253 + 1) as u8
}

// The call, lent just what the question says; whether the answer is the one expected.
fn call(q: Question, font: &[u8], ids: &[u16], scratch: &mut [u16], out: &mut [u8]) -> bool {
    let Some(scratch) = scratch.get_mut(..q.scratch) else {
        return false;
    };
    let Some(out) = out.get_mut(..q.out) else {
        return false;
    };
    Some(subset::subset(font, q.index, ids, scratch, out)) == q.expected
}

// "its first N places are the roster; the others of the first 4n are zero. Places past 4n never change."
fn place_after(roster: &[u16], set: usize, i: usize) -> u16 {
    match roster.get(i) {
        Some(id) => *id,
        None if i < set => 0,
        None => place_before(i),
    }
}

// "the file at the start of the output, the rest of it unchanged"
fn byte_after(file: &[u8], i: usize) -> u8 {
    match file.get(i) {
        Some(byte) => *byte,
        None => byte_before(i),
    }
}

// Only a success has a roster and a file.
fn compare<R: Read>(file: &mut R, q: Question, scratch: &[u16], out: &[u8]) -> io::Result<bool> {
    let mut roster = [0u16; 8192];
    let mut bytes = [0u8; 32768];
    let (kept, length) = match q.expected {
        Some(Ok(font)) => (font.kept, font.length),
        _ => (0, 0),
    };
    if !records::take_numbers(file, kept, &mut roster)? {
        return Ok(false);
    }
    if !records::take_bytes(file, length, &mut bytes)? {
        return Ok(false);
    }
    let roster = &roster[..kept];
    let bytes = &bytes[..length];
    Ok(
        scratch
            .iter()
            .enumerate()
            .all(|(i, x)| *x == place_after(roster, q.set, i))
            && out
                .iter()
                .enumerate()
                .all(|(i, x)| *x == byte_after(bytes, i)),
    )
}

// The rest of the record is read in any case, so that the next one starts where it should.
fn judge<R: Read>(file: &mut R, q: Question, font: &[u8], ids: &[u16]) -> io::Result<bool> {
    let mut scratch: [u16; 8192] = array::from_fn(place_before);
    let mut out: [u8; 32768] = array::from_fn(byte_before);
    let told = call(q, font, ids, &mut scratch, &mut out);
    let alike = compare(file, q, &scratch, &out)?;
    Ok(alike && told)
}

fn ask<R: Read>(file: &mut R, q: Question) -> io::Result<bool> {
    let mut ids = [0u16; 1024];
    let mut font = [0u8; 32768];
    if !records::take_numbers(file, q.ids, &mut ids)? {
        return Ok(false);
    }
    if !records::take_bytes(file, q.font, &mut font)? {
        return Ok(false);
    }
    judge(file, q, &font[..q.font], &ids[..q.ids])
}

// The next record.
fn same<R: Read>(file: &mut R) -> io::Result<bool> {
    let mut head = [0u8; 36];
    let n = records::read_full(file, &mut head)?;
    ask(file, read_head(&head[..n]))
}

// How many records there are: the number behind the file's first four bytes.
fn count<R: Read>(file: &mut R) -> io::Result<u32> {
    let mut head = [0u8; 8];
    let n = records::read_full(file, &mut head)?;
    Ok(records::word(&head[..n], 4))
}

fn differing<R: Read>(file: &mut R, answers: u32) -> io::Result<u32> {
    let mut differ = 0;
    for _k in 0..answers {
        if !same(file)? {
            differ += 1;
        }
    }
    Ok(differ)
}

fn main(rt: HostRuntime) -> io::Result<()> {
    let mut file = File::open(&rt, "answers.bin")?;
    let answers = count(&mut file)?;
    let differ = differing(&mut file, answers)?;
    println!(rt; "{answers} answers, {differ} differ")
}
