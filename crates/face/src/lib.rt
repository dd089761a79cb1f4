// Steps 1 to 3: the kind, a collection's face, the directory, and where the eleven tables stand (the first half of the crate's lib.rs).
// A tag is four bytes, compared as an array.
#![tactic(auto)]

ghost use Rattle.std.specs.Prelude.{◌≡◌, ◌+◌, ◌*◌, ◌≤◌, ◌<◌, leb, length, position, nat_eq};
ghost use Rattle.std.specs.Cmp.Lexicographic.{pointwise};
ghost use Rattle.model.specs.Res.{both};
ghost use Rattle.model.specs.Bytes.{part};
ghost use Rattle.model.specs.Font.{face_start, face_at, ascending, row_of, rows};
ghost use Rattle.places.specs.Places.{content_at, nowhere, Within};
ghost use Rattle.answer.specs.Answers.{res_of};
ghost use Rattle.face.specs.Opening.{kind_at, row_place, noted_row, noted_rows, there, tested, OpenedAt, Opened};

use answer::Refusal;
use places::{GLYF, HEAD, HHEA, HMTX, LOCA, MAXP, Place, TAGS, Tables};

// Step 1's kinds.
#[derive(Clone, Copy)]
enum Kind {
    TrueType,
    Cff,
    Collection,
}

// The tag that stands at a place.
fn tag_at(b: &[u8], at: usize) -> [u8; 4]
    requires { at + 4 ≤ length b.now }
    ensures { result ≡ part b.now at 4 }
{
    [b[at], b[at + 1], b[at + 2], b[at + 3]]
}

// Which of the eleven tags it is.
fn known(tag: [u8; 4]) -> Option<usize>
    ensures { result ≡ position (λ t. pointwise nat_eq t tag) TAGS }
{
    TAGS.iter().position(|t| *t == tag)
}

// What the word at a place says that the font is, if it says one of step 1's kinds.
fn kind_at(font: &[u8], at: usize) -> Option<Kind>
    ensures { result ≡ kind_at font.now at }
{
    if !read::holds(font, at, 4) {
        return None;
    }
    match read::u32_at(font, at) {
        0x0001_0000 | 0x7472_7565 => Some(Kind::TrueType),
        0x4F54_544F => Some(Kind::Cff),
        0x7474_6366 => Some(Kind::Collection),
        _ => None,
    }
}

// A face of a collection.
#[tactic(auto, using(crate::proofs::Starts::face_at_by_kind))]
fn face_at(font: &[u8], at: usize) -> Result<usize, Refusal>
    ensures { res_of result ≡ face_at font.now at }
{
    match kind_at(font, at) {
        Some(Kind::TrueType) => Ok(at),
        Some(Kind::Cff) => Err(Refusal::NotTrueType),
        Some(Kind::Collection) | None => Err(Refusal::MalformedFont),
    }
}

// Step 1: where the face starts.
#[tactic(auto, using(crate::proofs::Starts::face_start_by_kind))]
fn face_start(font: &[u8], index: u32) -> Result<usize, Refusal>
    ensures { res_of result ≡ face_start font.now index }
{
    match kind_at(font, 0) {
        Some(Kind::TrueType) => Ok(0),
        Some(Kind::Cff) => Err(Refusal::NotTrueType),
        Some(Kind::Collection) => {
            let at = 12 + 4 * (index as usize);
            if !read::holds(font, at, 4) {
                return Err(Refusal::MalformedFont);
            }
            face_at(font, read::u32_at(font, at) as usize)
        }
        None => Err(Refusal::UnknownKind),
    }
}

// Whether the records' tags ascend strictly.
fn ascends(dir: &[u8], count: usize) -> bool
    requires { 16 * count ≤ length dir.now }
    ensures { result ≡ ascending (rows count dir.now) }
{
    for i in 1..count {
        if tag_at(dir, 16 * i - 16) >= tag_at(dir, 16 * i) {
            return false;
        }
    }
    true
}

// The place that a record gives, if it is in the file.
#[tactic(auto, unfolding(crate::specs::Opening::row_place, read::specs::Reading::extent_of))]
fn place_of(font: &[u8], row: &[u8]) -> Option<Place>
    requires { 16 ≤ length row.now }
    ensures { result ≡ row_place font.now (row_of row.now) }
{
    let extent = read::reader::extent_at(row);
    let offset = extent.offset as usize;
    let length = extent.length as usize;
    if read::holds(font, offset, length) {
        return Some(Place { offset, length });
    }
    None
}

// The places once a record more is noted. The first usable one of a tag counts; the tags ascend, so there is no other.
fn noted(font: &[u8], row: &[u8], mut t: Tables) -> Tables
    requires { 16 ≤ length row.now }
    ensures { result ≡ noted_row font.now (row_of row.now) t }
{
    if let Some(k) = known(tag_at(row, 0)) {
        if t.places[k].is_none() {
            t.places[k] = place_of(font, row);
        }
    }
    t
}

// The places of the tables that the records give.
fn find_places(font: &[u8], dir: &[u8], count: usize) -> Tables
    requires { 16 * count ≤ length dir.now }
    ensures { result ≡ noted_rows font.now (rows count dir.now) nowhere }
{
    let mut t = Tables { places: [None; 11] };
    for i in 0..count {
        t = noted(font, &dir[16 * i..], t);
    }
    t
}

// Whether table number k is there, with its least length.
fn there(t: Tables, k: usize, least: usize) -> bool
    requires { k < 11 }
    ensures { result ≡ there t k least }
{
    match t.places[k] {
        Some(p) => least <= p.length,
        None => false,
    }
}

// Step 3's tests, in its order.
fn test(t: Tables) -> Result<(), Refusal>
    ensures { res_of result ≡ tested t }
{
    if !there(t, GLYF, 0) {
        return Err(Refusal::NotTrueType);
    }
    let others = there(t, LOCA, 0)
        && there(t, HEAD, 52)
        && there(t, HHEA, 36)
        && there(t, HMTX, 0)
        && there(t, MAXP, 6);
    if !others {
        return Err(Refusal::MalformedFont);
    }
    Ok(())
}

// Steps 2 and 3, of the face that starts at a place.
fn open_at(font: &[u8], at: usize) -> Result<Tables, Refusal>
    ensures { OpenedAt font.now at result }
{
    if !read::holds(font, at, 12) {
        return Err(Refusal::MalformedFont);
    }
    let count = usize::from(read::u16_at(font, at + 4));
    let from = at + 12;
    if !read::holds(font, from, 16 * count) {
        return Err(Refusal::MalformedFont);
    }
    let dir = &font[from..];
    if !ascends(dir, count) {
        return Err(Refusal::MalformedFont);
    }
    let t = find_places(font, dir, count);
    test(t)?;
    Ok(t)
}

// Steps 1 to 3.
pub fn open(font: &[u8], index: u32) -> Result<Tables, Refusal>
    ensures { Opened font.now index result }
{
    let at = face_start(font, index)?;
    open_at(font, at)
}

// A table's contents: a part of the caller's font.
#[tactic(auto, unfolding(places::specs::Places::content_at))]
pub fn table(font: &[u8], t: Tables, k: usize) -> &[u8]
    requires { (k < 11) × Within font.now t }
    ensures { result.now ≡ content_at font.now t k }
{
    match t.places[k] {
        Some(p) => read::part(font, p.offset, p.length),
        None => &[],
    }
}
