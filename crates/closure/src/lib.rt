// Step 5: which glyphs are kept, and which new number each gets (the closure of the crate's glyf.rs), in the lent scratch.
// The stack of the paper is not kept as such: the requests are read off the roster, the last one first, and the components wait in a ring,
// where one that is pushed again moves to the top. The walk by moving to the top is the paper's walk (theorem `thin`).
// Each kept outline is read once, here: so the walk adds up their lengths too, from which the sizes of glyf and loca follow.
#![tactic(auto)]

ghost use Rattle.std.specs.Prelude.{◌≡◌, [], ◌∷◌, ◌+◌, ◌*◌, ◌≤◌, ◌<◌, length};
ghost use Rattle.model.specs.Res.{map_res, value_of};
ghost use Rattle.model.specs.Outline.{outline, components};
ghost use Rattle.model.specs.Glyf.{width};
ghost use Rattle.outline.specs.Places.{ids_from, end_from, kept_length};
ghost use Rattle.glyf.specs.Pieces.{length_at};
ghost use Rattle.remapper.specs.Scratch.{Linked, next};
ghost use Rattle.remapper.specs.State.{Walking, Numbering};
ghost use Rattle.closure.specs.Closes.{parts_in, walk_in, Offsets, Closes};
ghost use Rattle.closure.specs.Turns.{Opened, Underway, Turned, Ran, Numbered};

use answer::Refusal;
use outline::{Component, Shape};

// So many glyphs are kept, and their outlines' lengths together: odd ones raised by 1, and as they are.
#[derive(Clone, Copy, Debug, PartialEq, Eq)]
pub struct Kept {
    pub kept: usize,
    pub even: usize,
    pub raw: usize,
}

// What a turn of the walk leaves: so many are numbered, and so many requests are left to read; and so many bytes are kept of the
// outline that it read.
#[derive(Clone, Copy)]
struct Turn {
    count: usize,
    left: usize,
    length: usize,
}

// Offers a composite's components: how many bytes of it are kept, or None if a record is cut or has an id without a glyph.
// "bytes after the last record are kept only if that record's flags hold 0x0100".
// The walk along the records is that of outline's `kept_end` and glyf's `write_composite`, and what is done at each is another: an
// iterator for all three would hand on places and flags that only one of them needs.
#[tactic(auto, using(outline::proofs::Records::taken_low, outline::proofs::Records::taken_more))]
fn offer_components(b: &[u8], s: &mut [u16], n: usize) -> Option<usize>
    requires { (n ≤ 65536) × Linked n s.old }
    ensures { Opened n s.old s.new (ids_from n b.now 10) (value_of 0 (end_from n b.now 10)) result }
{
    let mut at = 10;
    loop {
        let component = outline::component_at(b, at, n)?;
        remapper::offer(s, n, component.id());
        match component {
            Component::More { next, .. } => at = next,
            Component::Last { next, keep, .. } => return Some(if keep { b.len() } else { next }),
        }
    }
}

// "read its whole outline; only then push": what is offered of an unreadable one, None, doesn't matter, since the walk is refused.
fn read_outline(b: &[u8], s: &mut [u16], n: usize) -> Option<usize>
    requires { (n ≤ 65536) × Linked n s.old }
    ensures { Opened n s.old s.new (map_res components (outline n b.now)) (kept_length n b.now) result }
{
    match outline::shape_of(b)? {
        Shape::Empty => Some(0),
        Shape::Simple => Some(b.len()),
        Shape::Composite => offer_components(b, s, n),
    }
}

#[tactic(auto, using(outline::proofs::Glyphs::span_within))]
fn read_glyph(
    loca: &[u8],
    glyf: &[u8],
    long: bool,
    s: &mut [u16],
    n: usize,
    g: usize,
) -> Option<usize>
    requires { (n ≤ 65536) × (g < n) × Offsets (width long) n loca.now × Linked n s.old }
    ensures { Opened n s.old s.new (parts_in (width long) n loca.now glyf.now g) (length_at (width long) n loca.now glyf.now g) result }
{
    let span = outline::locate(loca, glyf, long, g)?;
    read_outline(&glyf[span.start..span.end], s, n)
}

// Nothing waits: the last request not yet read. None: they are all read, and the walk has ended.
fn read_request(
    loca: &[u8],
    glyf: &[u8],
    long: bool,
    s: &mut [u16],
    n: usize,
    count: usize,
    left: usize,
) -> Result<Option<Turn>, Refusal>
    requires { (n ≤ 65536) × Offsets (width long) n loca.now × Underway n s.old count left × (next n s.old 0 ≡ 0) }
    ensures { Turned (parts_in (width long) n loca.now glyf.now) (length_at (width long) n loca.now glyf.now) n s.old s.new count left result }
{
    if left == 0 {
        return Ok(None);
    }
    let q = remapper::old_id(s, left - 1);
    let length = read_glyph(loca, glyf, long, s, n, q).ok_or(Refusal::MalformedFont)?;
    Ok(Some(Turn {
        count,
        left: left - 1,
        length,
    }))
}

// "Take the top one; number it if unnumbered (the 65,536th is 7)": a component that waits has no number.
fn take_component(
    loca: &[u8],
    glyf: &[u8],
    long: bool,
    s: &mut [u16],
    n: usize,
    c: usize,
    count: usize,
    left: usize,
) -> Result<Option<Turn>, Refusal>
    requires { (n ≤ 65536) × Offsets (width long) n loca.now × Underway n s.old count left × (c ≡ next n s.old 0) × (0 < c) }
    ensures { Turned (parts_in (width long) n loca.now glyf.now) (length_at (width long) n loca.now glyf.now) n s.old s.new count left result }
{
    if remapper::MOST <= count {
        return Err(Refusal::TooManyGlyphs);
    }
    remapper::take_top(s, n, c, count);
    let length = read_glyph(loca, glyf, long, s, n, c).ok_or(Refusal::MalformedFont)?;
    Ok(Some(Turn {
        count: count + 1,
        left,
        length,
    }))
}

fn take_turn(
    loca: &[u8],
    glyf: &[u8],
    long: bool,
    s: &mut [u16],
    n: usize,
    count: usize,
    left: usize,
) -> Result<Option<Turn>, Refusal>
    requires { (n ≤ 65536) × Offsets (width long) n loca.now × Underway n s.old count left }
    ensures { Turned (parts_in (width long) n loca.now glyf.now) (length_at (width long) n loca.now glyf.now) n s.old s.new count left result }
{
    let c = remapper::top(s, n);
    if c == 0 {
        return read_request(loca, glyf, long, s, n, count, left);
    }
    take_component(loca, glyf, long, s, n, c, count, left)
}

// "Repeat until empty." "Add each length, odd ones raised by 1."
fn run(
    loca: &[u8],
    glyf: &[u8],
    long: bool,
    s: &mut [u16],
    n: usize,
    count: usize,
) -> Result<Kept, Refusal>
    requires { (n ≤ 65536) × Offsets (width long) n loca.now × Numbering n s.old count }
    ensures { Ran (parts_in (width long) n loca.now glyf.now) (length_at (width long) n loca.now glyf.now) n s.old s.new count result }
{
    let mut kept = count;
    let mut left = count;
    let mut even = 0;
    let mut raw = 0;
    while let Some(turn) = take_turn(loca, glyf, long, s, n, kept, left)? {
        kept = turn.count;
        left = turn.left;
        even += turn.length + turn.length % 2;
        raw += turn.length;
    }
    Ok(Kept { kept, even, raw })
}

// "Then the requests in list order, first appearances only." How many are numbered, glyph 0 among them.
fn number_all(ids: &[u16], s: &mut [u16], n: usize) -> Result<usize, Refusal>
    requires { (n ≤ 65536) × Walking n s.old (0 ∷ []) [] }
    ensures { Numbered n ids.now s.old s.new result }
{
    let mut count = 1;
    for id in ids {
        count = remapper::ask(s, n, usize::from(*id), count)?;
    }
    Ok(count)
}

// The walk of document 01. A refusal leaves the scratch's first 4n places as they are: the call zeroes them, once for all refusals.
// Inlined into the whole call, `number_all` had no registers left for its loop, and a long list of ids took 1.4 times as long.
#[inline(never)]
pub fn close_over(
    loca: &[u8],
    glyf: &[u8],
    long: bool,
    n: usize,
    ids: &[u16],
    scratch: &mut [u16],
) -> Result<Kept, Refusal>
    requires { (n ≤ 65536) × (4 * n ≤ length scratch.old) × Offsets (width long) n loca.now }
    ensures { Closes (length_at (width long) n loca.now glyf.now) (walk_in (width long) n loca.now glyf.now ids.now) n scratch.old scratch.new result }
{
    if n == 0 {
        return Err(Refusal::MalformedFont);
    }
    remapper::start(scratch, n);
    let count = number_all(ids, scratch, n)?;
    run(loca, glyf, long, scratch, n, count)
}
