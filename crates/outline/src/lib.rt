// Outline: where a glyph's bytes stand, what they are, and a composite's component records (document 01, "The walk": Outline;
// the crate's glyf.rs). Nothing here is written; whoever closes over components or copies outlines goes by these functions.
#![tactic(auto)]

ghost use Rattle.std.specs.Prelude.{◌≡◌, ◌+◌, ◌*◌, ◌^◌, ◌≤◌, length};
ghost use Rattle.std.proofs.lemmas.Grind.{low_zeros};
ghost use Rattle.model.specs.Res.{pick, value_of};
ghost use Rattle.model.specs.Bytes.{flag};
ghost use Rattle.model.specs.Outline.{record_size};
ghost use Rattle.model.specs.Glyf.{width, entry, entry_size};
ghost use Rattle.outline.specs.Places.{span_at, shape_of, component_at, component_id, end_from, kept_length};

// Where a glyph's bytes stand in glyf.
#[derive(Clone, Copy, Debug, PartialEq, Eq)]
pub struct Span {
    pub start: usize,
    pub end: usize,
}

// What the bytes are.
#[derive(Clone, Copy, Debug, PartialEq, Eq)]
pub enum Shape {
    Empty,
    Simple,
    Composite,
}

// A component record: its id and the place behind it; the last one says too whether the bytes behind it are kept.
// A record says by a flag whether another follows, so records are walked with `while let`: they can't be counted before.
#[derive(Clone, Copy, Debug, PartialEq, Eq)]
pub enum Component {
    More { id: usize, next: usize },
    Last { id: usize, next: usize, keep: bool },
}

impl Component {
    // Which glyph it is.
    pub fn id(self) -> usize
        ensures { result ≡ component_id self }
    {
        match self {
            Component::More { id, .. } | Component::Last { id, .. } => id,
        }
    }
}

const ARGUMENTS_ARE_WORDS: u16 = 0x0001;

const SCALE: u16 = 0x0008;

const MORE_COMPONENTS: u16 = 0x0020;

const TWO_SCALES: u16 = 0x0040;

const MATRIX: u16 = 0x0080;

const INSTRUCTIONS: u16 = 0x0100;

// Offset number i: "short ones doubled". `as` for the long one, since usize has no From<u32>.
fn entry_at(loca: &[u8], long: bool, i: usize) -> usize
    requires { entry_size (width long) * (i + 1) ≤ length loca.now }
    ensures { result ≡ entry (width long) loca.now i }
{
    if long {
        read::u32_at(loca, 4 * i) as usize
    } else {
        2 * usize::from(read::u16_at(loca, 2 * i))
    }
}

// "loca's two offsets; past glyf or descending: 3", which None stands for.
#[tactic(auto, unfolding(crate::specs::Places::span_at))]
pub fn locate(loca: &[u8], glyf: &[u8], long: bool, g: usize) -> Option<Span>
    requires { entry_size (width long) * (g + 2) ≤ length loca.now }
    ensures { result ≡ span_at (width long) loca.now glyf.now g }
{
    let start = entry_at(loca, long, g);
    let end = entry_at(loca, long, g + 1);
    if end < start || glyf.len() < end {
        return None;
    }
    Some(Span { start, end })
}

// "Empty is fine. Otherwise the first signed word; 1 byte is 3. Negative means composite: 10 header bytes". None: 3.
#[tactic(auto, unfolding(crate::specs::Places::shape_of))]
pub fn shape_of(b: &[u8]) -> Option<Shape>
    ensures { result ≡ shape_of b.now }
{
    match b.len() {
        0 => Some(Shape::Empty),
        1 => None,
        _ if !read::negative_at(b, 0) => Some(Shape::Simple),
        2..10 => None,
        _ => Some(Shape::Composite),
    }
}

// Whether one bit, which is a power of two, is set.
#[tactic(auto, using(crate::proofs::Flags::is_flag))]
fn flag(flags: u16, bit: u16) -> bool
    requires { bit ≡ 2 ^ low_zeros 16 bit }
    ensures { result ≡ flag bit flags }
{
    flags & bit != 0
}

// "4 argument bytes if flag 0x0001 else 2".
fn argument_bytes(flags: u16) -> usize
    ensures { result ≡ pick (flag 0x0001 flags) 4 2 }
{
    if flag(flags, ARGUMENTS_ARE_WORDS) {
        4
    } else {
        2
    }
}

// "then 2 bytes if 0x0008, else 4 if 0x0040, else 8 if 0x0080".
fn scale_bytes(flags: u16) -> usize
    ensures { result ≡ pick (flag 0x0008 flags) 2 (pick (flag 0x0040 flags) 4 (pick (flag 0x0080 flags) 8 0)) }
{
    if flag(flags, SCALE) {
        2
    } else if flag(flags, TWO_SCALES) {
        4
    } else if flag(flags, MATRIX) {
        8
    } else {
        0
    }
}

fn record_size(flags: u16) -> usize
    ensures { result ≡ record_size flags }
{
    4 + argument_bytes(flags) + scale_bytes(flags)
}

// The record at a place. "a cut record, or an id of n or more, is 3", which None stands for.
#[tactic(auto, unfolding(crate::specs::Places::component_at))]
pub fn component_at(b: &[u8], at: usize, n: usize) -> Option<Component>
    ensures { result ≡ component_at n b.now at }
{
    if !read::holds(b, at, 4) {
        return None;
    }
    let flags = read::u16_at(b, at);
    let size = record_size(flags);
    if !read::holds(b, at, size) {
        return None;
    }
    let id = usize::from(read::u16_at(b, at + 2));
    if n <= id {
        return None;
    }
    let next = at + size;
    Some(if flag(flags, MORE_COMPONENTS) {
        Component::More { id, next }
    } else {
        Component::Last {
            id,
            next,
            keep: flag(flags, INSTRUCTIONS),
        }
    })
}

// Where the kept bytes of a composite end, 0 for an unreadable one: "bytes after the last record are kept only if that record's flags hold 0x0100".
#[tactic(auto, using(crate::proofs::Records::taken_more, crate::proofs::Records::end_more, crate::proofs::Records::end_last, crate::proofs::Records::end_bad))]
fn kept_end(b: &[u8], n: usize) -> usize
    ensures { result ≡ value_of 0 (end_from n b.now 10) }
{
    let mut at = 10;
    while let Some(component) = component_at(b, at, n) {
        match component {
            Component::More { next, .. } => at = next,
            Component::Last { next, keep, .. } => return if keep { b.len() } else { next },
        }
    }
    0
}

// How many bytes of an outline are written again, whatever its components' new numbers are.
#[tactic(auto, using(crate::proofs::Glyphs::kept_by_lem), unfolding(crate::proofs::Glyphs::kept_by))]
pub fn kept_length(b: &[u8], n: usize) -> usize
    ensures { result ≡ kept_length n b.now }
{
    match shape_of(b) {
        Some(Shape::Simple) => b.len(),
        Some(Shape::Composite) => kept_end(b, n),
        Some(Shape::Empty) | None => 0,
    }
}
