// Who has which new number, and which components wait (the crate's remapper.rs, and its stack of glyphs): in 4n lent numbers.
// Four rows: the roster | new number + 1 by old id, 0: none | previous | next. The links are a ring through glyph 0, which never waits, so that
// unlinking and inserting have no branch and no top is carried; a glyph that doesn't wait is a ring of its own. A link is stored as its distance
// from the glyph, modulo 65,536, so that zeros make each glyph a ring of its own: nothing else has to be filled in before the walk.
#![tactic(auto)]

ghost use Rattle.std.specs.Prelude.{◌≡◌, ℕ, ◌+◌, ◌*◌, ◌-◌, ◌≤◌, ◌<◌, length, get_or, set, replicate};
ghost use Rattle.model.specs.Bytes.{put};
ghost use Rattle.remapper.specs.Scratch.{link, relinked, next, Linked, Sparse, Sweepable, unlinked, inserted, moved, offered, given, taken, started};
ghost use Rattle.remapper.specs.State.{Numbering, Asked};

use answer::Refusal;

// So many glyphs can have a number: "numbering a 65,536th is 7".
pub const MOST: usize = 65535;

// The number at g of the row that starts at base.
fn get(s: &[u16], base: usize, g: usize) -> usize
    requires { base + g < length s.now }
    ensures { (result ≡ get_or s.now (base + g) 0) × (result < 65536) }
{
    usize::from(s[base + g])
}

// `as` stays: that v fits is asked, so that try_from's other case would never come.
fn set(s: &mut [u16], base: usize, g: usize, v: usize)
    requires { (base + g < length s.old) × (v < 65536) }
    ensures { s.new ≡ set s.old (base + g) v }
{
    s[base + g] = v as u16;
}

// g's link in the row that starts at base. Ids are usize here and in the callers, and u16's wrapping_add with a cast on each side is no plainer.
#[tactic(auto, unfolding(crate::specs::Scratch::link))]
fn link(s: &[u16], base: usize, g: usize) -> usize
    requires { (base + g < length s.now) × (g < 65536) }
    ensures { (result ≡ link base s.now g) × (result < 65536) }
{
    (get(s, base, g) + g) % 65536
}

#[tactic(auto, unfolding(crate::specs::Scratch::relinked))]
fn set_link(s: &mut [u16], base: usize, g: usize, v: usize)
    requires { (base + g < length s.old) × (g < 65536) × (v < 65536) }
    ensures { s.new ≡ relinked base s.old g v }
{
    set(s, base, g, (v + 65536 - g) % 65536);
}

// The old id that has the number k.
pub fn old_id(s: &[u16], k: usize) -> usize
    requires { k < length s.now }
    ensures { result ≡ get_or s.now k 0 }
{
    usize::from(s[k])
}

// The component that waits on top, or 0.
pub fn top(s: &[u16], n: usize) -> usize
    requires { (n ≤ 65536) × (0 < n) × (4 * n ≤ length s.now) }
    ensures { result ≡ next n s.now 0 }
{
    let f = 3 * n;
    link(s, f, 0)
}

// Joins c's neighbours.
#[tactic(auto, unfolding(crate::specs::Scratch::unlinked))]
fn unlink(s: &mut [u16], n: usize, c: usize)
    requires { (n ≤ 65536) × (c < n) × Linked n s.old }
    ensures { s.new ≡ unlinked n s.old c }
{
    let p = 2 * n;
    let f = 3 * n;
    let u = link(s, p, c);
    let w = link(s, f, c);
    set_link(s, f, u, w);
    set_link(s, p, w, u);
}

// Puts c on top: after glyph 0.
#[tactic(auto, unfolding(crate::specs::Scratch::inserted))]
fn insert(s: &mut [u16], n: usize, c: usize)
    requires { (n ≤ 65536) × (c < n) × Linked n s.old }
    ensures { s.new ≡ inserted n s.old c }
{
    let p = 2 * n;
    let f = 3 * n;
    let t = link(s, f, 0);
    set_link(s, f, c, t);
    set_link(s, p, c, 0);
    set_link(s, p, t, c);
    set_link(s, f, 0, c);
}

#[tactic(auto, unfolding(crate::specs::Scratch::moved))]
fn move_top(s: &mut [u16], n: usize, c: usize)
    requires { (n ≤ 65536) × (c < n) × Linked n s.old }
    ensures { s.new ≡ moved n s.old c }
{
    unlink(s, n, c);
    insert(s, n, c);
}

// "push its components that are unnumbered .. A component pushed again may move to the top".
#[tactic(auto, unfolding(crate::specs::Scratch::offered))]
pub fn offer(s: &mut [u16], n: usize, c: usize)
    requires { (n ≤ 65536) × (c < n) × Linked n s.old }
    ensures { s.new ≡ offered n s.old c }
{
    if get(s, n, c) == 0 {
        move_top(s, n, c);
    }
}

// q gets the number k.
#[tactic(auto, unfolding(crate::specs::Scratch::given))]
fn give(s: &mut [u16], n: usize, q: usize, k: usize)
    requires { (n ≤ 65536) × (q < n) × (k < n) × (k < 65535) × (4 * n ≤ length s.old) }
    ensures { s.new ≡ given n s.old q k }
{
    set(s, 0, k, q);
    set(s, n, q, k + 1);
}

// The top component c leaves the ring and gets the number k.
#[tactic(auto, unfolding(crate::specs::Scratch::taken))]
pub fn take_top(s: &mut [u16], n: usize, c: usize, k: usize)
    requires { (n ≤ 65536) × (c < n) × (k < n) × (k < 65535) × Linked n s.old }
    ensures { s.new ≡ taken n s.old c k }
{
    unlink(s, n, c);
    give(s, n, c, k);
}

// A request is numbered: how many then have a number. "First appearances only; an id of n or more is 3; numbering a 65,536th, here or later, is 7".
pub fn ask(s: &mut [u16], n: usize, q: usize, count: usize) -> Result<usize, Refusal>
    requires { (n ≤ 65536) × Numbering n s.old count }
    ensures { Asked n s.old s.new q count result }
{
    if n <= q {
        return Err(Refusal::MalformedFont);
    }
    if get(s, n, q) != 0 {
        return Ok(count);
    }
    if MOST <= count {
        return Err(Refusal::TooManyGlyphs);
    }
    give(s, n, q, count);
    Ok(count + 1)
}

// So many zeros. (As `write::zeros` for bytes: one function for both types would be no shorter than this line.)
pub fn zeros(s: &mut [u16], at: usize, count: usize)
    requires { at + count ≤ length s.old }
    ensures { s.new ≡ put s.old at (replicate count 0) }
{
    s[at..at + count].fill(0);
}

// The bits of so many numbers together: LLVM takes eight numbers at a time.
fn bits(s: &[u16], at: usize, count: usize) -> u16
    requires { at + count ≤ length s.now }
    ensures { result ≡ 0 → (j : ℕ) → j < count → get_or s.now (at + j) 0 ≡ 0 }
{
    s[at..at + count].iter().fold(0, |all, x| all | *x)
}

// So many zeros, written unless they are there.
fn clear_block(s: &mut [u16], at: usize, count: usize)
    requires { at + count ≤ length s.old }
    ensures { s.new ≡ put s.old at (replicate count 0) }
{
    if bits(s, at, count) != 0 {
        zeros(s, at, count);
    }
}

// The same, block by block. A scratch that is lent again is zero but for a roster, and to look takes half as long as to write; where it is
// short, to write is as fast.
fn clear(s: &mut [u16], at: usize, count: usize)
    requires { at + count ≤ length s.old }
    ensures { s.new ≡ put s.old at (replicate count 0) }
{
    if count < 32768 {
        zeros(s, at, count);
        return;
    }
    let blocks = count / 512;
    for k in 0..blocks {
        clear_block(s, at + 512 * k, 512);
    }
    let done = 512 * blocks;
    zeros(s, at + done, count - done);
}

// Zeros in the row that starts at base, of which only the ids of the roster have other numbers: a few are put back one by one.
fn clear_row(s: &mut [u16], n: usize, kept: usize, base: usize)
    requires { Sparse n s.old kept base }
    ensures { s.new ≡ put s.old base (replicate n 0) }
{
    if n / 8 < kept {
        zeros(s, base, n);
        return;
    }
    for j in 0..kept {
        let g = usize::from(s[j]);
        s[base + g] = 0;
    }
}

// Zeros in both rows of links, where the roster's glyphs were linked, or where other things were written since.
fn clear_links(s: &mut [u16], n: usize, kept: usize, written: bool)
    requires { (n ≤ 65536) × (4 * n ≤ length s.old) × Sweepable n s.old kept written }
    ensures { s.new ≡ put s.old (2 * n) (replicate (2 * n) 0) }
{
    if written {
        zeros(s, 2 * n, 2 * n);
        return;
    }
    clear_row(s, n, kept, 2 * n);
    clear_row(s, n, kept, 3 * n);
}

// "its first N places are the roster: old ids in new order; the others of the first 4n are zero". What the walk wrote is put back, so that
// a large font of which little is kept is not gone over twice.
pub fn sweep(s: &mut [u16], n: usize, kept: usize, written: bool)
    requires { (n ≤ 65536) × (4 * n ≤ length s.old) × Sweepable n s.old kept written }
    ensures { s.new ≡ put s.old kept (replicate (4 * n - kept) 0) }
{
    clear_links(s, n, kept, written);
    clear_row(s, n, kept, n);
    clear(s, kept, n - kept);
}

// "Glyph 0 gets number 0", and nothing waits.
#[tactic(auto, unfolding(crate::specs::Scratch::started))]
pub fn start(s: &mut [u16], n: usize)
    requires { (0 < n) × (n ≤ 65536) × (4 * n ≤ length s.old) }
    ensures { s.new ≡ started n s.old }
{
    clear(s, n, 3 * n);
    give(s, n, 0, 0);
}
