// post: the glyphs' names (the crate's post.rs). Only version 2 has names of its own; any other is copied.
// Kept are the first 32 bytes; a kept glyph's index stays if it is 257 or below, and is else numbered from 258 on,
// its own name stored. `measure` looks for the names and uses the scratch's free half, of 2n numbers, for `write`:
// - if few of the glyphs are kept, or if there may be far more names than glyphs, the places it found are the last 2 * kept numbers,
//   two for each roster place, and `write` looks for nothing;
// - else all of the half is the index that it looked into, and `write` looks into it again.
#![tactic(auto)]

mod chains;
mod names;

ghost use Rattle.std.specs.Prelude.{◌≡◌, true, false, ℕ, ◌+◌, ◌*◌, ◌≤◌, ◌<◌, length, get_or, take};
ghost use mathlib.Core.List.{[], flat_map};
ghost use Rattle.model.specs.Res.{is_ok, value_of};
ghost use Rattle.model.specs.Bytes.{word16, put, over};
ghost use Rattle.model.specs.Post.{cut_post};
ghost use Rattle.post.specs.Post.{Stands, place_in, Index, index_of, PlaceAt, Located, many_names, placed_for, room_start, Indexed, name_bytes, index_bytes, head_bytes, post_bytes, Named, Answered, Tells, Measured};
ghost use Rattle.post.specs.Found.{places_at, index_for, PutAway, Sized, Placing, Sought};

use answer::Refusal;

// The kept glyphs looked through: how many names will be stored, and how many at the start of the old list hold all that are asked for.
#[derive(Clone, Copy)]
struct Asked {
    own: usize,
    want: usize,
}

// A name was found: the bytes it takes, and the chain that holds its place.
#[derive(Clone, Copy)]
struct Name {
    size: usize,
    chain: usize,
}

// Step 8: how long the new table is, or the refusal. The roster is scratch[..kept]; the free half gets what `write` needs.
pub fn measure(post: &[u8], scratch: &mut [u16], n: usize, kept: usize) -> Result<usize, Refusal>
    requires kept_bound { (kept ≤ 65535) × (kept ≤ n) × (0 < n) × (n ≤ 65536) × (4 * n ≤ length scratch.old) }
    requires post_len_bound { length post.now ≤ 4294967295 }
    ensures { Measured post.now scratch.old n kept result scratch.new }
{
    match test(post, &scratch[..kept])? {
        None => Ok(post.len()),
        Some(want) => Ok(34 + 2 * kept + find_names(post, want, scratch, n, kept)),
    }
}

// The new table, at the start of out, after `measure` found its size and left the names' places, or their index, in the scratch.
pub fn write(post: &[u8], scratch: &[u16], n: usize, kept: usize, out: &mut [u8])
    requires kept_bound { (kept ≤ 65535) × (kept ≤ n) × (n ≤ 65536) × (4 * n ≤ length scratch.now) }
    requires indexed { Indexed post.now scratch.now n kept }
    requires scratch_value { is_ok (cut_post post.now (take kept scratch.now)) ≡ true }
    requires scratch_in_bounds { length (value_of [] (cut_post post.now (take kept scratch.now))) ≤ length out.old }
    ensures { out.new ≡ over (value_of [] (cut_post post.now (take kept scratch.now))) out.old }
{
    if read::u32_at(post, 0) != 0x0002_0000 {
        write::copy(post, out, 0);
        return;
    }
    let found = placed(post.len(), n, kept);
    let from = room_start(found, n, kept);
    write_cut(post, &scratch[..kept], &scratch[from..4 * n], found, out);
}

// Every test, in the order that decides a refusal: the 5 comes after every 3. Of a table to copy nothing is wanted.
fn test(post: &[u8], ids: &[u16]) -> Result<Option<usize>, Refusal>
    ensures { Tells post.now ids.now result }
{
    if post.len() < 4 {
        return Err(Refusal::MalformedFont);
    }
    if read::u32_at(post, 0) != 0x0002_0000 {
        return Ok(None);
    }
    if post.len() < 34 {
        return Err(Refusal::MalformedFont);
    }
    if post.len() - 34 < 2 * usize::from(read::u16_at(post, 32)) {
        return Err(Refusal::MalformedFont);
    }
    let asked = ask(post, ids)?;
    // the last new index is 257 + own
    if 65535 - 257 < asked.own {
        return Err(Refusal::Overflow);
    }
    Ok(Some(asked.want))
}

// "No index for a kept id: 3"; else how many names will be stored, and below which number those that are asked for lie.
fn ask(post: &[u8], ids: &[u16]) -> Result<Asked, Refusal>
    requires { 34 + 2 * word16 post.now 32 ≤ length post.now }
    ensures { Answered post.now ids.now result }
{
    let count = read::u16_at(post, 32);
    let mut own: usize = 0;
    let mut want: usize = 0;
    for g in ids {
        if count <= *g {
            return Err(Refusal::MalformedFont);
        }
        let i = index_at(post, *g);
        if 258 <= i {
            own += 1;
        }
        want = want.max(i.saturating_sub(257));
    }
    Ok(Asked { own, want })
}

// The index of a glyph.
#[tactic(auto, unfolding(crate::specs::Post::index_of))]
fn index_at(post: &[u8], g: u16) -> usize
    requires { 34 + 2 * g + 2 ≤ length post.now }
    ensures { (result ≡ index_of post.now g) × (result < 65536) }
{
    usize::from(read::u16_at(post, 34 + 2 * usize::from(g)))
}

// Whether there may be far more names than glyphs: the table has over 32 bytes a glyph, where an index and a name take 15 or so. The
// free half has room for few of them, and a lookup would pass dozens; an array of 8,192 numbers, if that is more, holds the index.
#[tactic(auto, unfolding(crate::specs::Post::many_names))]
fn many(len: usize, n: usize) -> bool
    requires { n ≤ 65536 }
    ensures { result ≡ many_names len n }
{
    n < 4096 && 32 * n < len
}

// Whether the places that are found are put away for `write`: if few glyphs are kept there is room for them beside the index.
#[tactic(auto, unfolding(crate::specs::Post::placed_for))]
fn placed(len: usize, n: usize, kept: usize) -> bool
    requires { (kept ≤ 65535) × (n ≤ 65536) }
    ensures { result ≡ placed_for len n kept }
{
    4 * kept <= n || many(len, n)
}

// The first of the scratch's places (two numbers each) that is for a found one, behind the index; or none is.
#[tactic(auto, unfolding(crate::specs::Found::places_at))]
fn places_at(placed: bool, n: usize, kept: usize) -> usize
    requires { (kept ≤ n) × (n ≤ 65536) }
    ensures { result ≡ places_at placed n kept }
{
    if placed { 2 * n - kept } else { 2 * n }
}

// Where in the scratch begins what `write` goes by: the found places, or the index.
#[tactic(auto, unfolding(crate::specs::Post::room_start))]
fn room_start(placed: bool, n: usize, kept: usize) -> usize
    requires { (kept ≤ n) × (n ≤ 65536) }
    ensures { result ≡ room_start placed n kept }
{
    if placed { 4 * n - 2 * kept } else { 2 * n }
}

// Finds the names and says how many bytes they will take.
fn find_names(post: &[u8], want: usize, scratch: &mut [u16], n: usize, kept: usize) -> usize
    requires named { Named post.now (take kept scratch.old) × (want ≤ 65278) × (length post.now ≤ 4294967295) }
    requires kept_bound { (kept ≤ 65535) × (kept ≤ n) × (0 < n) × (n ≤ 65536) × (4 * n ≤ length scratch.old) }
    ensures { Sought post.now n kept scratch.old result scratch.new }
{
    if many(post.len(), n) {
        return find_among_many(post, want, scratch, n, kept);
    }
    let at = places_at(placed(post.len(), n, kept), n, kept);
    names::fill(post, want, kept, &mut scratch[2 * n..2 * at]);
    names_size(post, None, scratch, n, kept, at)
}

// The same with an index of its own, in a function of its own: elsewhere the array need not be cleared.
fn find_among_many(post: &[u8], want: usize, scratch: &mut [u16], n: usize, kept: usize) -> usize
    requires named { Named post.now (take kept scratch.old) × (want ≤ 65278) × (length post.now ≤ 4294967295) }
    requires kept_bound { (kept ≤ 65535) × (kept ≤ n) × (n ≤ 65536) × (4 * n ≤ length scratch.old) }
    requires n_value { many_names (length post.now) n ≡ true }
    ensures { Sought post.now n kept scratch.old result scratch.new }
{
    let mut index = [0u16; 8192];
    names::fill(post, want, kept, &mut index);
    names_size(post, Some(&index), scratch, n, kept, 2 * n - kept)
}

// How many bytes the stored names take. They are looked for in an index of their own, or, with none, in the scratch in front of place `at`.
fn names_size(
    post: &[u8],
    own: Option<&[u16]>,
    scratch: &mut [u16],
    n: usize,
    kept: usize,
    at: usize,
) -> usize
    requires named { Named post.now (take kept scratch.old) × (length post.now ≤ 4294967295) }
    requires index { Index post.now (index_for own scratch.old n at) }
    requires kept_bound { (kept ≤ 65535) × (kept ≤ n) × (n ≤ at) × (n ≤ 65536) × (at ≤ 2 * n) × (4 * n ≤ length scratch.old) }
    requires kept_bound_2 { at < 2 * n → at + kept ≤ 2 * n }
    ensures { (result ≡ length (flat_map (name_bytes post.now) (take kept scratch.old))) × Placing post.now n at kept scratch.old scratch.new }
{
    let mut size: usize = 0;
    let mut chain: usize = 0;
    for j in 0..kept {
        let named = name_size(post, own, scratch, n, at, chain, j);
        size += named.size;
        chain = named.chain;
    }
    size
}

// How many bytes the name of roster place j takes, its length byte too: none if its index is 257 or below, one if it is missing.
fn name_size(
    post: &[u8],
    own: Option<&[u16]>,
    scratch: &mut [u16],
    n: usize,
    at: usize,
    chain: usize,
    j: usize,
) -> Name
    requires index { Index post.now (index_for own scratch.old n at) × (length post.now ≤ 4294967295) }
    requires j_in_bounds { 34 + 2 * get_or scratch.old j 0 + 2 ≤ length post.now }
    requires j_lt_n { (j < n) × (n ≤ at) × (n ≤ 65536) × (at ≤ 2 * n) × (4 * n ≤ length scratch.old) }
    requires j_bound { at < 2 * n → at + j < 2 * n }
    ensures { Sized post.now n at j scratch.old result.size scratch.new }
{
    let i = index_at(post, scratch[j]);
    if i <= 257 {
        return Name { size: 0, chain };
    }
    let found = look_up(post, own, scratch, n, at, chain, i - 258);
    put_away(post, scratch, n, at, j, found.place);
    Name {
        size: 1 + names::size_at(post, found.place),
        chain: found.chain,
    }
}

// Where name k stands, looked for in a chain first.
fn look_up(
    post: &[u8],
    own: Option<&[u16]>,
    scratch: &[u16],
    n: usize,
    at: usize,
    chain: usize,
    k: usize,
) -> names::Near
    requires index { Index post.now (index_for own scratch.now n at) × (34 ≤ length post.now) }
    requires n_le_at { (n ≤ at) × (at ≤ 131072) × (2 * at ≤ length scratch.now) }
    ensures { Stands post.now result.place k }
{
    match own {
        None => names::name_near(post, &scratch[2 * n..2 * at], chain, k),
        Some(index) => names::name_near(post, index, chain, k),
    }
}

// The place found for roster place j, if places are put away.
fn put_away(post: &[u8], scratch: &mut [u16], n: usize, at: usize, j: usize, p: usize)
    requires n_bound { (n ≤ 65536) × (4 * n ≤ length scratch.old) × (length post.now ≤ 4294967295) }
    requires j_bound { at < 2 * n → at + j < 2 * n }
    ensures { PutAway post.now n at j p scratch.old scratch.new }
{
    if at < 2 * n {
        names::set_place(scratch, at + j, within(post, p));
    }
}

// A place as two numbers can say it: past the table there is nothing, and so at its end.
#[tactic(auto, using(crate::proofs::Walk::stands_within))]
fn within(post: &[u8], p: usize) -> usize
    ensures { (result ≤ length post.now) × ((k : ℕ) → Stands post.now p k → Stands post.now result k) }
{
    p.min(post.len())
}

// "each stored name after its length byte."
fn write_cut(post: &[u8], ids: &[u16], room: &[u16], found: bool, out: &mut [u8])
    requires named { Named post.now ids.now }
    requires located { Located post.now ids.now found room.now }
    requires ids_len_bound { (length ids.now ≤ 65535) × (length (post_bytes post.now ids.now) ≤ length out.old) }
    ensures { out.new ≡ over (post_bytes post.now ids.now) out.old }
{
    write_head(post, ids, out);
    write_names(post, ids, room, found, &mut out[34 + 2 * ids.len()..]);
}

// "Written: the old first 32 bytes, N, the indexes,"
fn write_head(post: &[u8], ids: &[u16], out: &mut [u8])
    requires named { Named post.now ids.now }
    requires ids_len_bound { (length ids.now ≤ 65535) × (34 + 2 * length ids.now ≤ length out.old) }
    ensures { out.new ≡ over (head_bytes post.now ids.now) out.old }
{
    write::copy(&post[..32], out, 0);
    write::put_u16(out, 32, ids.len() as u16);
    write_indexes(post, ids, &mut out[34..]);
}

// "Index 257 and below is kept; others are written as 258, 259 and on."
fn write_indexes(post: &[u8], ids: &[u16], out: &mut [u8])
    requires named { Named post.now ids.now }
    requires ids_in_bounds { 2 * length ids.now ≤ length out.old }
    ensures { out.new ≡ over (index_bytes post.now ids.now) out.old }
{
    let mut next: usize = 258;
    for (j, g) in ids.iter().enumerate() {
        let mut i = index_at(post, *g);
        if 257 < i {
            i = next;
            next += 1;
        }
        write::put_u16(out, 2 * j, i as u16);
    }
}

// The stored names, in roster order.
fn write_names(post: &[u8], ids: &[u16], room: &[u16], found: bool, out: &mut [u8])
    requires named { Named post.now ids.now }
    requires located { Located post.now ids.now found room.now }
    requires ids_in_bounds { length (flat_map (name_bytes post.now) ids.now) ≤ length out.old }
    ensures { out.new ≡ over (flat_map (name_bytes post.now) ids.now) out.old }
{
    let mut at: usize = 0;
    for (j, g) in ids.iter().enumerate() {
        at = put_name(post, room, found, j, *g, out, at);
    }
}

// A glyph's name after its length byte, "a missing one is stored empty"; and the place behind it.
fn put_name(
    post: &[u8],
    room: &[u16],
    found: bool,
    j: usize,
    g: u16,
    out: &mut [u8],
    at: usize,
) -> usize
    requires place_at { PlaceAt post.now found room.now j g }
    requires g_in_bounds { 34 + 2 * g + 2 ≤ length post.now }
    requires g_in_bounds_2 { at + length (name_bytes post.now g) ≤ length out.old }
    ensures { (out.new ≡ put out.old at (name_bytes post.now g)) × (result ≡ at + length (name_bytes post.now g)) }
{
    let i = index_at(post, g);
    if i <= 257 {
        return at;
    }
    let p = place_of(post, room, found, j, i - 258);
    let l = names::size_at(post, p);
    if l == 0 {
        out[at] = 0;
        return at + 1;
    }
    write::copy(&post[p..p + 1 + l], out, at);
    at + 1 + l
}

// Where name k stands, which is that of roster place j: as it was found, or looked for again.
fn place_of(post: &[u8], room: &[u16], found: bool, j: usize, k: usize) -> usize
    requires j_in_bounds { found ≡ true → (2 * j + 1 < length room.now) × Stands post.now (place_in room.now j) k }
    requires index { (found ≡ false → Index post.now room.now) × (34 ≤ length post.now) }
    ensures { Stands post.now result k }
{
    if found {
        return names::place(room, j);
    }
    names::name_at(post, room, k)
}
