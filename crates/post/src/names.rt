// Where post's names stand. They have no directory: each is a length byte and so many bytes, one behind the other, so that
// name k is found by walking. The places of the names that are asked for are put into a free part of the scratch: in chains
// (chains.rt), or two numbers a place, after the stride and the number of the last place held.
ghost use Rattle.std.specs.Prelude.{◌≡◌, ◌+◌, ◌*◌, ◌≤◌, ◌<◌, ◌/◌, min, length, get_or};
ghost use Rattle.model.specs.Bytes.{word16};
ghost use Rattle.post.specs.Post.{size_at, walked, Stands, place_in, with_place, Strided, Index};

use crate::chains;

// Where a name stands, and in which chain it was found.
#[derive(Clone, Copy)]
pub struct Near {
    pub place: usize,
    pub chain: usize,
}

// How long the name at p is. "The names list ends at an empty or cut name": then 0.
pub fn size_at(post: &[u8], p: usize) -> usize
    ensures { result ≡ size_at post.now p }
{
    if post.len() <= p {
        return 0;
    }
    let l = usize::from(post[p]);
    let b = p + 1;
    if post.len() - b < l {
        return 0;
    }
    l
}

// So many names further on; where the list ends the walk stays.
pub fn walk(post: &[u8], from: usize, steps: usize) -> usize
    ensures { result ≡ walked post.now from steps }
{
    let mut p = from;
    for _step in 0..steps {
        let l = size_at(post, p);
        if l == 0 {
            return p;
        }
        // p + 1 is at hand from size_at's test, so that a turn waits for one load and one sum
        p = p + 1 + l;
    }
    p
}

// The places of the names below `want`, into room, for so many lookups.
pub fn fill(post: &[u8], want: usize, lookups: usize, room: &mut [u16])
    requires post_in_bounds { (34 + 2 * word16 post.now 32 ≤ length post.now) × (length post.now ≤ 4294967295) }
    requires want_bound { (want ≤ 65278) × (2 ≤ length room.old) × (length room.old ≤ 131072) }
    ensures { Index post.now room.new }
{
    if chains::fill(post, want, lookups, room) {
        return;
    }
    fill_stride(post, want, room);
}

// Two numbers a place. If there are more names than the room holds places, those of every s-th name, so that no name is more than
// s - 1 names behind a place. `want` decides how long this takes, never what is right.
fn fill_stride(post: &[u8], want: usize, room: &mut [u16])
    requires post_in_bounds { (34 + 2 * word16 post.now 32 ≤ length post.now) × (length post.now ≤ 4294967295) }
    requires want_bound { (want ≤ 65278) × (2 ≤ length room.old) }
    ensures { Index post.now room.new }
{
    let s = want / (room.len() / 2) + 1;
    let last = want / s;
    let mut p = 34 + 2 * usize::from(read::u16_at(post, 32));
    for j in 0..last {
        p = walk(post, p, s);
        set_place(room, j + 1, p);
    }
    room[0] = s as u16;
    room[1] = last as u16;
}

// Where name k stands, or where the list ended before it. With many lookups every name has its place, two numbers, and this is all
// there is to do; what is done else stands apart, so that this stays short enough to be put into the loops that call it. And that
// is called from two places: from one, LLVM puts it in here, and lookups and all took 1.05 to 1.1 times as many instructions.
pub fn name_at(post: &[u8], room: &[u16], k: usize) -> usize
    requires index { Index post.now room.now }
    requires in_bounds { 34 ≤ length post.now }
    ensures { Stands post.now result k }
{
    if room[0] == 1 {
        if 0 < k && k <= usize::from(room[1]) {
            return place(room, k);
        }
        return name_far(post, room, k);
    }
    name_far(post, room, k)
}

// The same beside the lookup before it, which was in this chain.
pub fn name_near(post: &[u8], room: &[u16], chain: usize, k: usize) -> Near
    requires index { Index post.now room.now }
    requires in_bounds { 34 ≤ length post.now }
    ensures { Stands post.now result.place k }
{
    if room[0] == 0 {
        return chains::name_near(post, room, chain, k);
    }
    Near {
        place: name_at(post, room, k),
        chain,
    }
}

fn name_far(post: &[u8], room: &[u16], k: usize) -> usize
    requires index { Index post.now room.now }
    requires in_bounds { 34 ≤ length post.now }
    ensures { Stands post.now result k }
{
    let s = usize::from(room[0]);
    if s == 0 {
        return chains::name_at(post, room, k);
    }
    name_by_stride(post, room, k, s)
}

fn name_by_stride(post: &[u8], room: &[u16], k: usize, s: usize) -> usize
    requires strided { Strided post.now room.now × (0 < s) × (s ≡ get_or room.now 0 0) }
    requires in_bounds { 34 ≤ length post.now }
    ensures { Stands post.now result k }
{
    let j = slot(k, s, usize::from(room[1]));
    if j == 0 {
        return walk(post, 34 + 2 * usize::from(read::u16_at(post, 32)), k);
    }
    walk(post, place(room, j), k - j * s)
}

// The last held place that is not behind name k. The stride is nearly always 1, and a division is slow.
fn slot(k: usize, s: usize, last: usize) -> usize
    requires { 0 < s }
    ensures { result ≡ min (k / s) last }
{
    let j = if s == 1 { k } else { k / s };
    j.min(last)
}

// Place j of the room, its low half first. (The library puts bytes together to a number, no halves of 16 bits.)
#[tactic(auto, unfolding(crate::specs::Post::place_in))]
pub fn place(room: &[u16], j: usize) -> usize
    requires { 2 * j + 1 < length room.now }
    ensures { (result ≡ place_in room.now j) × (result < 4294967296) }
{
    usize::from(room[2 * j]) + 65536 * usize::from(room[2 * j + 1])
}

#[tactic(auto, unfolding(crate::specs::Post::with_place))]
pub fn set_place(room: &mut [u16], j: usize, p: usize)
    requires { (2 * j + 1 < length room.old) × (p < 4294967296) }
    ensures { room.new ≡ with_place room.old j p }
{
    room[2 * j] = (p % 65536) as u16;
    room[2 * j + 1] = (p / 65536) as u16;
}
