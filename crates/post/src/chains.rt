// The names' places by walks side by side. A walk waits at each name for its length byte, so that four walks in one loop take
// little longer than one. Three of the four start at guessed places. One that comes exactly to where the next one started shows
// that guess to be right: the two are then one walk. Each leaves a chain: the distance of every name from the chain's first, one
// number a name, in its share of the room. There are as many rounds of four walks as make a chain short enough for a distance.
ghost use Rattle.std.specs.Prelude.{◌≡◌, true, ◌+◌, ◌*◌, ◌≤◌, ◌<◌, length, get_or, OnSome};
ghost use Rattle.model.specs.Bytes.{word16};
ghost use Rattle.post.specs.Post.{Stands, place_in, Chained};
ghost use Rattle.post.specs.Chains.{Chain, Stepped, Spaced, Four, Ran, Went, Joined, Headed, Heads, Rounded, Led, Begun};

use crate::names;

// A walk: where it is, and how many names it has passed.
#[derive(Clone, Copy)]
struct Lane {
    p: usize,
    n: usize,
}

// Where four walks start, and where the last one may stop.
#[derive(Clone, Copy)]
struct Starts {
    a: usize,
    b: usize,
    c: usize,
    d: usize,
    end: usize,
}

// Four walks. None has passed more names than there were turns. They are fields and no array, so that
// LLVM keeps each in a register with no loop over them to unroll first.
#[derive(Clone, Copy)]
struct Lanes {
    a: Lane,
    b: Lane,
    c: Lane,
    d: Lane,
    turns: usize,
}

// The index of names below `want`, as chains, if all guesses were right. Chains are made quickly, and a name is found in them a
// little more slowly: they are for few lookups, and for enough names to be worth four walks. Names aren't equally long, so that a
// chain has room for a quarter more than its part. All this decides how long it takes, never what is right.
pub fn fill(post: &[u8], want: usize, lookups: usize, room: &mut [u16]) -> bool
    requires post_in_bounds { (34 + 2 * word16 post.now 32 ≤ length post.now) × (length post.now ≤ 4294967295) }
    requires want_bound { (want ≤ 65278) × (length room.old ≤ 131072) }
    ensures { result ≡ true → (get_or room.new 0 0 ≡ 0) × Chained post.now room.new }
{
    if want < 512 {
        return false;
    }
    if want / 3 < lookups {
        return false;
    }
    let count = usize::from(read::u16_at(post, 32));
    let start = 34 + 2 * count;
    let end = estimate(post.len(), start, want, count);
    let rounds = rounds_for(end - start);
    let chains = 4 * rounds;
    if room.len() < 4 + 4 * chains + want + want / 4 {
        return false;
    }
    let q = (room.len() - 4 - 4 * chains) / chains;
    room[0] = 0;
    room[1] = q as u16;
    room[2] = chains as u16;
    all_rounds(post, want, room, q, rounds, start, end).is_some()
}

// Where so many names end, if all are equally long: at least as many as the indexes that aren't standard names.
fn estimate(len: usize, start: usize, want: usize, count: usize) -> usize
    requires { (start ≤ len) × (len ≤ 4294967295) × (want ≤ 65278) }
    ensures { (start ≤ result) × (result ≤ len) }
{
    let all = len - start;
    if count <= want + 258 {
        return len;
    }
    let part = all * want / (count - 258);
    start + part.min(all)
}

// Two, or as many as leave 250,000 bytes to each: none may have more than 260,000, and one starts a little before or behind its part.
fn rounds_for(len: usize) -> usize
    requires { len ≤ 4294967295 }
    ensures { (2 ≤ result) × (result ≤ 17180) }
{
    if len <= 500000 {
        return 2;
    }
    1 + len / 250000
}

// The list's parts, a round each, from where the one before ended. The last stands apart: it goes on to the name that is wanted. And
// since `round` is called from two places LLVM leaves it by itself: put into the caller, the call took 1.15 times as long.
fn all_rounds(
    post: &[u8],
    want: usize,
    room: &mut [u16],
    q: usize,
    rounds: usize,
    start: usize,
    end: usize,
) -> Option<Lane>
    requires start_value { (start ≡ 34 + 2 * word16 post.now 32) × (start ≤ end) × (end ≤ length post.now) × (length post.now ≤ 4294967295) }
    requires le_rounds { (2 ≤ rounds) × (4 + 4 * (4 * rounds) + 4 * rounds * q ≤ length room.old) × (length room.old ≤ 131072) × (q ≤ 32768) }
    requires room_value { (get_or room.old 0 0 ≡ 0) × (get_or room.old 1 0 ≡ q) × (get_or room.old 2 0 ≡ 4 * rounds) }
    ensures { OnSome result ((get_or room.new 0 0 ≡ 0) × Chained post.now room.new) }
{
    let part = (end - start) / rounds;
    let chains = 4 * rounds;
    let mut from = Lane { p: start, n: 0 };
    for j in 0..rounds - 1 {
        let stop = start + (j + 1) * part;
        from = round(post, room, q, chains, 4 * j, from, stop, 0)?;
    }
    round(post, room, q, chains, chains - 4, from, end, want)
}

// Chains i to i + 3, from a name's place and number on. None: the four walks have missed each other; else where they came to.
fn round(
    post: &[u8],
    room: &mut [u16],
    q: usize,
    chains: usize,
    i: usize,
    from: Lane,
    end: usize,
    want: usize,
) -> Option<Lane>
    requires led { Led post.now room.old q chains i from }
    requires end_in_bounds { (end ≤ length post.now) × (length post.now ≤ 4294967295) }
    ensures { Rounded post.now q chains i from.n room.old result room.new }
{
    let start = from.p;
    if end <= start {
        return None;
    }
    if 260000 < end - start {
        return None;
    }
    let at = 4 + 4 * chains + i * q;
    let s = guess_starts(post, start, end);
    let ahead = run::<false>(post, room, at, q, s, begin(s));
    let f = run::<true>(post, room, at, q, s, ahead);
    if met(s, f) {
        return finish(post, room, q, chains, i, from, s, f, want);
    }
    None
}

// The four walks have met: the last one goes on to the name that is wanted, and the chains get their heads.
fn finish(
    post: &[u8],
    room: &mut [u16],
    q: usize,
    chains: usize,
    i: usize,
    from: Lane,
    s: Starts,
    f: Lanes,
    want: usize,
) -> Option<Lane>
    requires led { Led post.now room.old q chains i from × Spaced post.now s × (length post.now ≤ 4294967295) }
    requires four { Four post.now room.old (4 + 4 * chains + i * q) q s f.turns f.a f.b f.c f.d × Joined s f × (f.turns ≤ q) × (s.a ≡ from.p) }
    ensures { Rounded post.now q chains i from.n room.old result room.new }
{
    let n = from.n + f.a.n + f.b.n + f.c.n;
    let names = want.saturating_sub(n);
    let at = 4 + 4 * chains + (i + 3) * q;
    let d = go_on(post, room, s.d, at, q, f.d, names);
    if 65535 < n + d.n {
        return None;
    }
    set_heads(room, i, from.n, s, f.a.n, f.b.n, f.c.n, d.n);
    Some(Lane { p: d.p, n: n + d.n })
}

// Each at the first byte behind its part of the way that no name holds: below '-', or if there is none, above 'z'.
fn guess_starts(post: &[u8], start: usize, end: usize) -> Starts
    requires { (start < end) × (end ≤ start + 260000) × (end ≤ length post.now) × (length post.now ≤ 4294967295) }
    ensures { Spaced post.now result × (result.a ≡ start) }
{
    let part = (end - start) / 4;
    Starts {
        a: start,
        b: guess(post, start + part, end),
        c: guess(post, start + 2 * part, end),
        d: guess(post, start + 3 * part, end),
        end,
    }
}

// One loop for both: by two calls of `position` a measured list took 1.2 times as long.
fn guess(post: &[u8], from: usize, end: usize) -> usize
    requires { (from ≤ end) × (end ≤ length post.now) × (length post.now ≤ 4294967295) }
    ensures { (from ≤ result) × (result ≤ from + 256) × (result ≤ end) }
{
    let stop = end.min(from + 256);
    let mut far = stop;
    for p in from..stop {
        if post[p] < b'-' {
            return p;
        }
        if b'z' < post[p] {
            far = far.min(p);
        }
    }
    far
}

// Where the four walks stand before their first turn.
fn begin(s: Starts) -> Lanes
    ensures { Begun s result }
{
    Lanes {
        a: Lane { p: s.a, n: 0 },
        b: Lane { p: s.b, n: 0 },
        c: Lane { p: s.c, n: 0 },
        d: Lane { p: s.d, n: 0 },
        turns: 0,
    }
}

// The four walks as long as none rests, or with ALL until all rest. ALL is no argument, but makes two functions of this one: the
// first one's test tells LLVM that no step is at its limit, and with a flag in its place the walks took 1.4 times as long.
// A while, since the turns are part of the answer.
fn run<const ALL: bool>(
    post: &[u8],
    room: &mut [u16],
    at: usize,
    q: usize,
    s: Starts,
    from: Lanes,
) -> Lanes
    requires spaced { Spaced post.now s × (length post.now ≤ 4294967295) × (at + 4 * q ≤ length room.old) }
    requires four { Four post.now room.old at q s from.turns from.a from.b from.c from.d × (from.turns ≤ q) }
    ensures { Ran post.now at q s room.old result room.new }
{
    let mut f = from;
    while f.turns < q && !resting::<ALL>(s, f) {
        f.a = step(post, room, s.a, s.b, at, f.a);
        f.b = step(post, room, s.b, s.c, at + q, f.b);
        f.c = step(post, room, s.c, s.d, at + 2 * q, f.c);
        f.d = step(post, room, s.d, s.end, at + 3 * q, f.d);
        f.turns += 1;
    }
    f
}

// Whether one walk is at its limit, or with ALL each is.
fn resting<const ALL: bool>(s: Starts, f: Lanes) -> bool {
    if ALL {
        s.b <= f.a.p && s.c <= f.b.p && s.d <= f.c.p && s.end <= f.d.p
    } else {
        s.b <= f.a.p || s.c <= f.b.p || s.d <= f.c.p || s.end <= f.d.p
    }
}

// One name further on, its place put down as the distance from the walk's start. From its limit on a walk rests. Where the list
// ends it leaves the table, so that it meets no other.
fn step(post: &[u8], room: &mut [u16], base: usize, limit: usize, at: usize, l: Lane) -> Lane
    requires chain { Chain post.now room.old base at l }
    requires limit_bound { (limit ≤ base + 65536) × (limit ≤ length post.now) × (length post.now ≤ 4294967295) × (at + l.n < length room.old) }
    ensures { Stepped post.now base at l room.old result room.new }
{
    let Lane { p, n } = l;
    if limit <= p {
        return l;
    }
    let size = usize::from(post[p]);
    room[at + n] = (p - base) as u16;
    if size == 0 {
        return Lane {
            p: post.len() + 1,
            n: n + 1,
        };
    }
    Lane {
        p: p + 1 + size,
        n: n + 1,
    }
}

// Every walk but the last ended where the next one began.
fn met(s: Starts, f: Lanes) -> bool
    ensures { result ≡ true → Joined s f }
{
    f.a.p == s.b && f.b.p == s.c && f.c.p == s.d && 0 < f.a.n && 0 < f.b.n && 0 < f.c.n && 0 < f.d.n
}

// One walk alone, to so many names.
fn go_on(
    post: &[u8],
    room: &mut [u16],
    base: usize,
    at: usize,
    q: usize,
    from: Lane,
    names: usize,
) -> Lane
    requires chain { Chain post.now room.old base at from × (length post.now ≤ 4294967295) }
    requires base_in_bounds { (base ≤ length post.now) × (from.n ≤ q) × (at + q ≤ length room.old) }
    ensures { Went post.now base at q from room.old result room.new }
{
    let limit = post.len().min(base + 65536);
    let mut l = from;
    for _turns in from.n..names.min(q) {
        l = step(post, room, base, limit, at, l);
        if limit <= l.p {
            return l;
        }
    }
    l
}

// The heads of four chains.
fn set_heads(
    room: &mut [u16],
    i: usize,
    first: usize,
    s: Starts,
    a: usize,
    b: usize,
    c: usize,
    d: usize,
)
    requires i_in_bounds { (20 + 4 * i ≤ length room.old) × (0 < a) × (0 < b) × (0 < c) × (0 < d) × (first + a + b + c + d ≤ 65535) }
    requires a_bound { (s.a ≤ 4294967295) × (s.b ≤ 4294967295) × (s.c ≤ 4294967295) × (s.d ≤ 4294967295) }
    ensures { Heads i first s a b c d room.old room.new }
{
    set_head(room, i, s.a, first, a - 1);
    set_head(room, i + 1, s.b, first + a, b - 1);
    set_head(room, i + 2, s.c, first + a + b, c - 1);
    set_head(room, i + 3, s.d, first + a + b + c, d - 1);
}

// A chain's first place, that name's number, and the last name's number in the chain.
fn set_head(room: &mut [u16], i: usize, base: usize, first: usize, last: usize)
    requires { (8 + 4 * i ≤ length room.old) × (base ≤ 4294967295) × (first ≤ 65535) × (last ≤ 65535) }
    ensures { Headed i base first last room.old room.new }
{
    names::set_place(room, 2 + 2 * i, base);
    room[6 + 4 * i] = first as u16;
    room[7 + 4 * i] = last as u16;
}

// Where name k stands, or where the list ended before it, and in which chain: that of the last lookup, which roster order mostly comes
// back to, or the last one whose first name isn't behind it.
pub fn name_near(post: &[u8], room: &[u16], chain: usize, k: usize) -> names::Near
    requires { Chained post.now room.now }
    ensures { Stands post.now result.place k }
{
    let i = near(room, chain, k);
    names::Near {
        place: name_in(post, room, i, k),
        chain: i,
    }
}

// Where name k stands, with no lookup before it. A function of its own, called from one place: passed on through a call that is not
// put into its caller, the slices are stored and loaded again, and a lookup by stride took twice as long.
pub fn name_at(post: &[u8], room: &[u16], k: usize) -> usize
    requires { Chained post.now room.now }
    ensures { Stands post.now result k }
{
    name_in(post, room, chain_of(room, k), k)
}

// The chain, if it holds name k, or else the last one whose first name isn't behind it.
fn near(room: &[u16], chain: usize, k: usize) -> usize
    requires { (8 ≤ get_or room.now 2 0) × (4 + 4 * get_or room.now 2 0 ≤ length room.now) × (get_or room.now 6 0 ≡ 0) }
    ensures { (result < get_or room.now 2 0) × (get_or room.now (6 + 4 * result) 0 ≤ k) }
{
    if chain < usize::from(room[2]) {
        let first = usize::from(room[6 + 4 * chain]);
        if first <= k && k - first <= usize::from(room[7 + 4 * chain]) {
            return chain;
        }
    }
    chain_of(room, k)
}

// In a chain whose first name isn't behind it, name k stands at its place there, or as far behind the last place as is left.
fn name_in(post: &[u8], room: &[u16], i: usize, k: usize) -> usize
    requires { Chained post.now room.now × (i < get_or room.now 2 0) × (get_or room.now (6 + 4 * i) 0 ≤ k) }
    ensures { Stands post.now result k }
{
    let j = k - usize::from(room[6 + 4 * i]);
    let last = usize::from(room[7 + 4 * i]);
    if last < j {
        return names::walk(post, in_chain(room, i, last), j - last);
    }
    in_chain(room, i, j)
}

// Where name j of chain i stands.
fn in_chain(room: &[u16], i: usize, j: usize) -> usize
    requires { (i < get_or room.now 2 0) × (4 + 4 * get_or room.now 2 0 + i * get_or room.now 1 0 + j < length room.now) }
    ensures { result ≡ place_in room.now (2 + 2 * i) + get_or room.now (4 + 4 * get_or room.now 2 0 + i * get_or room.now 1 0 + j) 0 }
{
    let at = 4 + 4 * usize::from(room[2]) + i * usize::from(room[1]);
    names::place(room, 2 + 2 * i) + usize::from(room[at + j])
}

// The last chain whose first name isn't behind name k, by halving. Only huge lists have more than eight chains, so that the last steps
// are always for eight: in a loop LLVM makes branches of them, and half of those are guessed wrong.
fn chain_of(room: &[u16], k: usize) -> usize
    requires { (8 ≤ get_or room.now 2 0) × (4 + 4 * get_or room.now 2 0 ≤ length room.now) × (get_or room.now 6 0 ≡ 0) }
    ensures { (result < get_or room.now 2 0) × (get_or room.now (6 + 4 * result) 0 ≤ k) }
{
    let mut i = 0;
    let mut more = usize::from(room[2]);
    while 8 < more {
        let step = (more / 2).min(more - 8);
        i = later(room, i, step, k);
        more -= step;
    }
    let half = later(room, i, 4, k);
    let quarter = later(room, half, 2, k);
    later(room, quarter, 1, k)
}

// So many chains further on, if name k isn't in front of that one.
fn later(room: &[u16], i: usize, more: usize, k: usize) -> usize
    requires { (8 + 4 * (i + more) ≤ length room.now) × (get_or room.now (6 + 4 * i) 0 ≤ k) }
    ensures { (result ≤ i + more) × (get_or room.now (6 + 4 * result) 0 ≤ k) }
{
    let j = i + more;
    if usize::from(room[6 + 4 * j]) <= k {
        return j;
    }
    i
}
