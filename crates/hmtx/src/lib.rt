// hmtx and hhea of the smaller font (the crate's hmtx.rs; its reading was taken from ttf-parser).
// Step 6 of document 01 measures: it refuses with 5 or 3, or finds the new count of pairs and the new length.
// Written are "that many pairs of advance and bearing, then the other bearings", and hhea with the new count.
#![tactic(auto)]

ghost use Rattle.std.specs.Prelude.{◌≡◌, true, ◌+◌, ◌*◌, ◌-◌, ◌≤◌, ◌<◌, length, get_or};
ghost use Rattle.model.specs.Res.{is_ok, map_res};
ghost use Rattle.model.specs.Bytes.{over};
ghost use Rattle.model.specs.Metrics.{metrics, new_count, pairs, bearings, new_hmtx, new_hhea};
ghost use Rattle.hmtx.specs.Places.{advance_place, bearing_place, metric_at, metrics_at, Room};
ghost use Rattle.answer.specs.Answers.{res_of};
ghost use Rattle.hmtx.specs.Measures.{measured_of, sizes, counted, metrics_of};

use answer::Refusal;

// What step 6 finds: the new count, and the new hmtx's length.
#[derive(Clone, Copy)]
pub struct Measured {
    pub count: usize,
    pub size: usize,
}

// "An id below the old count reads advance and bearing at 4 times id"; another has the last long advance.
#[tactic(auto, unfolding(crate::specs::Places::advance_place))]
fn advance_place(c: usize, id: usize) -> usize
    requires { (0 < c) × (c ≤ 65535) × (id ≤ 65535) }
    ensures { result ≡ advance_place c id }
{
    if id < c { 4 * id } else { 4 * (c - 1) }
}

// "another reads its bearing at 4 times count + 2 times (id minus count)".
#[tactic(auto, unfolding(crate::specs::Places::bearing_place))]
fn bearing_place(c: usize, id: usize) -> usize
    requires { (0 < c) × (c ≤ 65535) × (id ≤ 65535) }
    ensures { result ≡ bearing_place c id }
{
    if id < c {
        4 * id + 2
    } else {
        4 * c + 2 * (id - c)
    }
}

// The new count, or the refusal if a kept metric lies outside hmtx: one pass tests and counts.
fn count_inside(hmtx: &[u8], c: usize, roster: &[u16]) -> Result<usize, Refusal>
    requires { (0 < c) × (c ≤ 65535) × (4 * (c - 1) + 2 ≤ length hmtx.now) }
    ensures { res_of result ≡ counted hmtx.now c roster.now }
{
    let mut count = 1;
    let mut last = 0;
    for (i, id) in roster.iter().enumerate() {
        let id = usize::from(*id);
        if hmtx.len() < bearing_place(c, id) + 2 {
            return Err(Refusal::MalformedFont);
        }
        let advance = read::u16_at(hmtx, advance_place(c, id));
        if advance != last {
            count = i + 1;
            last = advance;
        }
    }
    Ok(count)
}

// Step 6.
pub fn measure(hhea: &[u8], hmtx: &[u8], roster: &[u16]) -> Result<Measured, Refusal>
    requires { (36 ≤ length hhea.now) × (0 < length roster.now) × (length roster.now ≤ 65535) }
    ensures { measured_of result ≡ map_res sizes (metrics hhea.now hmtx.now roster.now) }
{
    let c = usize::from(read::u16_at(hhea, 34));
    if c == 0 {
        return Err(Refusal::Overflow);
    }
    if hmtx.len() < 4 * (c - 1) + 2 {
        return Err(Refusal::MalformedFont);
    }
    let count = count_inside(hmtx, c, roster)?;
    Ok(Measured {
        count,
        size: 2 * roster.len() + 2 * count,
    })
}

// The pairs of advance and bearing of these glyphs.
fn write_pairs(hmtx: &[u8], c: usize, roster: &[u16], out: &mut [u8])
    requires room { Room hmtx.now c roster.now }
    requires roster_in_bounds { 4 * length roster.now ≤ length out.old }
    ensures { out.new ≡ over (pairs (metrics_at hmtx.now c roster.now)) out.old }
{
    for (i, id) in roster.iter().enumerate() {
        let id = usize::from(*id);
        write::put_u16(out, 4 * i, read::u16_at(hmtx, advance_place(c, id)));
        write::put_u16(out, 4 * i + 2, read::u16_at(hmtx, bearing_place(c, id)));
    }
}

// Their bearings alone. No twin of `write_pairs`: a turn puts other bytes, at another step.
fn write_bearings(hmtx: &[u8], c: usize, roster: &[u16], out: &mut [u8])
    requires room { Room hmtx.now c roster.now }
    requires roster_in_bounds { 2 * length roster.now ≤ length out.old }
    ensures { out.new ≡ over (bearings (metrics_at hmtx.now c roster.now)) out.old }
{
    for (i, id) in roster.iter().enumerate() {
        write::put_u16(
            out,
            2 * i,
            read::u16_at(hmtx, bearing_place(c, usize::from(*id))),
        );
    }
}

// "that many pairs of advance and bearing, then the other bearings", at the start of out.
fn write_metrics(hmtx: &[u8], c: usize, roster: &[u16], count: usize, out: &mut [u8])
    requires room { Room hmtx.now c roster.now }
    requires count_in_bounds { (count ≤ length roster.now) × (2 * length roster.now + 2 * count ≤ length out.old) }
    ensures { out.new ≡ over (new_hmtx count (metrics_at hmtx.now c roster.now)) out.old }
{
    write_pairs(hmtx, c, &roster[..count], out);
    write_bearings(hmtx, c, &roster[count..], &mut out[4 * count..]);
}

// hmtx, at the start of out; the count and the room are those that `measure` found.
pub fn write_hmtx(hhea: &[u8], hmtx: &[u8], roster: &[u16], count: usize, out: &mut [u8])
    requires in_bounds { (36 ≤ length hhea.now) × (0 < length roster.now) × (length roster.now ≤ 65535) }
    requires roster_value { is_ok (metrics hhea.now hmtx.now roster.now) ≡ true }
    requires count_value { count ≡ new_count (metrics_of hhea.now hmtx.now roster.now) }
    requires roster_in_bounds { length (new_hmtx count (metrics_of hhea.now hmtx.now roster.now)) ≤ length out.old }
    ensures { out.new ≡ over (new_hmtx count (metrics_of hhea.now hmtx.now roster.now)) out.old }
{
    write_metrics(
        hmtx,
        usize::from(read::u16_at(hhea, 34)),
        roster,
        count,
        out,
    );
}

// hhea, at the start of out: "all but its last two bytes, then the new count".
pub fn write_hhea(hhea: &[u8], count: usize, out: &mut [u8])
    requires { (2 ≤ length hhea.now) × (length hhea.now ≤ length out.old) × (count ≤ 65535) }
    ensures { out.new ≡ over (new_hhea hhea.now count) out.old }
{
    let n = hhea.len() - 2;
    write::copy(&hhea[..n], out, 0);
    write::put_u16(out, n, count as u16);
}
