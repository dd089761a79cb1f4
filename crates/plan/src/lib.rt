// Steps 6 to 8: every table is measured, in the order that decides a refusal, before a byte of the output is written
// (the first half of what `process` does in the crate's lib.rs).
#![tactic(auto)]

ghost use Rattle.std.specs.Prelude.{◌≡◌, ◌≤◌, ◌<◌, take};
ghost use Rattle.model.specs.Res.{map_res};
ghost use Rattle.model.specs.Metrics.{metrics};
ghost use Rattle.model.specs.Name.{cut_name};
ghost use Rattle.model.specs.Cut.{optional, rewrite};
ghost use Rattle.answer.specs.Answers.{res_of};
ghost use Rattle.places.specs.Places.{place_at, present_at, contents, Within};
ghost use Rattle.hmtx.specs.Measures.{measured_of, sizes};
ghost use Rattle.plan.specs.Steps.{length_in, sized_place, sized_by, plan_of};
ghost use Rattle.plan.specs.Sources.{font_of, Long, Opens, Walked, OutlinesAdded, PostSized, Planned};

use answer::Refusal;
use hmtx::Measured;
use places::{Place, Tables};

// What the walk and the measures are lent of a font: the tables' places, whether its loca is long, and document 01's n.
#[derive(Clone, Copy)]
pub struct Source {
    pub tables: Tables,
    pub long: bool,
    pub n: usize,
}

// The kept outlines' lengths together, as the walk added them up: odd ones raised by 1, and as they are.
#[derive(Clone, Copy)]
pub struct Sums {
    pub even: usize,
    pub raw: usize,
}

// What the measures found, if all pass: the new count of long metrics; whether the new loca is long; the places with each
// table's new length.
#[derive(Clone, Copy)]
pub struct Plan {
    pub count: usize,
    pub wide: bool,
    pub sized: Tables,
}

pub fn open_source(font: &[u8], t: Tables) -> Source
    requires { Within font.now t × Long (contents font.now t) }
    ensures { (result.tables ≡ t) × Opens font.now result }
{
    let long = head::is_long(face::table(font, t, places::HEAD));
    let n = head::glyph_count(face::table(font, t, places::LOCA), long);
    Source { tables: t, long, n }
}

// Step 6, and the new hmtx's length.
fn metrics_size(font: &[u8], s: Source, kept: usize, scratch: &[u16]) -> Result<Measured, Refusal>
    requires { Opens font.now s × Walked font.now s scratch.now kept }
    ensures { measured_of result ≡ map_res sizes (metrics (font_of font.now s).hhea (font_of font.now s).hmtx (take kept scratch.now)) }
{
    hmtx::measure(
        face::table(font, s.tables, places::HHEA),
        face::table(font, s.tables, places::HMTX),
        &scratch[..kept],
    )
}

// Step 7; an absent table has no bytes.
fn name_size(font: &[u8], t: Tables) -> Result<usize, Refusal>
    requires { Within font.now t }
    ensures { res_of result ≡ map_res length_in (optional cut_name (contents font.now t).name) }
{
    if t.places[places::NAME].is_none() {
        return Ok(0);
    }
    name::measure(face::table(font, t, places::NAME))
}

// Step 8.
fn post_size(font: &[u8], s: Source, kept: usize, scratch: &mut [u16]) -> Result<usize, Refusal>
    requires { Opens font.now s × Walked font.now s scratch.old kept }
    ensures { PostSized (font_of font.now s) s.n kept scratch.old scratch.new result }
{
    if s.tables.places[places::POST].is_none() {
        return Ok(0);
    }
    post::measure(
        face::table(font, s.tables, places::POST),
        scratch,
        s.n,
        kept,
    )
}

// A table's new length, if it is there. Where it will stand is not known yet.
fn sized(there: bool, length: usize) -> Option<Place>
    ensures { result ≡ sized_place there length }
{
    if there {
        Some(Place { offset: 0, length })
    } else {
        None
    }
}

// The old length of table number k; 0 if it is missing.
fn old_length(t: Tables, k: usize) -> usize
    requires { k < 11 }
    ensures { result ≡ (place_at t k).length }
{
    match t.places[k] {
        Some(p) => p.length,
        None => 0,
    }
}

// A table that is as long as the old one.
fn copied(t: Tables, k: usize) -> Option<Place>
    requires { k < 11 }
    ensures { result ≡ sized_place (present_at t k) (place_at t k).length }
{
    sized(t.places[k].is_some(), old_length(t, k))
}

// The lengths of glyf, hmtx, loca, name and post change.
fn sized_by(t: Tables, glyf: usize, hmtx: usize, loca: usize, name: usize, post: usize) -> Tables
    ensures { result ≡ sized_by t glyf hmtx loca name post }
{
    Tables {
        places: [
            copied(t, places::CVT),
            copied(t, places::FPGM),
            sized(true, glyf),
            sized(true, old_length(t, places::HEAD)),
            sized(true, old_length(t, places::HHEA)),
            sized(true, hmtx),
            sized(true, loca),
            sized(true, old_length(t, places::MAXP)),
            sized(t.places[places::NAME].is_some(), name),
            sized(t.places[places::POST].is_some(), post),
            copied(t, places::PREP),
        ],
    }
}

// All measures passed: the new loca's width follows from the outlines' lengths, and every length is known.
#[tactic(auto, unfolding(crate::specs::Steps::plan_of))]
fn plan_sizes(
    t: Tables,
    kept: usize,
    sums: Sums,
    metrics: Measured,
    name: usize,
    post: usize,
) -> Plan
    requires { kept ≤ 65535 }
    ensures { result ≡ plan_of t kept sums metrics.count metrics.size name post }
{
    let wide = 131070 < sums.even;
    let (glyf, entry) = if wide { (sums.raw, 4) } else { (sums.even, 2) };
    Plan {
        count: metrics.count,
        wide,
        sized: sized_by(t, glyf, metrics.size, entry * (kept + 1), name, post),
    }
}

// Steps 6 to 8, in this order: the first refusal decides.
pub fn measure(
    font: &[u8],
    s: Source,
    kept: usize,
    sums: Sums,
    scratch: &mut [u16],
) -> Result<Plan, Refusal>
    requires { Opens font.now s × Walked font.now s scratch.old kept × OutlinesAdded (font_of font.now s) (take kept scratch.old) sums }
    ensures { Planned (rewrite (font_of font.now s) (take kept scratch.old)) (font_of font.now s) s.n kept scratch.old scratch.new result }
{
    let metrics = metrics_size(font, s, kept, scratch)?;
    let name = name_size(font, s.tables)?;
    let post = post_size(font, s, kept, scratch)?;
    Ok(plan_sizes(s.tables, kept, sums, metrics, name, post))
}
