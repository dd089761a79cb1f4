// The public call: document 01's steps 1 to 10, in the order that decides a refusal (subset_inner, prepare_context and _subset of the
// crate's lib.rs). Every table is measured first; only when all sizes are known and the output is long enough is a byte of it written.
#![tactic(auto)]

ghost use Rattle.std.specs.Prelude.{◌≡◌, false, ◌*◌, ◌≤◌, length, take};
ghost use Rattle.model.specs.Call.{Promise};
ghost use Rattle.answer.specs.Answers.{answer_of};
ghost use Rattle.places.specs.Places.{contents, Within};
ghost use Rattle.plan.specs.Sources.{font_of, Opens, Walked, OutlinesAdded, Unnamed};
ghost use Rattle.subset.specs.Calls.{lent, Narrow, Rewrites, Cuts};

use answer::{CutError, Font, Refusal};
use places::Tables;
use plan::{Source, Sums};
use tables::Cut;

// "File longer than 4,294,967,295 bytes: 5"
const LONGEST: usize = 4_294_967_295;

// Whether every length fits 32 bits. If one doesn't, the file is too long; if all do, the layout's sums stay small.
fn narrow(sized: Tables) -> bool
    ensures { Narrow sized result }
{
    for p in sized.places {
        if p.is_some_and(|p| LONGEST < p.length) {
            return false;
        }
    }
    true
}

// Steps 6 to 10, once the roster stands in the scratch.
fn rewrite(
    font: &[u8],
    s: Source,
    kept: usize,
    sums: Sums,
    scratch: &mut [u16],
    out: &mut [u8],
) -> Result<Font, CutError>
    requires { Opens font.now s × Walked font.now s scratch.old kept × OutlinesAdded (font_of font.now s) (take kept scratch.old) sums }
    ensures { Rewrites (font_of font.now s) (take kept scratch.old) s.n scratch.old scratch.new out.old out.new result }
{
    let p = plan::measure(font, s, kept, sums, scratch)?;
    if !narrow(p.sized) {
        return Err(CutError::Refused(Refusal::Overflow));
    }
    let new = construct::lay_out(p.sized);
    let end = new.end;
    let long = LONGEST < end;
    if long {
        return Err(CutError::Refused(Refusal::Overflow));
    }
    if out.len() < end {
        return Err(CutError::OutputTooShort { needed: end });
    }
    let cut = Cut {
        font,
        source: s,
        scratch: &scratch[..],
        kept,
        plan: p,
    };
    cut.write_file(new, out);
    Ok(Font { kept, length: end })
}

// Steps 5 to 10.
fn cut(
    font: &[u8],
    s: Source,
    ids: &[u16],
    scratch: &mut [u16],
    out: &mut [u8],
) -> Result<Font, CutError>
    requires { Opens font.now s × (4 * s.n ≤ length scratch.old) }
    ensures { Cuts (font_of font.now s) ids.now s.n scratch.old scratch.new out.old out.new result }
{
    let walk = closure::close_over(
        face::table(font, s.tables, places::LOCA),
        face::table(font, s.tables, places::GLYF),
        s.long,
        s.n,
        ids,
        scratch,
    )?;
    let sums = Sums {
        even: walk.even,
        raw: walk.raw,
    };
    rewrite(font, s, walk.kept, sums, scratch, out)
}

// Whether post may have names of its own: their places were in the scratch.
fn named(font: &[u8], t: Tables) -> bool
    requires { Within font.now t }
    ensures { result ≡ false → Unnamed (contents font.now t).post }
{
    let post = face::table(font, t, places::POST);
    if post.is_empty() {
        return false;
    }
    if post.len() < 4 {
        return true;
    }
    read::u32_at(post, 0) == 0x0002_0000
}

// Cuts a font down to glyph 0, the ids asked for and what their components need. `scratch` must hold 4n numbers and `out` the file;
// afterwards the first N places of the scratch are the roster.
pub fn subset(
    font: &[u8],
    index: u32,
    ids: &[u16],
    scratch: &mut [u16],
    out: &mut [u8],
) -> Result<Font, CutError>
    ensures { Promise (lent font.now index ids.now scratch.old out.old) (answer_of result) out.new scratch.new }
{
    let t = face::open(font, index)?;
    let s = plan::open_source(font, t);
    let n = s.n;
    if scratch.len() < 4 * n {
        return Err(CutError::Refused(Refusal::ScratchTooShort));
    }
    match cut(font, s, ids, scratch, out) {
        Ok(cut) => {
            remapper::sweep(scratch, n, cut.kept, named(font, s.tables));
            Ok(cut)
        }
        Err(error) => {
            remapper::zeros(scratch, 0, 4 * n);
            Err(error)
        }
    }
}
