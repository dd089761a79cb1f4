// glyf and loca: the kept outlines one behind the other, with their components' new ids, and where each starts
// (document 01, "glyf, loca"; the crate's glyf.rs). The walk has read every outline, so nothing is refused here. It has
// added up their lengths too, from which the width of the new loca follows. `write` writes both tables, since where an
// outline ends in the one is an entry of the other.
#![tactic(auto)]

ghost use Rattle.std.specs.Prelude.{◌≡◌, Some, ◌+◌, ◌*◌, ◌-◌, ◌/◌, ◌≤◌, ◌<◌, [], length, take};
ghost use Rattle.model.specs.Res.{value_of};
ghost use Rattle.model.specs.Bytes.{put, be16};
ghost use Rattle.model.specs.Glyf.{width, entry_size, unit, be_entry, padded};
ghost use Rattle.outline.specs.Places.{Within, span_bytes, shape_of};
ghost use Rattle.outline.specs.declared.Shape.TheVariants.{Composite};
ghost use Rattle.glyf.specs.Pieces.{piece, pieces, new_from, bytes_of, most_offset, OutlineRoom, PieceRoom, TablesRoom, both_tables, Placed, zeros_behind, with_run, RunRoom, Moved};

use outline::{Component, Shape, Span};

// Outlines that stand side by side in the old glyf and in the new one, to be copied together: `size` bytes from `from`, whose place
// in the new glyf ends at `end`.
#[derive(Clone, Copy)]
struct Run {
    from: usize,
    size: usize,
    end: usize,
}

// An old id's new number. The walk numbered every id that is asked for; another would be 0.
fn new_id(scratch: &[u16], n: usize, id: usize) -> u16
    requires { n + id < length scratch.now }
    ensures { result ≡ new_from n scratch.now id }
{
    scratch[n + id].saturating_sub(1)
}

fn put_id(scratch: &[u16], n: usize, id: usize, out: &mut [u8], at: usize)
    requires numbered { n + id < length scratch.now }
    requires room { at + 2 ≤ length out.old }
    ensures { out.new ≡ put out.old at (be16 (new_from n scratch.now id)) }
{
    write::put_u16(out, at, new_id(scratch, n, id));
}

// "Composites are copied with new ids": copied as far as they are kept, then each record's id is put over the old one.
fn write_composite(b: &[u8], n: usize, scratch: &[u16], out: &mut [u8], at: usize) -> usize
    requires composite { shape_of b.now ≡ Some Composite }
    requires room { OutlineRoom n b.now scratch.now out.old at }
    ensures { Placed out.old out.new at result (bytes_of n (new_from n scratch.now) b.now) }
{
    let kept = outline::kept_length(b, n);
    write::copy(&b[..kept], out, at);
    let mut p = 10;
    while let Some(component) = outline::component_at(b, p, n) {
        put_id(scratch, n, component.id(), out, at + p + 2);
        match component {
            Component::More { next, .. } => p = next,
            Component::Last { .. } => return at + kept,
        }
    }
    // Never: the walk read it.
    at
}

// The run's bytes, to their place.
fn copy_run(glyf: &[u8], run: Run, out: &mut [u8])
    requires { RunRoom glyf.now run out.old }
    ensures { out.new ≡ with_run glyf.now run out.old }
{
    let from = run.from;
    let behind = from + run.size;
    write::copy(&glyf[from..behind], out, run.end - run.size);
}

// "Simple outlines are copied": one that stands behind the run makes it longer, another begins a new one.
fn join(glyf: &[u8], span: Span, run: Run, out: &mut [u8]) -> Run
    requires copied { RunRoom glyf.now run out.old }
    requires there { Within glyf.now span }
    requires room { run.end + (span.end - span.start) ≤ length out.old }
    ensures { Moved glyf.now run out.old result out.new (span_bytes glyf.now span) }
{
    let size = span.end - span.start;
    if span.start == run.from + run.size {
        return Run {
            size: run.size + size,
            end: run.end + size,
            ..run
        };
    }
    copy_run(glyf, run, out);
    Run {
        from: span.start,
        size,
        end: run.end + size,
    }
}

// The outline that stands at `span`. A composite ends the run.
fn write_outline(
    glyf: &[u8],
    span: Span,
    n: usize,
    scratch: &[u16],
    run: Run,
    out: &mut [u8],
) -> Run
    requires copied { RunRoom glyf.now run out.old }
    requires there { Within glyf.now span }
    requires room { OutlineRoom n (span_bytes glyf.now span) scratch.now out.old run.end }
    ensures { Moved glyf.now run out.old result out.new (bytes_of n (new_from n scratch.now) (span_bytes glyf.now span)) }
{
    let b = &glyf[span.start..span.end];
    match outline::shape_of(b) {
        Some(Shape::Empty) => run,
        Some(Shape::Simple) => join(glyf, span, run, out),
        Some(Shape::Composite) => {
            copy_run(glyf, run, out);
            let behind = write_composite(b, n, scratch, out, run.end);
            Run {
                from: span.end,
                size: 0,
                end: behind,
            }
        }
        // Never: the walk read it.
        None => run,
    }
}

// Behind an outline of this size, the zero that a short loca's even offsets need. It ends the run.
fn pad(glyf: &[u8], size: usize, wide: bool, run: Run, out: &mut [u8]) -> Run
    requires copied { RunRoom glyf.now run out.old }
    requires room { run.end + length (zeros_behind (width wide) size) ≤ length out.old }
    ensures { Moved glyf.now run out.old result out.new (zeros_behind (width wide) size) }
{
    if wide || size % 2 == 0 {
        return run;
    }
    copy_run(glyf, run, out);
    write::zeros(out, run.end, 1);
    Run {
        from: 0,
        size: 0,
        end: run.end + 1,
    }
}

// Glyph g's outline, padded.
fn write_glyph(
    loca: &[u8],
    glyf: &[u8],
    long: bool,
    n: usize,
    scratch: &[u16],
    g: usize,
    wide: bool,
    run: Run,
    out: &mut [u8],
) -> Run
    requires copied { RunRoom glyf.now run out.old }
    requires room { PieceRoom (width long) (width wide) n loca.now glyf.now scratch.now g out.old run.end }
    ensures { Moved glyf.now run out.old result out.new (padded (width wide) (value_of [] (piece (width long) n loca.now glyf.now (new_from n scratch.now) g))) }
{
    let Some(span) = outline::locate(loca, glyf, long, g) else {
        // Never: the walk read it.
        return run;
    };
    let next = write_outline(glyf, span, n, scratch, run, out);
    pad(glyf, next.end - run.end, wide, next, out)
}

// "offsets are halved" in a short loca: entry number i. The offset fits (`fits`), so the casts lose nothing, and a TryFrom would
// only add a refusal that never comes.
fn put_entry(out: &mut [u8], long: bool, i: usize, offset: usize)
    requires room { entry_size (width long) * (i + 1) ≤ length out.old }
    requires fits { offset ≤ most_offset (width long) }
    ensures { out.new ≡ put out.old (entry_size (width long) * i) (be_entry (width long) (offset / unit (width long))) }
{
    if long {
        write::put_u32(out, 4 * i, offset as u32);
    } else {
        write::put_u16(out, 2 * i, (offset / 2) as u16);
    }
}

// Both tables: the new glyf at the start of out, and the new loca at its distance. The roster is the first `kept` numbers of the
// scratch. "loca has N + 1 entries": each outline's start, and the end of the last.
pub fn write(
    loca: &[u8],
    glyf: &[u8],
    long: bool,
    n: usize,
    scratch: &[u16],
    kept: usize,
    wide: bool,
    out: &mut [u8],
    distance: usize,
)
    requires { TablesRoom (width long) (width wide) n loca.now glyf.now scratch.now kept out.old distance }
    ensures { out.new ≡ both_tables (width wide) (pieces (width long) n loca.now glyf.now (take kept scratch.now)) distance out.old }
{
    let mut run = Run {
        from: 0,
        size: 0,
        end: 0,
    };
    for (i, g) in scratch[..kept].iter().enumerate() {
        put_entry(&mut out[distance..], wide, i, run.end);
        run = write_glyph(
            loca,
            glyf,
            long,
            n,
            scratch,
            usize::from(*g),
            wide,
            run,
            out,
        );
    }
    put_entry(&mut out[distance..], wide, kept, run.end);
    copy_run(glyf, run, out);
}
