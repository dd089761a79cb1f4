// The new tables, written (the second half of what `process` does in the crate's lib.rs). Everything is measured and the layout is
// known, so nothing is refused here: each table is lent its own part of the output and zero-padded, glyf and loca first, and the
// directory and head's adjustment are written last.
#![tactic(auto)]

ghost use Rattle.std.specs.Prelude.{◌≡◌, true, ◌≤◌, ◌<◌, length, take};
ghost use Rattle.places.specs.Places.{place_at, present_at, content_at, Within};
ghost use Rattle.model.specs.Bytes.{put, over};
ghost use Rattle.model.specs.File.{entries, file};
ghost use Rattle.construct.specs.Construct.{write_at};
ghost use Rattle.plan.specs.Steps.{renewed};
ghost use Rattle.plan.specs.Sources.{font_of};
ghost use Rattle.tables.specs.Writing.{new_body, others_to, Single, Writes, Fits, OutlinesFit};

use construct::Layout;
use places::Place;
use plan::{Plan, Source};

// What the writers are lent: the font as it was opened, the walk's scratch with the roster in its first `kept` places, and the plan.
#[derive(Clone, Copy)]
pub struct Cut<'a> {
    pub font: &'a [u8],
    pub source: Source,
    pub scratch: &'a [u16],
    pub kept: usize,
    pub plan: Plan,
}

impl<'a> Cut<'a> {
    // Table number k of the old font.
    fn old(&self, k: usize) -> &'a [u8]
        requires { (k < 11) × Within self.now.font.now self.now.source.tables }
        ensures { result.now ≡ content_at self.now.font.now self.now.source.tables k }
    {
        face::table(self.font, self.source.tables, k)
    }

    // The kept outlines with new ids, and at a distance where each starts.
    fn write_outlines(&self, out: &mut [u8], distance: usize)
        requires { OutlinesFit self.now out.old distance }
        ensures { out.new ≡ put (over (new_body self.now 2) out.old) distance (new_body self.now 6) }
    {
        glyf::write(
            self.old(places::LOCA),
            self.old(places::GLYF),
            self.source.long,
            self.source.n,
            self.scratch,
            self.kept,
            self.plan.wide,
            out,
            distance,
        );
    }

    // The kept glyphs' metrics.
    fn write_hmtx(&self, out: &mut [u8])
        requires { Fits self.now 5 out.old }
        ensures { out.new ≡ over (new_body self.now 5) out.old }
    {
        hmtx::write_hmtx(
            self.old(places::HHEA),
            self.old(places::HMTX),
            &self.scratch[..self.kept],
            self.plan.count,
            out,
        );
    }

    // Table number k, at the start of out. "cvt, fpgm, prep: copied". head's adjustment stays zero until the file's sum is known.
    // Ifs, and no match: the last arm of a match on numbers isn't told which came before it, and that a table is copied follows from that.
    fn write_table(&self, k: usize, out: &mut [u8])
        requires { Single k × Fits self.now k out.old }
        ensures { out.new ≡ over (new_body self.now k) out.old }
    {
        if k == places::HMTX {
            return self.write_hmtx(out);
        }
        let old = self.old(k);
        if k == places::HEAD {
            return head::write(old, self.plan.wide, out);
        }
        if k == places::HHEA {
            return hmtx::write_hhea(old, self.plan.count, out);
        }
        if k == places::MAXP {
            return maxp::write(old, self.kept as u16, out);
        }
        if k == places::NAME {
            return name::write(old, out);
        }
        if k == places::POST {
            return post::write(old, self.scratch, self.source.n, self.kept, out);
        }
        write::copy(old, out, 0);
    }

    // Table number k to its own part of the output, and the zeros behind it.
    fn put_at(&self, new: Layout, k: usize, to: Place, out: &mut [u8])
        requires single { Single k × Writes self.now new × (new.end ≤ length out.old) }
        requires there { (present_at new.tables k ≡ true) × (to ≡ place_at new.tables k) }
        ensures { out.new ≡ write_at new k (new_body self.now k) out.old }
    {
        let at = to.offset;
        self.write_table(k, &mut out[at..]);
        construct::pad(out, at, to.length);
    }

    // The same, if it is there.
    fn put_table(&self, new: Layout, k: usize, out: &mut [u8])
        requires { Single k × Writes self.now new × (new.end ≤ length out.old) }
        ensures { out.new ≡ write_at new k (new_body self.now k) out.old }
    {
        if let Some(to) = new.tables.places[k] {
            self.put_at(new, k, to, out);
        }
    }

    // glyf and loca to their own parts of the output, and the zeros behind them.
    fn put_both(&self, new: Layout, glyf: Place, loca: Place, out: &mut [u8])
        requires writes { Writes self.now new × (new.end ≤ length out.old) }
        requires places { (glyf ≡ place_at new.tables 2) × (loca ≡ place_at new.tables 6) }
        ensures { out.new ≡ write_at new 6 (new_body self.now 6) (write_at new 2 (new_body self.now 2) out.old) }
    {
        let at = glyf.offset;
        let to = loca.offset;
        self.write_outlines(&mut out[at..], to - at);
        construct::pad(out, at, glyf.length);
        construct::pad(out, to, loca.length);
    }

    // The same: they are always there.
    fn put_outlines(&self, new: Layout, out: &mut [u8])
        requires { Writes self.now new × (new.end ≤ length out.old) }
        ensures { out.new ≡ write_at new 6 (new_body self.now 6) (write_at new 2 (new_body self.now 2) out.old) }
    {
        let glyf = new.tables.places[places::GLYF].unwrap();
        let loca = new.tables.places[places::LOCA].unwrap();
        self.put_both(new, glyf, loca, out);
    }

    // The other nine, in tag order.
    fn put_others(&self, new: Layout, out: &mut [u8])
        requires { Writes self.now new × (new.end ≤ length out.old) }
        ensures { out.new ≡ others_to new (new_body self.now) out.old 11 }
    {
        for k in 0..11 {
            if k != places::GLYF && k != places::LOCA {
                self.put_table(new, k, out);
            }
        }
    }

    // The file, at the start of the output.
    pub fn write_file(&self, new: Layout, out: &mut [u8])
        requires { Writes self.now new × (new.end ≤ length out.old) }
        ensures { out.new ≡ over (file (entries (renewed (font_of self.now.font.now self.now.source) (take self.now.kept self.now.scratch.now)))) out.old }
    {
        self.put_outlines(new, out);
        self.put_others(new, out);
        construct::finish(out, new);
    }
}
