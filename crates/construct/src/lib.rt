// The new file around its tables (the second half of the crate's lib.rs): where each table stands, the header and the records
// with their checksums, and head's adjustment. Document 01, "File". The caller asks for the layout once all lengths are known,
// writes and pads each table at its place, and has `finish` write the directory.
#![tactic(auto)]

ghost use Rattle.std.specs.Prelude.{◌≡◌, ℕ, ◌+◌, ◌-◌, ◌*◌, ◌%◌, ◌^◌, ◌<◌, ◌≤◌, length, take, replicate, slice_index};
ghost use Rattle.model.specs.Bytes.{be32, put, over, part};
ghost use Rattle.model.specs.File.{checksum, header, row, rows_from, bodies, file};
ghost use Rattle.places.specs.Places.{tag_words, place_at};
ghost use Rattle.construct.specs.Construct.{searched, raised, count_to, laid_out, directory_length, laid, adjusting, Ready, Leaves};

use places::{Place, Tables};

// Where the new tables stand, how many there are, and the file's length.
#[derive(Clone, Copy)]
pub struct Layout {
    pub tables: Tables,
    pub count: usize,
    pub end: usize,
}

// What a binary search of the records needs.
#[derive(Clone, Copy)]
struct Search {
    selector: usize,
    range: usize,
}

// A length raised to a multiple of 4.
#[tactic(auto, unfolding(crate::specs::Construct::raised))]
fn raised(size: usize) -> usize
    requires { size ≤ 1099511627776 }
    ensures { result ≡ raised size }
{
    size.next_multiple_of(4)
}

// How many tables there are.
fn count(tables: Tables) -> usize
    ensures { result ≡ count_to tables 11 }
{
    tables.places.iter().filter(|p| p.is_some()).count()
}

// "tables each zero-padded to 4", one behind the other in tag order, the first behind the directory. Of `sized` it reads which
// tables there are and their new lengths.
pub fn lay_out(sized: Tables) -> Layout
    requires { (k : ℕ) → k < 11 → (place_at sized k).length ≤ 1099511627776 }
    ensures { result ≡ laid_out sized }
{
    let count = count(sized);
    let mut tables = sized;
    let mut at = 12 + 16 * count;
    for place in tables.places.iter_mut() {
        if let Some(p) = place {
            p.offset = at;
            at += raised(p.length);
        }
    }
    Layout {
        tables,
        count,
        end: at,
    }
}

// The zeros behind a table of this size that starts at `at`.
#[tactic(auto, unfolding(crate::specs::Construct::raised))]
pub fn pad(out: &mut [u8], at: usize, size: usize)
    requires { at + raised size ≤ length out.old }
    ensures { out.new ≡ put out.old (at + size) (replicate ((4 - size % 4) % 4) 0) }
{
    write::zeros(out, at + size, (4 - size % 4) % 4);
}

// "search range, selector": the crate takes a logarithm in f32.
fn search_of(count: usize) -> Search
    requires { (1 ≤ count) × (count ≤ 4095) }
    ensures { result ≡ searched count }
{
    let selector = count.ilog2();
    Search {
        selector: selector as usize,
        range: 16 << selector,
    }
}

// "word 0x00010000, table count, search range, selector, shift"
#[tactic(auto, using(crate::proofs::Halves::range_small, crate::proofs::Halves::selector_small), unfolding(crate::specs::Construct::searched))]
fn write_header(out: &mut [u8], count: usize)
    requires { (1 ≤ count) × (count ≤ 4095) × (12 ≤ length out.old) }
    ensures { out.new ≡ over (header count) out.old }
{
    let s = search_of(count);
    write::put_u32(out, 0, 0x0001_0000);
    write::put_u16(out, 4, count as u16);
    write::put_u16(out, 6, s.range as u16);
    write::put_u16(out, 8, s.selector as u16);
    write::put_u16(out, 10, (16 * count - s.range) as u16);
}

// One record, at `at`, of table number k, which stands behind it; the table's checksum.
fn write_row(out: &mut [u8], at: usize, k: usize, p: Place) -> u32
    requires { (k < 11) × (at + 16 ≤ p.offset) × (p.offset + p.length ≤ length out.old) × (p.offset + p.length ≤ 4294967295) }
    ensures { Leaves (checksum (part out.old p.offset p.length)) (put out.old at (row p.offset (slice_index tag_words k, part out.old p.offset p.length))) result out.new }
{
    let offset = p.offset;
    let size = p.length;
    let sum = read::checksum(read::part(out, offset, size));
    let tag = places::TAGS[k];
    write::copy(&tag, out, at);
    write::put_u32(out, at + 4, sum);
    write::put_u32(out, at + 8, offset as u32);
    write::put_u32(out, at + 12, size as u32);
    sum
}

// "records by tag"; the sum of all tables, which are padded to whole words.
fn write_rows(out: &mut [u8], new: Layout) -> u32
    requires { Ready out.old new }
    ensures { Leaves (checksum (bodies (laid out.old new.tables))) (put out.old 12 (rows_from (directory_length new.count) (laid out.old new.tables))) result out.new }
{
    let mut sum: u32 = 0;
    let mut at = 12;
    for (k, place) in new.tables.places.iter().enumerate() {
        if let Some(p) = place {
            sum = sum.wrapping_add(write_row(out, at, k, *p));
            at += 16;
        }
    }
    sum
}

// "then they become 0xB1B0AFBA minus S": S is the directory's sum and the tables', which are whole words, so that no second
// pass over the file is needed.
fn adjust(out: &mut [u8], directory: usize, head: usize, sum: u32)
    requires { (directory ≤ length out.old) × (head + 12 ≤ length out.old) }
    ensures { out.new ≡ put out.old (head + 8) (be32 (adjusting ((checksum (take directory out.old) + sum) % 2 ^ 32))) }
{
    let s = read::checksum(read::part(out, 0, directory)).wrapping_add(sum);
    write::put_u32(out, head + 8, 0xB1B0_AFBA_u32.wrapping_sub(s));
}

// The directory before the tables that stand in `out`, then head's adjustment. That head's bytes 8 to 11 are zero until then is
// head's own rule: the sums take them as they stand.
pub fn finish(out: &mut [u8], new: Layout)
    requires { Ready out.old new }
    ensures { out.new ≡ over (file (laid out.old new.tables)) out.old }
{
    let head = new.tables.places[places::HEAD].unwrap();
    let sum = write_rows(out, new);
    write_header(out, new.count);
    adjust(out, 12 + 16 * new.count, head.offset, sum);
}
