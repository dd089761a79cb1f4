// name: the kept records with new offsets, their strings stored once each, at the first use (document 01, step 7: refusals 3, 4, 5).
// measure tests everything and says how long the new table is; write writes it into its own part of the output.
// Both note the first uses in a FirstUses of their own: rows and new offsets in order of use, and links between those whose strings have
// one bucket (hashed.rt), so that a string is compared with few others. A font made so that many share a bucket loses only that: after a
// dozen links in vain the numbers of the first uses are put in the order of their strings, which are then found by halving.
#![tactic(auto)]

mod hashed;

ghost use Rattle.std.specs.Prelude.{◌≡◌, ℕ, ◌+◌, ◌*◌, ◌<◌, ◌≤◌, true, false, [], map, length, take, ◌==◌, ◌≢◌, nat_le, slice_index, slice_set};
ghost use Rattle.model.specs.Res.{both, either, map_res, is_ok, value_of};
ghost use Rattle.model.specs.Bytes.{word16, put, over, concat};
ghost use Rattle.model.specs.Name.{offset_of, name_entries, new_name, cut_name};
ghost use Rattle.answer.specs.Answers.{res_of};
ghost use Rattle.name.specs.Rows.{kept_at, inside_at, string_start, string_length, string_at, tested, entries, strings, distinct_bytes, new_record, new_table, Inside, Alike, WordAlike, Compared, Cleared, Ordered, Arranged, Searchable, Sought, Walkable, Walked, Sortable, Inserted, Tested, Uses, Roomy, Notable, Writable, Recorded};
ghost use Rattle.name.specs.Hashed.{eight_at};

use answer::Refusal;

// The number of the first use that has an equal string, that there is none, or that the links were too many to tell.
#[derive(Clone, Copy)]
enum Link {
    Same(usize),
    New,
    Lost,
}

// Step 7: the length of the new table, or the refusal.
pub fn measure(name: &[u8]) -> Result<usize, Refusal>
    ensures { res_of result ≡ map_res length (cut_name name.now) }
{
    if name.len() < 2 {
        return Err(Refusal::MalformedFont);
    }
    if read::u16_at(name, 0) != 0 {
        return Ok(name.len());
    }
    let kept = records(name)?;
    measure_kept(name, kept)
}

// The new table, at the start of its own part of the output; "Version not 0: copied". Room for first uses as in distinct_bytes.
pub fn write(name: &[u8], out: &mut [u8])
    requires { (is_ok (cut_name name.now) ≡ true) × (length (value_of [] (cut_name name.now)) ≤ length out.old) }
    ensures { out.new ≡ over (value_of [] (cut_name name.now)) out.old }
{
    if read::u16_at(name, 0) != 0 {
        write::copy(name, out, 0);
        return;
    }
    let count = read::u16_at(name, 2);
    if count <= 64 {
        write_kept::<64, 64>(name, out);
    } else if count <= 256 {
        write_kept::<256, 256>(name, out);
    } else {
        write_kept::<5460, 4096>(name, out);
    }
}

// "header, records, storage start must be there (3)", then every range (4).
fn records(name: &[u8]) -> Result<usize, Refusal>
    ensures { res_of result ≡ map_res length (name_entries name.now) }
{
    if name.len() < 6 {
        return Err(Refusal::MalformedFont);
    }
    let count = read::u16_at(name, 2) as usize;
    if name.len() < 6 + 12 * count {
        return Err(Refusal::MalformedFont);
    }
    if name.len() < read::u16_at(name, 4) as usize {
        return Err(Refusal::MalformedFont);
    }
    test_ranges(name, count)
}

// How many records are kept, each string in its range.
fn test_ranges(name: &[u8], count: usize) -> Result<usize, Refusal>
    requires { (6 + 12 * count ≤ length name.now) × (word16 name.now 4 ≤ length name.now) }
    ensures { res_of result ≡ map_res length (tested name.now count) }
{
    let mut n = 0;
    for row in 0..count {
        if kept(name, row) {
            if !inside(name, row) {
                return Err(Refusal::NameOutsideStorage);
            }
            n += 1;
        }
    }
    Ok(n)
}

// The two refusals by 5, after every range was tested.
fn measure_kept(name: &[u8], n: usize) -> Result<usize, Refusal>
    requires { Tested name.now × (n ≡ length (entries name.now (word16 name.now 2))) }
    ensures { res_of result ≡ map_res length (new_table name.now) }
{
    if 5460 < n {
        return Err(Refusal::Overflow);
    }
    Ok(6 + 12 * n + distinct_bytes(name)?)
}

// Room for the first uses, which is cleared first: little for the usual table, else for as many records as may be kept.
fn distinct_bytes(name: &[u8]) -> Result<usize, Refusal>
    requires { Roomy name.now 5460 }
    ensures { res_of result ≡ distinct_bytes name.now }
{
    let count = read::u16_at(name, 2);
    if count <= 64 {
        distinct::<64, 64>(name)
    } else if count <= 256 {
        distinct::<256, 256>(name)
    } else {
        distinct::<5460, 4096>(name)
    }
}

// The bytes of all distinct strings: 5 as soon as they pass 65,535.
fn distinct<const USES: usize, const BUCKETS: usize>(name: &[u8]) -> Result<usize, Refusal>
    requires { Roomy name.now USES × (USES ≤ 5460) × (0 < BUCKETS) × (BUCKETS ≤ 4096) }
    ensures { res_of result ≡ distinct_bytes name.now }
{
    let count = read::u16_at(name, 2) as usize;
    let mut uses = FirstUses::<USES, BUCKETS>::new();
    for row in 0..count {
        if kept(name, row) {
            uses.note(name, row);
            if 65535 < uses.end {
                return Err(Refusal::Overflow);
            }
        }
    }
    Ok(uses.end)
}

// The first uses of strings, by number: their rows and new offsets in order of use, and links between those whose strings have one
// bucket, or, once sorted, the numbers in the order of their strings in place of the links. All their strings end at `end`.
#[derive(Drop)]
struct FirstUses<const USES: usize, const BUCKETS: usize> {
    rows: [u16; USES],
    offsets: [u16; USES],
    links: [u16; USES],
    heads: [u16; BUCKETS],
    used: usize,
    end: usize,
    sorted: bool,
    ghost places: { USES ≤ 5460 },
    ghost buckets: { (0 < BUCKETS) × (BUCKETS ≤ 4096) },
}

impl<const USES: usize, const BUCKETS: usize> FirstUses<USES, BUCKETS> {
    fn new() -> Self
        requires { (USES ≤ 5460) × (0 < BUCKETS) × (BUCKETS ≤ 4096) }
        ensures { Cleared result.heads × (result.used ≡ 0) × (result.end ≡ 0) × (result.sorted ≡ false) }
    {
        FirstUses {
            rows: [0; USES],
            offsets: [0; USES],
            links: [0; USES],
            heads: [0; BUCKETS],
            used: 0,
            end: 0,
            sorted: false,
        }
    }

    // The rows of all first uses.
    fn rows(&self) -> &[u16]
        requires { self.now.used ≤ length self.now.rows }
        ensures { result.now ≡ take self.now.used self.now.rows }
    {
        &self.rows[..self.used]
    }

    // A kept row's string, whose offset it answers: at an earlier one's offset, or a first use, behind all others and first in its bucket.
    fn note(&mut self, name: &[u8], row: usize) -> usize
        requires { Notable name.now row USES self.old.rows self.old.offsets self.old.used self.old.end × Arranged name.now self.old.rows self.old.links self.old.heads self.old.used self.old.sorted }
        ensures { Uses name.now (row + 1) self.new.rows self.new.offsets self.new.used self.new.end × Arranged name.now self.new.rows self.new.links self.new.heads self.new.used self.new.sorted × (result ≡ offset_of (string_at name.now row) (strings name.now (row + 1))) }
    {
        if self.sorted {
            return self.note_sorted(name, row);
        }
        let bucket = hashed::bucket(string_at(name, row), BUCKETS);
        let link = find_linked(name, &self.rows, &self.links, &self.heads, bucket, row);
        match link {
            Link::Same(first) => self.offsets[first] as usize,
            Link::New => {
                self.links[self.used] = self.heads[bucket];
                self.heads[bucket] = (self.used + 1) as u16;
                self.push(row, length_at(name, row))
            }
            Link::Lost => {
                sort(name, &self.rows, &mut self.links, self.used);
                self.sorted = true;
                self.note_sorted(name, row)
            }
        }
    }

    // The same where the first uses stand in the order of their strings.
    fn note_sorted(&mut self, name: &[u8], row: usize) -> usize
        requires { Notable name.now row USES self.old.rows self.old.offsets self.old.used self.old.end × Ordered name.now self.old.rows self.old.links self.old.used }
        ensures { Uses name.now (row + 1) self.new.rows self.new.offsets self.new.used self.new.end × Ordered name.now self.new.rows self.new.links self.new.used × (self.new.heads ≡ self.old.heads) × (self.new.sorted ≡ self.old.sorted) × (result ≡ offset_of (string_at name.now row) (strings name.now (row + 1))) }
    {
        let found = find_earlier(name, &self.rows, &self.links, self.used, row);
        match found {
            Ok(first) => self.offsets[first] as usize,
            Err(place) => {
                insert(&mut self.links, self.used, place);
                self.push(row, length_at(name, row))
            }
        }
    }

    // A first use of so many bytes, behind all others.
    fn push(&mut self, row: usize, size: usize) -> usize
        requires { (self.old.used < USES) × (row ≤ 65535) × (self.old.end ≤ 65535) × (size ≤ 65535) }
        ensures { (self.new.rows ≡ slice_set self.old.rows self.old.used row) × (self.new.offsets ≡ slice_set self.old.offsets self.old.used self.old.end) × (self.new.links ≡ self.old.links) × (self.new.heads ≡ self.old.heads) × (self.new.used ≡ self.old.used + 1) × (self.new.end ≡ self.old.end + size) × (self.new.sorted ≡ self.old.sorted) × (result ≡ self.old.end) }
    {
        let offset = self.end;
        self.rows[self.used] = row as u16;
        self.offsets[self.used] = offset as u16;
        self.used += 1;
        self.end += size;
        offset
    }
}

// The first use whose string is that of a row, among those of its bucket, the last first. Strings that share a bucket by chance are
// few; a dozen means a font made to waste time.
fn find_linked(
    name: &[u8],
    firsts: &[u16],
    links: &[u16],
    heads: &[u16],
    bucket: usize,
    row: usize,
) -> Link
    requires { Walkable name.now firsts.now links.now heads.now bucket row }
    ensures { Walked name.now firsts.now links.now heads.now bucket row result }
{
    let mut next = heads[bucket] as usize;
    for _ in 0..12 {
        if next == 0 {
            return Link::New;
        }
        let number = next - 1;
        if equal(name, firsts[number] as usize, row) {
            return Link::Same(number);
        }
        next = links[number] as usize;
    }
    if next == 0 {
        return Link::New;
    }
    Link::Lost // a dozen in vain
}

// Whether two rows have one string.
fn equal(name: &[u8], first: usize, row: usize) -> bool
    requires { Inside name.now first × Inside name.now row }
    ensures { (result ≡ true → string_at name.now first ≡ string_at name.now row) × (result ≡ false → string_at name.now first ≢ string_at name.now row) }
{
    let size = length_at(name, row);
    length_at(name, first) == size && same(name, start_at(name, first), start_at(name, row), size)
}

// Whether the bytes at two places are equal: word by word, and the last word again, over bytes that were compared.
fn same(name: &[u8], at: usize, start: usize, size: usize) -> bool
    requires { (at + size ≤ length name.now) × (start + size ≤ length name.now) }
    ensures { Compared name.now at start size result }
{
    if size < 8 {
        return same_short(name, at, start, size);
    }
    if alike(name, at, start, size) + 8 <= size {
        return false;
    }
    word_alike(name, at, start, size, size - 8)
}

// The same byte by byte. No `==` of slices: a wrong comparison in its place would be refused for its form alone.
fn same_short(name: &[u8], at: usize, start: usize, size: usize) -> bool
    requires { (at + size ≤ length name.now) × (start + size ≤ length name.now) }
    ensures { Compared name.now at start size result }
{
    for k in 0..size {
        if name[at + k] != name[start + k] {
            return false;
        }
    }
    true
}

// The numbers of the first uses in the order of their strings, one more at a time.
fn sort(name: &[u8], firsts: &[u16], order: &mut [u16], used: usize)
    requires { Sortable name.now firsts.now order.old used }
    ensures { Ordered name.now firsts.now order.new used }
{
    for k in 0..used {
        let (Ok(place) | Err(place)) = find_earlier(
            name,
            firsts,
            &order[..],
            k,
            firsts[k] as usize,
        );
        insert(order, k, place);
    }
}

// The number of the first use whose string is that of a row, or the place of a new string in the order: "try the earlier ones and
// leave both loops on a match".
// They stand in order, by length and then by bytes, so that each comparison leaves half: 13 at most, whatever the font.
fn find_earlier(
    name: &[u8],
    firsts: &[u16],
    order: &[u16],
    used: usize,
    row: usize,
) -> Result<usize, usize>
    requires { Searchable name.now firsts.now order.now used row }
    ensures { Sought name.now firsts.now order.now used row result }
{
    let start = start_at(name, row);
    let size = length_at(name, row);
    let mut low = 0;
    let mut high = used;
    let mut middle = 0;
    'earlier: while low < high {
        middle = low + (high - low) / 2;
        let first = firsts[order[middle] as usize] as usize;
        let length = length_at(name, first);
        if length < size {
            low = middle + 1;
        } else if size < length {
            high = middle;
        } else {
            let at = start_at(name, first);
            let mut k = alike(name, at, start, size);
            loop {
                if k == size {
                    break 'earlier;
                }
                if name[at + k] < name[start + k] {
                    low = middle + 1;
                    break;
                }
                if name[start + k] < name[at + k] {
                    high = middle;
                    break;
                }
                k += 1;
            }
        }
    }
    let there = low < high;
    if there {
        Ok(order[middle] as usize)
    } else {
        Err(low)
    }
}

// How many bytes at two places are surely equal: all where the places are the same, as in fonts whose records share their strings,
// else those of whole words of eight bytes up to the first that differs. A hostile font may hold long strings that differ late.
fn alike(name: &[u8], at: usize, start: usize, size: usize) -> usize
    requires { (at + size ≤ length name.now) × (start + size ≤ length name.now) }
    ensures { Alike name.now at start size result × (result + 8 ≤ size → Compared name.now at start size false) }
{
    if at == start {
        return size;
    }
    for word in alike_blocks(name, at, start, size)..size / 8 {
        if !word_alike(name, at, start, size, 8 * word) {
            return 8 * word;
        }
    }
    size / 8 * 8
}

// So many whole words are equal, as far as there are four: four comparisons a turn take long strings at twice the speed.
fn alike_blocks(name: &[u8], at: usize, start: usize, size: usize) -> usize
    requires { (at + size ≤ length name.now) × (start + size ≤ length name.now) }
    ensures { Alike name.now at start size (8 * result) }
{
    for block in 0..size / 32 {
        let word = 4 * block;
        if !word_alike(name, at, start, size, 8 * word) {
            return word;
        }
        if !word_alike(name, at, start, size, 8 * word + 8) {
            return word + 1;
        }
        if !word_alike(name, at, start, size, 8 * word + 16) {
            return word + 2;
        }
        if !word_alike(name, at, start, size, 8 * word + 24) {
            return word + 3;
        }
    }
    size / 32 * 4
}

// Whether the eight bytes that stand k bytes behind the two places are equal.
fn word_alike(name: &[u8], at: usize, start: usize, size: usize, k: usize) -> bool
    requires { (at + size ≤ length name.now) × (start + size ≤ length name.now) × (k + 8 ≤ size) }
    ensures { WordAlike name.now at start size k result }
{
    eight_at(name, at + k) == eight_at(name, start + k)
}

// Eight bytes as a number, the last the highest: LLVM makes one load of it.
fn eight_at(b: &[u8], at: usize) -> u64
    requires { at + 8 ≤ length b.now }
    ensures { result ≡ eight_at b.now at }
{
    u64::from_le_bytes([
        b[at],
        b[at + 1],
        b[at + 2],
        b[at + 3],
        b[at + 4],
        b[at + 5],
        b[at + 6],
        b[at + 7],
    ])
}

// The number of a new first use is given a place in the order; those behind it move on by one.
fn insert(order: &mut [u16], used: usize, place: usize)
    requires { (place ≤ used) × (used < length order.old) × (used ≤ 65535) }
    ensures { Inserted order.old order.new used place }
{
    order.copy_within(place..used, place + 1);
    order[place] = used as u16;
}

// The header comes last: the count is known then.
fn write_kept<const USES: usize, const BUCKETS: usize>(name: &[u8], out: &mut [u8])
    requires { Writable name.now USES (length out.old) × (USES ≤ 5460) × (0 < BUCKETS) × (BUCKETS ≤ 4096) }
    ensures { out.new ≡ over (new_name (entries name.now (word16 name.now 2))) out.old }
{
    let mut uses = FirstUses::<USES, BUCKETS>::new();
    let kept = write_records(name, out, &mut uses);
    let start = 6 + 12 * kept;
    write_strings(name, uses.rows(), out, start);
    write::put_u16(out, 0, 0);
    write::put_u16(out, 2, kept as u16);
    write::put_u16(out, 4, start as u16);
}

// "the records with new offsets", behind the header's six bytes; it answers how many.
fn write_records<const USES: usize, const BUCKETS: usize>(
    name: &[u8],
    out: &mut [u8],
    uses: &mut FirstUses<USES, BUCKETS>,
) -> usize
    requires { Writable name.now USES (length out.old) × Cleared uses.old.heads × (uses.old.used ≡ 0) × (uses.old.end ≡ 0) × (uses.old.sorted ≡ false) }
    ensures { Recorded name.now uses.new.rows out.new out.old result uses.new.used }
{
    let count = read::u16_at(name, 2) as usize;
    let mut n = 0;
    for row in 0..count {
        if kept(name, row) {
            let offset = uses.note(name, row);
            put_record(name, row, offset, out, 6 + 12 * n);
            n += 1;
        }
    }
    n
}

// A row's record with its new offset.
fn put_record(name: &[u8], row: usize, offset: usize, out: &mut [u8], at: usize)
    requires { (6 + 12 * row + 12 ≤ length name.now) × (offset ≤ 65535) × (at + 12 ≤ length out.old) }
    ensures { out.new ≡ put out.old at (new_record name.now row offset) }
{
    let from = 6 + 12 * row;
    write::copy(read::part(name, from, 8), out, at);
    write::put_u16(out, at + 8, read::u16_at(name, from + 8));
    write::put_u16(out, at + 10, offset as u16);
}

// "the strings", each at its first use.
fn write_strings(name: &[u8], firsts: &[u16], out: &mut [u8], at: usize)
    requires { ((j : ℕ) → j < length firsts.now → Inside name.now (slice_index firsts.now j)) × (at + length (concat (map (string_at name.now) firsts.now)) ≤ length out.old) }
    ensures { out.new ≡ put out.old at (concat (map (string_at name.now) firsts.now)) }
{
    let mut to = at;
    for row in firsts {
        let string = string_at(name, *row as usize);
        write::copy(string, out, to);
        to += string.len();
    }
}

// Whether a row is kept.
fn kept(name: &[u8], row: usize) -> bool
    requires { 6 + 12 * row + 12 ≤ length name.now }
    ensures { result ≡ kept_at name.now row }
{
    let at = 6 + 12 * row;
    unicode(read::u16_at(name, at), read::u16_at(name, at + 2))
        && wanted(read::u16_at(name, at + 6))
}

// "platform 0, or 3 with encoding 0, 1 or 10"
fn unicode(platform: u16, encoding: u16) -> bool
    ensures { result ≡ either (platform == 0) (both (platform == 3) (either (encoding == 0) (either (encoding == 1) (encoding == 10)))) }
{
    matches!((platform, encoding), (0, _) | (3, 0 | 1 | 10))
}

// "name ids 0 to 9 and 11 to 14"
fn wanted(id: u16) -> bool
    ensures { result ≡ either (nat_le id 9) (both (nat_le 11 id) (nat_le id 14)) }
{
    matches!(id, 0..=9 | 11..=14)
}

// "A kept string with offset + length over 65,535 or outside storage"
fn inside(name: &[u8], row: usize) -> bool
    requires { 6 + 12 * row + 12 ≤ length name.now }
    ensures { result ≡ inside_at name.now row }
{
    let offset = read::u16_at(name, 6 + 12 * row + 10) as usize;
    let size = length_at(name, row);
    offset + size <= 65535 && start_at(name, row) + size <= name.len()
}

// Where the string of a row starts in the table, and its length.
fn start_at(name: &[u8], row: usize) -> usize
    requires { 6 + 12 * row + 12 ≤ length name.now }
    ensures { (result ≡ string_start name.now row) × (result ≤ 131070) }
{
    read::u16_at(name, 4) as usize + read::u16_at(name, 6 + 12 * row + 10) as usize
}

fn length_at(name: &[u8], row: usize) -> usize
    requires { 6 + 12 * row + 12 ≤ length name.now }
    ensures { (result ≡ string_length name.now row) × (result ≤ 65535) }
{
    read::u16_at(name, 6 + 12 * row + 8) as usize
}

// A row's string.
fn string_at(name: &[u8], row: usize) -> &[u8]
    requires { Inside name.now row }
    ensures { result.now ≡ string_at name.now row }
{
    read::part(name, start_at(name, row), length_at(name, row))
}
