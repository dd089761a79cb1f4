// The lines printed. A writer gets a place and answers the place behind what it wrote.
// No `write!`: what it promises, it promises on Ok alone, and never that it is Ok; these lines are promised of every call.
ghost use Rattle.std.specs.Prelude.{◌≡◌, [], ◌∷◌, ◌++◌, ◌+◌, ◌*◌, ◌≤◌, length};
ghost use Rattle.io.specs.Counts.{IsPrefixLen};
ghost use Rattle.lines.specs.Print.{decimal, row, rows, head_line, kept_lines, refused_line, Puts};

// Success: `kept N length L`, and a line `new old` for each new number.
pub fn kept(roster: &[u16], size: usize, out: &mut [u8]) -> usize
    requires { (length roster.now ≤ 65536) × (12 * length roster.now + 80 ≤ length out.old) }
    ensures puts { Puts out.old 0 (kept_lines roster.now size) result out.new }
    ensures prefix_len { IsPrefixLen result out.new }
{
    let at = put_head(roster.len(), size, out);
    put_rows(roster, out, at)
}

// A refusal: `refused K`.
pub fn refused(k: u32, out: &mut [u8]) -> usize
    requires { 32 ≤ length out.old }
    ensures puts { Puts out.old 0 (refused_line k) result out.new }
    ensures prefix_len { IsPrefixLen result out.new }
{
    let at = put_bytes(b"refused ", out, 0);
    put_number(u64::from(k), b'\n', out, at)
}

// `kept N length L`.
fn put_head(n: usize, size: usize, out: &mut [u8]) -> usize
    requires { 80 ≤ length out.old }
    ensures puts { Puts out.old 0 (head_line n size) result out.new }
    ensures most { result ≤ 55 }
{
    let a = put_bytes(b"kept ", out, 0);
    let b = put_number(n as u64, b' ', out, a);
    let c = put_bytes(b"length ", out, b);
    put_number(size as u64, b'\n', out, c)
}

// A row for each id of the roster.
fn put_rows(roster: &[u16], out: &mut [u8], at: usize) -> usize
    requires { (length roster.now ≤ 65536) × (at + 12 * length roster.now + 25 ≤ length out.old) }
    ensures puts { Puts out.old at (rows 0 roster.now) result out.new }
    ensures most { result ≤ at + 12 * length roster.now }
{
    let mut end = at;
    for (new, old) in roster.iter().enumerate() {
        end = put_row(new as u64, *old, out, end);
    }
    end
}

// `new old`.
#[tactic(auto, using(crate::proofs::Rows::number_short))]
fn put_row(new: u64, old: u16, out: &mut [u8], at: usize) -> usize
    requires { (new ≤ 65535) × (at + 32 ≤ length out.old) }
    ensures puts { Puts out.old at (row new old) result out.new }
    ensures most { result ≤ at + 12 }
{
    let middle = put_number(new, b' ', out, at);
    put_number(u64::from(old), b'\n', out, middle)
}

// A number, and the byte that ends it.
fn put_number(n: u64, end: u8, out: &mut [u8], at: usize) -> usize
    requires { at + 21 ≤ length out.old }
    ensures puts { Puts out.old at (decimal n ++ (end ∷ [])) result out.new }
    ensures most { result ≤ at + 21 }
{
    let mut digits = [0u8; 20];
    let k = io::decimal(n, &mut digits);
    let behind = put_bytes(&digits[..k], out, at);
    out[behind] = end;
    behind + 1
}

fn put_bytes(bytes: &[u8], out: &mut [u8], at: usize) -> usize
    requires { at + length bytes.now ≤ length out.old }
    ensures { Puts out.old at bytes.now result out.new }
{
    write::copy(bytes, out, at);
    at + bytes.len()
}
