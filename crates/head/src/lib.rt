// head of the smaller font, and what head says of loca: the width of its entries (the crate's head.rs).
// Document 01: "Copied; bytes 50 and 51 become 0 and 1 (long) or 0 and 0". Bytes 8 to 11 are left zero:
// head's own checksum and the file's sum want them so, and crate construct writes the adjustment there at the end.
#![tactic(auto)]

ghost use Rattle.std.specs.Prelude.{◌≡◌, ◌≤◌, length};
ghost use Rattle.model.specs.Bytes.{over};
ghost use Rattle.model.specs.Glyf.{width, width_of, glyphs, new_head};

// "entries are 4 bytes (long) if head's word at 50 isn't zero, else 2".
pub fn is_long(head: &[u8]) -> bool
    requires { 52 ≤ length head.now }
    ensures { width result ≡ width_of head.now }
{
    read::u16_at(head, 50) != 0
}

// n: "the smaller of 65,536 and (whole loca entries minus 1, never below 0)".
pub fn glyph_count(loca: &[u8], long: bool) -> usize
    ensures { result ≡ glyphs (width long) loca.now }
{
    let entries = loca.len() / if long { 4 } else { 2 };
    entries.saturating_sub(1).min(65536)
}

// At the start of out; as long as the old table.
pub fn write(head: &[u8], long: bool, out: &mut [u8])
    requires { (52 ≤ length head.now) × (length head.now ≤ length out.old) }
    ensures { out.new ≡ over (new_head (width long) head.now) out.old }
{
    write::copy(head, out, 0);
    write::put_u16(out, 50, u16::from(long));
    write::put_u32(out, 8, 0);
}
