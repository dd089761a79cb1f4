// maxp of the smaller font: its version and glyph count anew, the rest copied (the crate's maxp.rs).
// Document 01: "0x00010000, N, old bytes from 6". The version is 1.0 whatever the old one was; step 3 has
// refused a maxp of under 6 bytes.
#![tactic(auto)]

ghost use Rattle.std.specs.Prelude.{◌≡◌, ◌≤◌, length};
ghost use Rattle.model.specs.Bytes.{over};
ghost use Rattle.model.specs.Cut.{new_maxp};

// At the start of out; as long as the old table.
pub fn write(maxp: &[u8], kept: u16, out: &mut [u8])
    requires { (6 ≤ length maxp.now) × (length maxp.now ≤ length out.old) }
    ensures { out.new ≡ over (new_maxp maxp.now kept) out.old }
{
    write::put_u32(out, 0, 0x0001_0000);
    write::put_u16(out, 4, kept);
    write::copy(&maxp[6..], out, 6);
}
