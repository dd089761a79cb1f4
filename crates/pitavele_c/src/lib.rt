// The exported call: numbers and slices only, so that C and what speaks C can link it. A `&[T]` or `&mut [T]` passes as a pointer and a length.
#![tactic(auto)]

ghost use Rattle.std.specs.Prelude.{◌≡◌};
ghost use Rattle.model.specs.Call.{Promise};
ghost use Rattle.subset.specs.Calls.{lent};
ghost use Rattle.pitavele_c.specs.Reports.{reported};

use answer::CutError;

// Refusal 0 is success: `count` glyphs in a file of `length` bytes. With refusal 6 `length` is the length needed.
#[repr(C)]
#[derive(Clone, Copy)]
pub struct Answer {
    pub refusal: u32,
    pub count: u32,
    pub length: u64,
}

#[unsafe(no_mangle)]
pub extern "C" fn pitavele_subset(
    font: &[u8],
    index: u32,
    ids: &[u16],
    scratch: &mut [u16],
    out: &mut [u8],
) -> Answer
    ensures { Promise (lent font.now index ids.now scratch.old out.old) (reported result) out.new scratch.new }
{
    match subset::subset(font, index, ids, scratch, out) {
        Ok(cut) => Answer {
            refusal: 0,
            count: cut.kept as u32,
            length: cut.length as u64,
        },
        Err(CutError::Refused(refusal)) => Answer {
            refusal: refusal.number(),
            count: 0,
            length: 0,
        },
        Err(CutError::OutputTooShort { needed }) => Answer {
            refusal: 6,
            count: 0,
            length: needed as u64,
        },
    }
}
