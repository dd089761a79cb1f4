// What the functions answer: types only, with each refusal's number. specs/ says what each answer is in document 01's numbers.
#![tactic(auto)]

ghost use Rattle.std.specs.Prelude.{◌≡◌};
ghost use Rattle.answer.specs.Answers.{number, error_number};
ghost use Rattle.answer.specs.declared.CutError.TheVariants.{Refused};

// Why a step refuses a font, by the numbers 1 to 5, 7 and 8.
#[derive(Clone, Copy, Debug, PartialEq, Eq)]
pub enum Refusal {
    UnknownKind,
    NotTrueType,
    // Or an id without a glyph.
    MalformedFont,
    NameOutsideStorage,
    // A number doesn't fit its field.
    Overflow,
    // A 65,536th is needed.
    TooManyGlyphs,
    ScratchTooShort,
}

// A font was cut: so many glyphs are kept, in a file of so many bytes.
#[derive(Clone, Copy, Debug, PartialEq, Eq)]
pub struct Font {
    pub kept: usize,
    pub length: usize,
}

// Why the public call cut no font: a step refuses it, or the output is too short for the file (number 6).
#[derive(Clone, Copy, Debug, PartialEq, Eq)]
pub enum CutError {
    Refused(Refusal),
    OutputTooShort { needed: usize },
}

impl Refusal {
    // The number that programs, C and the paper know it by.
    pub fn number(self) -> u32
        ensures { result ≡ number self }
    {
        match self {
            Refusal::UnknownKind => 1,
            Refusal::NotTrueType => 2,
            Refusal::MalformedFont => 3,
            Refusal::NameOutsideStorage => 4,
            Refusal::Overflow => 5,
            Refusal::TooManyGlyphs => 7,
            Refusal::ScratchTooShort => 8,
        }
    }
}

impl CutError {
    pub fn number(self) -> u32
        ensures { result ≡ error_number self }
    {
        match self {
            CutError::Refused(refusal) => refusal.number(),
            CutError::OutputTooShort { .. } => 6,
        }
    }
}

impl From<Refusal> for CutError {
    ghost from_gives = { λ r e. e ≡ Refused r };

    fn from(refusal: Refusal) -> CutError {
        CutError::Refused(refusal)
    }
}
