// The program's text, as bytes in lent slices: the list of ids that it reads, and the lines that it prints.
// The list is read in pieces, so that standard input may have any length: leading zeros count.
#![tactic(auto)]

mod print;

ghost use Rattle.std.specs.Prelude.{◌≡◌, true, List, ℕ, ◌≤◌, length};
ghost use Rattle.lines.specs.Ids.{begun, closed, grown, stepped, run, last, given, state_of, list_of, room};

pub use print::{kept, refused};
use std::error::Error;
use std::fmt;

// What was read so far: whether all of it is good, how many ids are in their places, and the number of a line that has begun.
// `good` is a flag beside these, and no Result around them, since a bad list keeps both, as `feed` promises.
#[derive(Drop)]
pub struct Reading {
    good: bool,
    count: usize,
    line: Option<u16>,
}

// The text is no list of ids, or of more than there are places for.
#[derive(Clone, Copy, Debug, PartialEq, Eq)]
pub struct BadList;

impl fmt::Display for BadList {
    fn fmt<W: fmt::Write>(&self, f: &mut fmt::Formatter<W>) -> fmt::Result {
        write!(f, "bad list")
    }
}

impl Error for BadList {}

impl Reading {
    pub fn begin() -> Reading
        ensures { (ids : List ℕ) → state_of result ids ≡ begun }
    {
        Reading {
            good: true,
            count: 0,
            line: None,
        }
    }

    // Reads a piece of the text on. Ids go to their places once their line is closed.
    pub fn feed(&mut self, text: &[u8], ids: &mut [u16])
        ensures { state_of self.new ids.new ≡ run (length ids.old) (state_of self.old ids.old) text.now }
    {
        for byte in text {
            self.step(*byte, ids);
        }
    }

    // The end of the text: a last line without a newline counts. Answers how many ids there are.
    pub fn finish(mut self, ids: &mut [u16]) -> Result<usize, BadList>
        ensures { (list_of result ids.new ≡ given (last (length ids.old) (state_of self ids.old))) × (room result ≤ length ids.new) }
    {
        self.end(ids);
        if self.good {
            // A count never passes the places; `min` says so without a precondition on the reading.
            Ok(self.count.min(ids.len()))
        } else {
            Err(BadList)
        }
    }

    // A line that has begun ends with the text.
    #[tactic(auto, unfolding(crate::specs::Ids::last))]
    fn end(&mut self, ids: &mut [u16])
        ensures { state_of self.new ids.new ≡ last (length ids.old) (state_of self.old ids.old) }
    {
        if self.good && self.line.is_some() {
            self.close(ids);
        }
    }

    // One byte. After a bad one nothing changes any more.
    #[tactic(auto, unfolding(crate::specs::Ids::stepped))]
    fn step(&mut self, byte: u8, ids: &mut [u16])
        ensures { state_of self.new ids.new ≡ stepped (length ids.old) (state_of self.old ids.old) byte }
    {
        if !self.good {
            return;
        }
        match byte {
            b'\n' => self.close(ids),
            b'0'..=b'9' => self.grow(byte - b'0'),
            _ => self.good = false,
        }
    }

    // A digit more; "an id" has 16 bits.
    #[tactic(auto, unfolding(crate::specs::Ids::grown))]
    fn grow(&mut self, digit: u8)
        requires { self.old.good ≡ true }
        ensures { (ids : List ℕ) → state_of self.new ids ≡ grown (state_of self.old ids) digit }
    {
        let value = 10 * u32::from(self.line.unwrap_or(0)) + u32::from(digit);
        match u16::try_from(value) {
            Ok(value) => self.line = Some(value),
            Err(_) => self.good = false,
        }
    }

    // A line ends: an empty one is bad, and so is one for whose id there is no place.
    #[tactic(auto, unfolding(crate::specs::Ids::closed))]
    fn close(&mut self, ids: &mut [u16])
        requires { self.old.good ≡ true }
        ensures { state_of self.new ids.new ≡ closed (length ids.old) (state_of self.old ids.old) }
    {
        match self.line {
            Some(value) if self.count < ids.len() => {
                ids[self.count] = value;
                self.count += 1;
                self.line = None;
            }
            _ => self.good = false,
        }
    }
}
