// Where the eleven tables stand: types only. The crate's growing list of records is here one struct by value with an array of
// eleven places in tag order, missing ones `None`; every rewriter gets it. A tag is four bytes, compared as an array.
#![tactic(auto)]

// Where a table stands in the file.
#[derive(Clone, Copy)]
pub struct Place {
    pub offset: usize,
    pub length: usize,
}

// The places of the eleven tables, in tag order; none where a table is missing.
#[derive(Clone, Copy)]
pub struct Tables {
    pub places: [Option<Place>; 11],
}

pub const TAGS: [[u8; 4]; 11] = [
    *b"cvt ", *b"fpgm", *b"glyf", *b"head", *b"hhea", *b"hmtx", *b"loca", *b"maxp", *b"name",
    *b"post", *b"prep",
];

pub const CVT: usize = 0;

pub const FPGM: usize = 1;

pub const GLYF: usize = 2;

pub const HEAD: usize = 3;

pub const HHEA: usize = 4;

pub const HMTX: usize = 5;

pub const LOCA: usize = 6;

pub const MAXP: usize = 7;

pub const NAME: usize = 8;

pub const POST: usize = 9;

pub const PREP: usize = 10;
