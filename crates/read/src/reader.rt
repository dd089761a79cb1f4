// The Reader: a slice, held beside the place of the next read (the crate's read.rs), over the place-number functions.
// Whoever reads has tested that what is read is there.
ghost use Rattle.std.specs.Prelude.{◌≡◌, ◌+◌, ◌^◌, ◌<◌, ◌≤◌, length, drop};
ghost use Rattle.model.specs.Bytes.{word32};
ghost use Rattle.model.specs.Font.{row_of};
ghost use Rattle.read.specs.Reading.{further, extent_of};

#[derive(Drop)]
pub struct Reader<'a> {
    data: &'a [u8],
    offset: usize,
}

// Where a table starts, and how long it is.
#[derive(Drop)]
pub struct Extent {
    pub offset: u32,
    pub length: u32,
}

impl<'a> Reader<'a> {
    pub fn new(data: &'a [u8]) -> Reader<'a>
        ensures { (result.data ≡ «data».entry) × (result.offset ≡ 0) }
    {
        Reader::new_at(data, 0)
    }

    pub fn new_at(data: &'a [u8], offset: usize) -> Reader<'a>
        ensures { (result.data ≡ «data».entry) × (result.offset ≡ offset) }
    {
        Reader { data, offset }
    }

    // The bytes from the next read on.
    pub fn tail<'s>(&'s self) -> &'a [u8]
        requires { self.now.offset ≤ length self.now.data.now }
        ensures { result.now ≡ drop self.now.offset self.now.data.now }
    {
        crate::part(self.data, self.offset, self.data.len() - self.offset)
    }

    // The place of the next read.
    pub fn offset<'s>(&'s self) -> usize
        ensures { result ≡ self.now.offset }
    {
        self.offset
    }

    // The next n bytes are passed over.
    pub fn skip_bytes<'s>(&'s mut self, n: usize)
        requires { self.old.offset + n < 2 ^ 64 }
        ensures { self.new ≡ further self.old n }
    {
        self.offset = self.offset() + n;
    }

    // The next 32-bit number.
    pub fn read_u32<'s>(&'s mut self) -> u32
        requires { self.old.offset + 4 ≤ length self.old.data.now }
        ensures { (result ≡ word32 self.old.data.now self.old.offset) × (self.new ≡ further self.old 4) }
    {
        let word = crate::u32_at(self.tail(), 0);
        self.skip_bytes(4);
        word
    }
}

// What a directory record says of its table. In order: tag and checksum (passed over), offset, length.
pub fn extent_at(row: &[u8]) -> Extent
    requires { 16 ≤ length row.now }
    ensures { result ≡ extent_of (row_of row.now) }
{
    let mut r = Reader::new(row);
    r.skip_bytes(8);
    let offset = r.read_u32();
    let length = r.read_u32();
    Extent { offset, length }
}
