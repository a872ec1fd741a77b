ghost use Rattle.std.specs.Prelude.{◌≡◌, ◌*◌, ◌+◌, ◌&&◌, nat_lt};
ghost use Rattle.flash.specs.Chunks.{look_of, tag_in, Whole, WholeChunk};

use std::ops::Range;

// How many bytes of data a record has.
pub const CHUNK_BYTES: usize = 2048;

// The four numbers of a record, 32 bits each.
#[derive(Clone, Copy, PartialEq, Eq, Debug)]
pub struct Tag {
    pub first: u32,
    pub second: u32,
    pub third: u32,
    pub serial: u32,
}

// A record: its four numbers and its data bytes.
#[derive(Clone, Copy)]
pub struct Record {
    pub tag: Tag,
    pub bytes: [u8; CHUNK_BYTES],
}

// What a chunk is.
#[derive(Clone, Copy)]
pub enum Chunk {
    Blank,
    Damaged,
    Holds(Record),
}

// What a look at a chunk tells: what it is, with a record's four numbers.
#[derive(Clone, Copy, PartialEq, Eq, Debug)]
pub enum Look {
    Blank,
    Damaged,
    Record(Tag),
}

// How many blocks a chip has, and how many chunks each block has.
#[derive(Clone, Copy, PartialEq, Eq, Debug)]
pub struct Sizes {
    pub blocks: u32,
    pub chunks: u32,
}

// A chunk of a block, both counted from 0.
#[derive(Clone, Copy, PartialEq, Eq, Debug)]
pub struct Place {
    pub block: u32,
    pub chunk: u32,
}

impl Place {
    pub fn new(block: u32, chunk: u32) -> Place
        ensures { result ≡ record { block = block; chunk = chunk } }
    {
        Place { block, chunk }
    }
}

impl Look {
    // The four numbers of the record, if there is one.
    pub fn tag(&self) -> Option<Tag>
        ensures { result ≡ tag_in self.now }
    {
        match self {
            Look::Record(tag) => Some(*tag),
            Look::Blank | Look::Damaged => None,
        }
    }
}

impl Sizes {
    // How many chunks there are.
    pub fn count(self) -> usize
        ensures { result ≡ self.blocks * self.chunks }
    {
        self.blocks as usize * self.chunks as usize
    }

    // Whether there is such a place.
    pub fn has(self, at: Place) -> bool
        ensures { result ≡ (nat_lt at.block self.blocks && nat_lt at.chunk self.chunks) }
    {
        at.block < self.blocks && at.chunk < self.chunks
    }

    // The row of a place in a table of all chunks, block after block.
    pub fn row(self, at: Place) -> usize
        ensures { result ≡ at.block * self.chunks + at.chunk }
    {
        at.block as usize * self.chunks as usize + at.chunk as usize
    }

    // The rows of a block in such a table.
    pub fn rows_of(self, block: u32) -> Range<usize>
        ensures { result ≡ record { start = block * self.chunks; end = block * self.chunks + self.chunks } }
    {
        let start = self.row(Place::new(block, 0));
        start..start + self.chunks as usize
    }
}

// What a record's type says of it, for a proof to learn.
fn sized(tag: Tag, bytes: &[u8; CHUNK_BYTES])
    ensures { Whole (record { tag = tag; bytes = bytes.now }) }
{}

impl Chunk {
    pub fn look(&self) -> Look
        ensures value { result ≡ look_of self.now }
        ensures whole { WholeChunk self.now }
    {
        match self {
            Chunk::Blank => Look::Blank,
            Chunk::Damaged => Look::Damaged,
            Chunk::Holds(record) => {
                sized(record.tag, &record.bytes);
                Look::Record(record.tag)
            }
        }
    }
}
