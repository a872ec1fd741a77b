ghost use Rattle.std.specs.Prelude.{◌≡◌, length};
ghost use Rattle.rules.specs.Lists.{within};
ghost use Rattle.rules.specs.Mounting.{sizes_fit, limit as most_used};

use flash::Sizes;

// The numbers that the rules set.

// The object numbers, both ends in.
pub const FIRST_OBJECT: u32 = 257;

pub const LAST_OBJECT: u32 = 511;

// How many objects there are.
pub const OBJECTS: usize = 255;

// What headers and markers have their object number above.
pub const OBJECT_BASE: u32 = 0x1000_0000;

// The first number of each kind but data, whose first number is its chunk number. What the chip holds are numbers, so these
// are numbers.
pub const HEADER: u32 = 0x8000_0001;

pub const CUT_HEADER: u32 = 0xC000_0001;

pub const MARKER: u32 = 0xC000_0004;

// How many bytes the longest name has, how many the data of a chunk, and the highest chunk number.
pub const LONGEST_NAME: usize = 40;

pub const CHUNK_BYTES: usize = flash::CHUNK_BYTES;

pub const LAST_NUMBER: u32 = 1000;

// How many blocks and how many chunks in all the largest chip has that a store takes.
pub const MOST_BLOCKS: u32 = 64;

pub const MOST_CHUNKS: usize = 2048;

// Whether a number is that of an object.
pub fn is_object(number: u32) -> bool
    ensures { result ≡ within 257 511 number }
{
    (FIRST_OBJECT..=LAST_OBJECT).contains(&number)
}

// Whether these bytes are a name.
pub fn is_name(bytes: &[u8]) -> bool
    ensures { result ≡ within 1 40 (length bytes.now) }
{
    (1..=LONGEST_NAME).contains(&bytes.len())
}

// Whether a store takes a chip of these sizes.
pub fn fits(sizes: Sizes) -> bool
    ensures { result ≡ sizes_fit sizes.blocks sizes.chunks }
{
    (3..=MOST_BLOCKS).contains(&sizes.blocks)
        && (2..=64).contains(&sizes.chunks)
        && sizes.count() <= MOST_CHUNKS
}

// How many chunks the files may use.
pub fn limit(sizes: Sizes) -> usize
    ensures { result ≡ most_used sizes.blocks sizes.chunks }
{
    let others = sizes.blocks.saturating_sub(1) as usize;
    (others * sizes.chunks as usize).saturating_sub(1)
}
