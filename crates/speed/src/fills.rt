use flash::{Chunk, Record, Sizes, Tag};
use rules::{CHUNK_BYTES, FIRST_OBJECT, HEADER, LAST_NUMBER, OBJECT_BASE};
use std::alloc::{AllocError, Global};

// What the chip is filled with: one file of 1,000 chunks, the longest there is, and then files of 50 chunks. Each file has
// its header first. Record i has serial i + 1.

// The largest chip.
pub(crate) const SIZES: Sizes = Sizes {
    blocks: 64,
    chunks: 32,
};

// How many records the long file has, and how many each other one.
const LONG: u32 = LAST_NUMBER + 1;

const SHORT: u32 = 51;

// `demos` and `probes` make records of their own as well. A function for all would be public, so it could ask nothing of its
// caller: it would have to refuse a long name, and each call to handle that.

// A header of length 0; the file's number is its name.
fn header(file: u32, serial: u32) -> Record {
    let mut bytes = [0; CHUNK_BYTES];
    bytes[0] = 4;
    bytes[1..5].copy_from_slice(&file.to_le_bytes());
    let tag = Tag {
        first: HEADER,
        second: (OBJECT_BASE + FIRST_OBJECT).saturating_add(file),
        third: 0,
        serial,
    };
    Record { tag, bytes }
}

// A full chunk of data.
fn data(file: u32, number: u32, serial: u32) -> Record {
    let tag = Tag {
        first: number,
        second: FIRST_OBJECT.saturating_add(file),
        third: CHUNK_BYTES as u32,
        serial,
    };
    Record {
        tag,
        bytes: [(serial % 256) as u8; CHUNK_BYTES],
    }
}

fn record(i: u32) -> Record {
    let serial = i.saturating_add(1);
    // files are counted from 0, and so are the records of a file: the first is its header, record j chunk j
    let (file, number) = match i.checked_sub(LONG) {
        None => (0, i),
        Some(after) => (1 + after / SHORT, after % SHORT),
    };
    if number == 0 {
        header(file, serial)
    } else {
        data(file, number, serial)
    }
}

// The rows of a chip that holds this many records, one after another.
pub(crate) fn filled(heap: Global, count: u32) -> Result<Vec<Chunk>, AllocError> {
    (0..SIZES.blocks * SIZES.chunks)
        .map(|i| {
            if i < count {
                Chunk::Holds(record(i))
            } else {
                Chunk::Blank
            }
        })
        .collect(heap)
}
