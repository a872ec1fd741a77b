use crate::numbers::Numbers;
use flash::{Chunk, Record, Sizes, Tag};
use std::alloc::{AllocError, Global};

// The contents that a list begins with: blank, or odd in many ways.

// How a chip is filled at first, in chances of a hundred.
#[derive(Clone, Copy, Debug)]
pub struct Style {
    pub blank_blocks: u32,
    pub blank_chunks: u32,
    pub damaged: u32,
    pub copies: u32,
    pub unlike: u32,
    pub broken: u32,
    pub data: u32,
    pub others_name: u32,
    // what the serials begin above: 0, or so that the highest is the highest there is
    pub is_top: bool,
    pub chunks: u32,
}

const SPRINKLED: Style = Style {
    blank_blocks: 30,
    blank_chunks: 25,
    damaged: 8,
    copies: 12,
    unlike: 0,
    broken: 0,
    data: 55,
    others_name: 5,
    is_top: false,
    chunks: 4,
};

// One of the styles.
pub fn pick_style(numbers: &mut Numbers) -> Style {
    let is_top = numbers.chance(20);
    match numbers.below(8) {
        0 => Style {
            blank_blocks: 100,
            ..SPRINKLED
        },
        1 => Style {
            unlike: 6,
            is_top,
            ..SPRINKLED
        },
        2 => Style {
            broken: 4,
            unlike: 3,
            ..SPRINKLED
        },
        3 => Style {
            others_name: 40,
            data: 30,
            ..SPRINKLED
        },
        4 => Style {
            blank_blocks: 0,
            blank_chunks: 5,
            chunks: 30,
            data: 80,
            copies: 0,
            ..SPRINKLED
        },
        5 => Style {
            blank_blocks: 5,
            copies: 30,
            is_top,
            ..SPRINKLED
        },
        _ => Style {
            is_top,
            ..SPRINKLED
        },
    }
}

// The serials above a base, each once, in an order that looks random.
fn serials(
    heap: Global,
    numbers: &mut Numbers,
    count: u32,
    base: u32,
) -> Result<Vec<u32>, AllocError> {
    let mut serials = Vec::new(heap);
    for i in 0..count {
        serials.push(base.saturating_add(i).saturating_add(1))?;
    }
    for i in 0..serials.len() {
        let j = numbers.below(count) as usize;
        if j < serials.len() {
            serials.swap(i, j);
        }
    }
    Ok(serials)
}

// The data of a header: the name of an object, mostly its own, of 2 bytes.
fn name_bytes(numbers: &mut Numbers, style: &Style, object: u32) -> [u8; 2048] {
    let other = numbers.chance(style.others_name);
    let seed = if other {
        numbers.byte() % 3
    } else {
        (object % 256) as u8
    };
    let mut bytes = [0; 2048];
    bytes[0] = 2;
    bytes[1] = seed;
    bytes[2] = seed.wrapping_add(7);
    bytes
}

fn object(numbers: &mut Numbers) -> u32 {
    numbers.of(&[257, 257, 257, 258, 258, 259, 511])
}

fn data(numbers: &mut Numbers, style: &Style, serial: u32) -> Record {
    let first = if numbers.chance(4) {
        1000
    } else {
        numbers.below(style.chunks).saturating_add(1)
    };
    let tag = Tag {
        first,
        second: object(numbers),
        third: numbers.of(&[1, 5, 2047, 2048]),
        serial,
    };
    // the bytes past the byte count are not 0, to be read as 0 all the same
    let byte = (serial % 200) as u8;
    Record {
        tag,
        bytes: [byte.saturating_add(1); 2048],
    }
}

fn header(numbers: &mut Numbers, style: &Style, first: u32, serial: u32) -> Record {
    let object = object(numbers);
    let tag = Tag {
        first,
        second: object.saturating_add(0x1000_0000),
        third: if numbers.chance(4) {
            1000
        } else {
            numbers.below(6)
        },
        serial,
    };
    Record {
        tag,
        bytes: name_bytes(numbers, style, object),
    }
}

fn marker(numbers: &mut Numbers, serial: u32) -> Record {
    let tag = Tag {
        first: 0xC000_0004,
        second: object(numbers).saturating_add(0x1000_0000),
        third: 0,
        serial,
    };
    Record {
        tag,
        bytes: [0; 2048],
    }
}

fn record(numbers: &mut Numbers, style: &Style, serial: u32) -> Record {
    if numbers.chance(style.data) {
        return data(numbers, style, serial);
    }
    match numbers.below(3) {
        0 => header(numbers, style, 0x8000_0001, serial),
        1 => header(numbers, style, 0xC000_0001, serial),
        _ => marker(numbers, serial),
    }
}

// The record breaks the table of section 2 in one of many ways, or in none.
fn break_record(numbers: &mut Numbers, record: &mut Record) {
    let wrong = numbers.of(&[
        0,
        1,
        256,
        512,
        1001,
        2049,
        0x8000_0000,
        0x8000_0004,
        0xC000_0001,
        0xC000_0004,
        0x1000_0100,
        0x1000_0200,
        0xFFFF_FFFF,
    ]);
    match numbers.below(5) {
        0 => record.tag.first = wrong,
        1 => record.tag.second = wrong,
        2 => record.tag.third = wrong,
        3 => record.tag.serial = 0,
        _ => record.bytes[0] = (numbers.of(&[0, 41, 255, 40, 1]) % 256) as u8,
    }
}

// The record is unlike what it was, in a number or a byte.
fn change_record(numbers: &mut Numbers, record: &mut Record) {
    match numbers.below(3) {
        0 => record.bytes[2047] ^= 1,
        1 => record.bytes[1] ^= 64,
        _ => record.tag.third = if record.tag.third == 1 { 2 } else { 1 },
    }
}

// An earlier record, if there is one at a row that looks random; often it is the last row.
fn earlier(numbers: &mut Numbers, rows: &[Chunk]) -> Option<Record> {
    let count = u32::try_from(rows.len()).unwrap_or(0);
    let row = rows.get(numbers.below(count) as usize);
    let row = if numbers.chance(40) { rows.last() } else { row };
    match row {
        Some(Chunk::Holds(record)) => Some(*record),
        _ => None,
    }
}

fn chunk(numbers: &mut Numbers, style: &Style, rows: &[Chunk], serial: u32) -> Chunk {
    if numbers.chance(style.blank_chunks) {
        return Chunk::Blank;
    }
    if numbers.chance(style.damaged) {
        return Chunk::Damaged;
    }
    let copy = if numbers.chance(style.copies) {
        earlier(numbers, rows)
    } else {
        None
    };
    let is_copy = copy.is_some();
    let mut record = copy.unwrap_or(record(numbers, style, serial));
    if is_copy && numbers.chance(style.unlike) {
        change_record(numbers, &mut record);
    }
    if numbers.chance(style.broken) {
        break_record(numbers, &mut record);
    }
    Chunk::Holds(record)
}

// The rows of a chip filled so.
pub fn rows(
    heap: Global,
    numbers: &mut Numbers,
    style: &Style,
    sizes: Sizes,
) -> Result<Vec<Chunk>, AllocError> {
    let count = sizes.blocks.saturating_mul(sizes.chunks);
    let base = if style.is_top {
        u32::MAX.saturating_sub(count)
    } else {
        numbers.below(10)
    };
    let serials = serials(heap, numbers, count, base)?;
    let mut rows = Vec::new(heap);
    let mut serials = serials.iter();
    for _ in 0..sizes.blocks {
        let is_blank = numbers.chance(style.blank_blocks);
        for _ in 0..sizes.chunks {
            let serial = serials.next().copied().unwrap_or(1);
            let row = if is_blank {
                Chunk::Blank
            } else {
                chunk(numbers, style, &rows, serial)
            };
            rows.push(row).map_err(AllocError::from)?;
        }
    }
    Ok(rows)
}
