use crate::chips::PlainChip;
use crate::refusals::Refusal;
use bench::Plan;
use flash::{Chunk, Record, Sizes, Tag};
use std::alloc::Global;

// What the bytes of an image mean, by section 9.

// The bytes of a chunk: its state, four numbers and the data.
const CHUNK: usize = 2065;

// Refusals 1 to 3, and otherwise N and P.
pub fn image_sizes(image: &[u8]) -> Result<Sizes, Refusal> {
    let Some(head) = image.get(..8) else {
        return Err(Refusal::Number(1));
    };
    if head[0] != b'T' || head[1] != b'F' || head[2] != b'S' {
        return Err(Refusal::Number(1));
    }
    if head[3] != 1 || head[4] != 0 {
        return Err(Refusal::Number(2));
    }
    let blocks = head[5] as u32;
    let chunks = head[6] as u32;
    let length = 8 + CHUNK as u64 * (blocks as u64 * chunks as u64);
    if image.len() as u64 != length {
        return Err(Refusal::Number(3));
    }
    Ok(Sizes { blocks, chunks })
}

// A chip with the contents and the power of an image, whose supply never fails.
pub fn read_image(heap: Global, image: &[u8]) -> Result<PlainChip, Refusal> {
    let sizes = image_sizes(image)?;
    let mut rows = Vec::new(heap);
    for bytes in image.get(8..).unwrap_or(&[]).chunks(CHUNK) {
        rows.push(read_chunk(bytes)).map_err(|_| Refusal::Memory)?;
    }
    let (mut chip, why) = PlainChip::new(rows, sizes, Plan::default());
    if why.is_none() && image.get(7) == Some(&1) {
        chip.restart();
    }
    Ok(chip)
}

fn read_chunk(bytes: &[u8]) -> Chunk {
    match bytes.first() {
        Some(0xFF) => Chunk::Blank,
        Some(1) => Chunk::Holds(read_record(bytes)),
        _ => Chunk::Damaged,
    }
}

fn read_record(bytes: &[u8]) -> Record {
    let mut data = [0; 2048];
    for (to, from) in data.iter_mut().zip(bytes.iter().skip(17)) {
        *to = *from;
    }
    let tag = Tag {
        first: number(bytes, 1),
        second: number(bytes, 5),
        third: number(bytes, 9),
        serial: number(bytes, 13),
    };
    Record { tag, bytes: data }
}

// The number of four bytes, the lowest first.
fn number(bytes: &[u8], at: usize) -> u32 {
    let mut four = [0; 4];
    for (to, from) in four.iter_mut().zip(bytes.iter().skip(at)) {
        *to = *from;
    }
    u32::from_le_bytes(four)
}
