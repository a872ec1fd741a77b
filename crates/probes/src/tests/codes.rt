use flash::{Chunk, Tag};
use image::ImageChip;
use std::alloc::Global;
use std::test::Fail;

// Puts a record's numbers where the bytes of its chunk have them.
pub(crate) fn put_tag(code: &mut [u8; 2065], tag: Tag) {
    code[1..5].copy_from_slice(&tag.first.to_le_bytes());
    code[5..9].copy_from_slice(&tag.second.to_le_bytes());
    code[9..13].copy_from_slice(&tag.third.to_le_bytes());
    code[13..17].copy_from_slice(&tag.serial.to_le_bytes());
}

// The bytes of a chunk in an image, by section 9; of the state bytes that mean damaged this takes 0.
fn code(chunk: &Chunk) -> [u8; 2065] {
    let mut code = [0u8; 2065];
    match chunk {
        Chunk::Blank => code[0] = 0xFF,
        Chunk::Damaged => code[0] = 0,
        Chunk::Holds(record) => {
            code[0] = 1;
            put_tag(&mut code, record.tag);
            code[17..2065].copy_from_slice(&record.bytes);
        }
    }
    code
}

// The image of a chip of these rows, off. It has a byte for each of the two numbers, so these are no `Sizes`.
pub(crate) fn image_of(
    heap: Global,
    blocks: u8,
    chunks: u8,
    rows: &[Chunk],
) -> Result<Vec<u8>, Fail> {
    let mut bytes = Vec::from_slice(heap, &[b'T', b'F', b'S', 1, 0, blocks, chunks, 0])?;
    for row in rows {
        bytes.extend_from_slice(&code(row))?;
    }
    Ok(bytes)
}

// The chip in an image. The tests of `image` have the same function: two crates share only what a library makes public.
pub(crate) fn chip_in(bytes: Vec<u8>) -> Result<ImageChip, Fail> {
    ImageChip::new(bytes).map_err(|_| Fail::new("no image"))
}
