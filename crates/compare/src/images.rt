use crate::calls::Call;
use crate::runs::{AfterFailure, Difference, Pair, Ran, Start, What, alike, differ};
use crate::tallies::Tally;
use flash::{Chunk, Record, Sizes};
use image::ImageChip;
use naive::Refusal;
use naive::images::read_image;
use std::alloc::{AllocError, Global};
use store::Store;

// The proved store over an image chip: the bytes of the image mean what the plain chip holds.

// The image of a chip, by section 9; there is none where N or P takes more than a byte.
pub fn image_of(
    heap: Global,
    rows: &[Chunk],
    sizes: Sizes,
    on: bool,
) -> Result<Vec<u8>, AllocError> {
    let blocks = u8::try_from(sizes.blocks).unwrap_or(0);
    let chunks = u8::try_from(sizes.chunks).unwrap_or(0);
    let mut image = Vec::new(heap);
    let power = if on { 1 } else { 7 };
    image.extend_from_slice(&[b'T', b'F', b'S', 1, 0, blocks, chunks, power])?;
    for chunk in rows {
        match chunk {
            // what lies behind the state of such a chunk means nothing
            Chunk::Blank => add_chunk(&mut image, 0xFF, &NOTHING)?,
            Chunk::Damaged => add_chunk(&mut image, 0x77, &NOTHING)?,
            Chunk::Holds(record) => add_chunk(&mut image, 1, record)?,
        }
    }
    Ok(image)
}

const NOTHING: Record = Record {
    tag: flash::Tag {
        first: 1,
        second: 257,
        third: 9,
        serial: 5,
    },
    bytes: [0xEE; 2048],
};

fn add_chunk(image: &mut Vec<u8>, state: u8, record: &Record) -> Result<(), AllocError> {
    image.push(state).map_err(AllocError::from)?;
    for number in [
        record.tag.first,
        record.tag.second,
        record.tag.third,
        record.tag.serial,
    ] {
        image.extend_from_slice(&number.to_le_bytes())?;
    }
    image.extend_from_slice(&record.bytes)
}

// Where the image at the end of a run does not mean what the plain chip holds.
fn compare_image(
    heap: Global,
    image: &[u8],
    plain: &naive::PlainChip,
) -> Result<Option<Difference>, Refusal> {
    let real = read_image(heap, image)?;
    if real.is_on() != plain.is_on() {
        return Ok(differ(What::Power));
    }
    if !alike(real.rows(), plain.rows()) {
        return Ok(differ(What::Chunks));
    }
    Ok(None)
}

// Runs a list, whose supply never fails, over an image chip.
pub fn run_on_image(
    heap: Global,
    start: Start<'_>,
    calls: &[Call],
    tally: &mut Tally,
) -> Result<Ran, Refusal> {
    let mut ran = Ran::new(heap);
    tally.count_list();
    let image = image_of(heap, start.rows, start.sizes, false)?;
    let plain = read_image(heap, &image)?;
    let made = match ImageChip::new(image) {
        Ok(chip) => Store::attach(heap, chip).ok(),
        Err(_) => None,
    };
    let Some(store) = made else {
        ran.difference = differ(What::Making);
        return Ok(ran);
    };
    let mut pair = Pair::new(heap, store, plain, false)?;
    let played = pair.play(calls, AfterFailure::Ends, &mut ran, tally);
    let ended = pair.finish();
    played?;
    if ran.difference.is_none() {
        ran.difference = compare_image(heap, &ended.real.into_bytes(), &ended.plain)?;
    }
    Ok(ran)
}
