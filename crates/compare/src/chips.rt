use crate::numbers::Numbers;
use crate::reals::told;
use crate::runs::alike;
use crate::starts::{pick_style, rows};
use crate::tallies::Tally;
use bench::{BenchChip, Plan};
use flash::{CHUNK_BYTES, Chip, Fault, Place, Purpose, Record, Sizes, Tag};
use image::ImageChip;
use naive::images::{image_sizes, read_image};
use naive::{PlainChip, Refusal};
use scan::Refusal as Told;
use std::alloc::{AllocError, Global};

// The making of chips, and the chips' own calls, beside those of the plain chip.

fn same_fault(fault: Fault, why: Refusal, tally: &mut Tally) -> bool {
    tally.count_number(fault.number());
    told(Told::Chip(fault)) == why
}

fn same_outcome(real: Result<(), Fault>, plain: Result<(), Refusal>, tally: &mut Tally) -> bool {
    match (real, plain) {
        (Ok(()), Ok(())) => true,
        (Err(fault), Err(why)) => same_fault(fault, why, tally),
        _ => false,
    }
}

fn same_look<C: Chip>(real: &C, plain: &PlainChip, at: Place, tally: &mut Tally) -> bool {
    match (real.look(at), plain.look(at)) {
        (Ok(look), Ok(chunk)) => look == chunk.look(),
        (Err(fault), Err(why)) => same_fault(fault, why, tally),
        _ => false,
    }
}

// A refused fetch leaves the buffer as it was.
fn same_fetch<C: Chip>(real: &C, plain: &PlainChip, at: Place, tally: &mut Tally) -> bool {
    let mut buffer = [0xA5; CHUNK_BYTES];
    match (real.fetch(at, &mut buffer), plain.fetch(at)) {
        (Ok(()), Ok(record)) => buffer.as_slice() == record.bytes.as_slice(),
        (Err(fault), Err(why)) => {
            buffer.iter().all(|byte| *byte == 0xA5) && same_fault(fault, why, tally)
        }
        _ => false,
    }
}

fn record(numbers: &mut Numbers) -> Record {
    let tag = Tag {
        first: numbers.below(u32::MAX),
        second: numbers.below(u32::MAX),
        third: numbers.below(u32::MAX),
        serial: numbers.below(u32::MAX),
    };
    Record {
        tag,
        bytes: [numbers.byte(); CHUNK_BYTES],
    }
}

// A place, now and then outside the chip.
fn place(numbers: &mut Numbers, sizes: Sizes) -> Place {
    let block = numbers.below(sizes.blocks);
    let chunk = numbers.below(sizes.chunks);
    match numbers.below(20) {
        0 => Place::new(sizes.blocks, chunk),
        1 => Place::new(block, sizes.chunks),
        2 => Place::new(u32::MAX, u32::MAX),
        _ => Place::new(block, chunk),
    }
}

// Makes a call of both chips, and tells whether they answer the same.
fn same_call<C: Chip>(
    real: &mut C,
    plain: &mut PlainChip,
    numbers: &mut Numbers,
    tally: &mut Tally,
) -> bool {
    let at = place(numbers, plain.sizes());
    match numbers.below(12) {
        0 => {
            real.restart();
            plain.restart();
            true
        }
        1 | 2 => same_outcome(real.erase(at.block), plain.erase(at.block), tally),
        3 => real.sizes() == plain.sizes(),
        4..6 => same_fetch(real, plain, at, tally),
        6 | 7 => same_look(real, plain, at, tally),
        _ => {
            let purpose = if numbers.chance(50) {
                Purpose::Adding
            } else {
                Purpose::Copying
            };
            let record = record(numbers);
            let real = real.program(purpose, at, &record);
            same_outcome(real, plain.program(purpose, at, &record), tally)
        }
    }
}

fn same_calls<C: Chip>(
    real: &mut C,
    plain: &mut PlainChip,
    numbers: &mut Numbers,
    tally: &mut Tally,
) -> bool {
    for _ in 0..60 {
        if !same_call(real, plain, numbers, tally) {
            return false;
        }
    }
    true
}

// Sixty calls of a bench chip with a plan.
pub fn same_bench(
    heap: Global,
    numbers: &mut Numbers,
    sizes: Sizes,
    tally: &mut Tally,
) -> Result<bool, AllocError> {
    tally.count_list();
    let style = pick_style(numbers);
    let rows = rows(heap, numbers, &style, sizes)?;
    let plan = Plan {
        fails: numbers.below(12) as u64,
        damages: numbers.next(),
        takes: numbers.next(),
    };
    let (mut plain, _) = PlainChip::new(rows.to_vec(heap)?, sizes, plan);
    let Ok(mut real) = BenchChip::new(rows, sizes, plan) else {
        return Ok(false);
    };
    let same = same_calls(&mut real, &mut plain, numbers, tally);
    Ok(same && real.is_on() == plain.is_on() && alike(&real.into_rows(), plain.rows()))
}

// Sixty calls of an image chip.
pub fn same_image(
    heap: Global,
    numbers: &mut Numbers,
    sizes: Sizes,
    tally: &mut Tally,
) -> Result<bool, Refusal> {
    tally.count_list();
    let style = pick_style(numbers);
    let rows = rows(heap, numbers, &style, sizes)?;
    let image = crate::images::image_of(heap, &rows, sizes, numbers.chance(50))?;
    let mut plain = read_image(heap, &image)?;
    let Ok(mut real) = ImageChip::new(image) else {
        return Ok(false);
    };
    let same = same_calls(&mut real, &mut plain, numbers, tally);
    let after = read_image(heap, &real.into_bytes())?;
    Ok(same && after.is_on() == plain.is_on() && alike(after.rows(), plain.rows()))
}

const NOTHING: Sizes = Sizes {
    blocks: 0,
    chunks: 0,
};

// Whether rows of this number are taken alike.
fn same_rows(
    heap: Global,
    count: usize,
    sizes: Sizes,
    tally: &mut Tally,
) -> Result<bool, AllocError> {
    let rows = vec![in heap; flash::Chunk::Damaged; count]?;
    let (plain, why) = PlainChip::new(rows.to_vec(heap)?, sizes, Plan::default());
    Ok(match (BenchChip::new(rows, sizes, Plan::default()), why) {
        (Ok(chip), None) => !chip.is_on() && !plain.is_on() && chip.sizes() == sizes,
        (Err(unmade), Some(why)) => {
            tally.count_number(unmade.why.number());
            let chip = unmade.chip;
            Refusal::Number(unmade.why.number()) == why
                && chip.is_on()
                && chip.sizes() == NOTHING
                && alike(&chip.into_rows(), plain.rows())
        }
        _ => false,
    })
}

// Whether bytes are taken alike.
fn same_bytes(heap: Global, bytes: &[u8], tally: &mut Tally) -> Result<bool, AllocError> {
    Ok(
        match (ImageChip::new(bytes.to_vec(heap)?), image_sizes(bytes)) {
            (Ok(chip), Ok(sizes)) => {
                chip.sizes() == sizes
                    && chip.is_on() == (bytes.get(7) == Some(&1))
                    && chip.into_bytes().as_slice() == bytes
            }
            (Err(unmade), Err(why)) => {
                tally.count_number(unmade.why.number());
                let chip = unmade.chip;
                Refusal::Number(unmade.why.number()) == why
                    && chip.is_on()
                    && chip.sizes() == NOTHING
                    && chip.into_bytes().as_slice() == bytes
            }
            _ => false,
        },
    )
}

// Images of so many bytes, with one byte of the head changed.
fn same_heads(heap: Global, length: usize, tally: &mut Tally) -> Result<bool, AllocError> {
    let mut bytes = vec![in heap; 0u8; length]?;
    for (to, from) in bytes.iter_mut().zip([b'T', b'F', b'S', 1, 0, 3, 2, 0]) {
        *to = from;
    }
    let mut same = same_bytes(heap, &bytes, tally)?;
    for at in 0..length.min(8) {
        for value in [0, 1, 2, 3, 255] {
            let mut other = bytes.clone()?;
            if let Some(byte) = other.get_mut(at) {
                *byte = value;
            }
            same = same_bytes(heap, &other, tally)? && same;
        }
    }
    Ok(same)
}

// Refusals 1 to 3, and chips at their edges.
pub fn same_makings(heap: Global, tally: &mut Tally) -> Result<bool, AllocError> {
    let mut same = true;
    for (blocks, chunks) in [(3, 2), (0, 0), (0, 7), (2, 3), (1, 1)] {
        for count in 0..8 {
            same = same_rows(heap, count, Sizes { blocks, chunks }, tally)? && same;
        }
    }
    for length in [
        0, 1, 2, 3, 7, 8, 9, 2073, 12397, 12398, 12399, 4138, 6203, 18593,
    ] {
        same = same_heads(heap, length, tally)? && same;
    }
    Ok(same)
}
