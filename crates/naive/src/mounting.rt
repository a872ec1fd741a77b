use crate::blocks::{load, lowest_blank, scan};
use crate::chips::PlainChip;
use crate::reading::{find_other, header, uses};
use crate::records::Found;
use crate::refusals::Refusal;
use flash::{Place, Record, Sizes};
use std::alloc::Global;

// The verdict of section 5.

// Refusal 9.
pub fn check_sizes(sizes: Sizes) -> Result<(), Refusal> {
    let Sizes { blocks, chunks } = sizes;
    let all = blocks as u64 * chunks as u64;
    if blocks < 3 || blocks > 64 || chunks < 2 || chunks > 64 || all > 2048 {
        return Err(Refusal::Number(9));
    }
    Ok(())
}

// The most chunks that the files may use: (N−1)×P−1.
pub fn limit(sizes: Sizes) -> u64 {
    let blocks = (sizes.blocks as u64).saturating_sub(1);
    (blocks * sizes.chunks as u64).saturating_sub(1)
}

// Whether mount accepts the contents.
pub fn verdict(heap: Global, chip: &PlainChip) -> Result<(), Refusal> {
    check_sizes(chip.sizes())?;
    let list = scan(heap, chip)?;
    check_serials(chip, &list)?;
    check_names(&list)?;
    if uses(&list) > limit(chip.sizes()) {
        return Err(Refusal::Number(13));
    }
    check_way_on(heap, chip, &list)
}

// Refusal 11: a record is unlike a record of its serial at an earlier place.
fn check_serials(chip: &PlainChip, list: &[Found]) -> Result<(), Refusal> {
    for (i, one) in list.iter().enumerate() {
        for other in list.iter().take(i) {
            if one.serial == other.serial && are_unlike(chip, one.place, other.place) {
                return Err(Refusal::At(11, one.place));
            }
        }
    }
    Ok(())
}

fn are_unlike(chip: &PlainChip, one: Place, other: Place) -> bool {
    match (chip.fetch(one), chip.fetch(other)) {
        (Ok(one), Ok(other)) => differ(one, other),
        _ => true,
    }
}

fn differ(one: &Record, other: &Record) -> bool {
    if one.tag != other.tag {
        return true;
    }
    for (a, b) in one.bytes.iter().zip(&other.bytes) {
        if a != b {
            return true;
        }
    }
    false
}

// Refusal 12: two present files have one name.
fn check_names(list: &[Found]) -> Result<(), Refusal> {
    for object in 257..512 {
        if let Some(
            Found {
                name: Some(name),
                ..
            },
        ) = header(list, object)
        {
            if find_other(list, &name, object).is_some() {
                return Err(Refusal::Number(12));
            }
        }
    }
    Ok(())
}

// Refusal 14: there is no blank block and no block of load 0.
fn check_way_on(heap: Global, chip: &PlainChip, list: &[Found]) -> Result<(), Refusal> {
    if lowest_blank(chip).is_some() {
        return Ok(());
    }
    for block in 0..chip.sizes().blocks {
        if load(heap, list, block)?.is_empty() {
            return Ok(());
        }
    }
    Err(Refusal::Number(14))
}
