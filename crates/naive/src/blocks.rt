use crate::chips::PlainChip;
use crate::reading::is_wanted;
use crate::records::Found;
use crate::refusals::Refusal;
use flash::{Chunk, Place};
use std::alloc::Global;

// All records of a chip, in rising place. Refusal 10 tells the first that breaks the table of section 2.
pub fn scan(heap: Global, chip: &PlainChip) -> Result<Vec<Found>, Refusal> {
    let mut list = Vec::new(heap);
    for block in 0..chip.sizes().blocks {
        for chunk in 0..chip.sizes().chunks {
            let place = Place { block, chunk };
            if let Some(Chunk::Holds(record)) = chip.chunk(place) {
                let found = Found::read(place, record).ok_or(Refusal::At(10, place))?;
                list.push(found).map_err(|_| Refusal::Memory)?;
            }
        }
    }
    Ok(list)
}

pub fn is_blank(chip: &PlainChip, block: u32) -> bool {
    for chunk in 0..chip.sizes().chunks {
        if !chip.is_blank(Place { block, chunk }) {
            return false;
        }
    }
    true
}

// The lowest blank block.
pub fn lowest_blank(chip: &PlainChip) -> Option<u32> {
    for block in 0..chip.sizes().blocks {
        if is_blank(chip, block) {
            return Some(block);
        }
    }
    None
}

pub fn count_blank(chip: &PlainChip) -> u32 {
    let mut count: u32 = 0;
    for block in 0..chip.sizes().blocks {
        if is_blank(chip, block) {
            count = count.saturating_add(1);
        }
    }
    count
}

// The first blank chunk of a block.
pub fn first_blank(chip: &PlainChip, block: u32) -> Option<Place> {
    for chunk in 0..chip.sizes().chunks {
        let place = Place { block, chunk };
        if chip.is_blank(place) {
            return Some(place);
        }
    }
    None
}

// The records that make a block's load: wanted, standing in no other block, each serial once at its first chunk.
pub fn load(heap: Global, list: &[Found], block: u32) -> Result<Vec<Found>, Refusal> {
    let mut records = Vec::new(heap);
    for one in list {
        let counts = one.place.block == block && is_wanted(list, one);
        if counts && !stands_elsewhere(list, one) && !is_there(&records, one.serial) {
            records.push(*one).map_err(|_| Refusal::Memory)?;
        }
    }
    Ok(records)
}

fn stands_elsewhere(list: &[Found], one: &Found) -> bool {
    for other in list {
        if other.serial == one.serial && other.place.block != one.place.block {
            return true;
        }
    }
    false
}

fn is_there(records: &[Found], serial: u32) -> bool {
    for one in records {
        if one.serial == serial {
            return true;
        }
    }
    false
}
