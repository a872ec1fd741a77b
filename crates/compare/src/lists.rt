use crate::calls::{Answer, Call, Text};
use crate::numbers::Numbers;
use crate::plains::make;
use crate::rooms::Room;
use bench::Plan;
use flash::{Chunk, Sizes};
use naive::{PlainChip, PlainStore};
use std::alloc::{AllocError, Global};

// Lists of calls that look random, most of them sensible where they stand: the plain store runs beside to tell.

const OBJECTS: [u32; 4] = [257, 258, 259, 511];

// A name: mostly of few, so that two are often the same, and sometimes at the edges of what a name may be.
fn name(numbers: &mut Numbers) -> Text {
    let length = if numbers.chance(94) {
        2
    } else {
        numbers.of(&[0, 1, 40, 41, 255, 256, 257, 296, 297])
    };
    let seed = (numbers.of(&[0, 1, 2, 3, 1, 2, 3, 255]) % 256) as u8;
    Text { length, seed }
}

// A name that no other object takes of its own.
fn own_name(object: u32) -> Text {
    Text {
        length: 2,
        seed: (object % 256) as u8,
    }
}

fn bytes(numbers: &mut Numbers) -> Text {
    let length = if numbers.chance(95) {
        numbers.of(&[1, 5, 9, 2047, 2048])
    } else {
        numbers.of(&[0, 2049, 3000])
    };
    let seed = numbers.byte();
    Text { length, seed }
}

fn object(numbers: &mut Numbers) -> u32 {
    if numbers.chance(97) {
        numbers.of(&OBJECTS)
    } else {
        numbers.of(&[0, 256, 512, 300, 0x1000_0101, u32::MAX])
    }
}

fn chunk(numbers: &mut Numbers) -> u32 {
    if numbers.chance(94) {
        numbers.below(6).saturating_add(1)
    } else {
        numbers.of(&[0, 1000, 1001, 40, u32::MAX])
    }
}

fn length(numbers: &mut Numbers) -> u32 {
    if numbers.chance(94) {
        numbers.below(6)
    } else {
        numbers.of(&[999, 1000, 1001, u32::MAX])
    }
}

fn read(numbers: &mut Numbers, object: u32) -> Call {
    let position = match numbers.below(8) {
        0 | 1 | 2 => 0,
        3 => 2048,
        4 => numbers.below(9000) as u64,
        5 => 2047,
        6 => numbers.of(&[u32::MAX, 2_045_952, 2_048_000, 4096, 1]) as u64,
        _ => u64::MAX,
    };
    let room = numbers.of(&[0, 1, 5, 2048, 2049, 4096, 9000]) as usize;
    Call::Read {
        object,
        position,
        room,
    }
}

fn question(numbers: &mut Numbers, object: u32) -> Call {
    match numbers.below(6) {
        0 => Call::Find {
            name: name(numbers),
        },
        1 => Call::Name { object },
        2 => Call::Size { object },
        3 => Call::List {
            rows: numbers.of(&[0, 1, 2, 3, 6, 8]) as usize,
        },
        _ => read(numbers, object),
    }
}

fn put(numbers: &mut Numbers, object: u32) -> Call {
    Call::Put {
        object,
        chunk: chunk(numbers),
        bytes: bytes(numbers),
    }
}

fn cut(numbers: &mut Numbers, object: u32) -> Call {
    Call::Cut {
        object,
        length: length(numbers),
    }
}

// Any call, sensible or not.
fn any_call(numbers: &mut Numbers) -> Call {
    let object = object(numbers);
    match numbers.below(11) {
        0 => Call::Mount,
        1 => Call::Collect,
        2 => Call::Create {
            object,
            name: name(numbers),
        },
        3 => put(numbers, object),
        4 => cut(numbers, object),
        5 => Call::Rename {
            object,
            name: name(numbers),
        },
        6 => Call::Delete { object },
        7 => Call::Open { object },
        8 => Call::Close { object },
        _ => question(numbers, object),
    }
}

// A call for a file that is open.
fn call_open(numbers: &mut Numbers, object: u32) -> Call {
    match numbers.below(20) {
        0..12 => put(numbers, object),
        12..15 => cut(numbers, object),
        15 => Call::Close { object },
        _ => question(numbers, object),
    }
}

// A call for a file that is present and not open.
fn call_closed(numbers: &mut Numbers, object: u32) -> Call {
    match numbers.below(12) {
        0..6 => Call::Open { object },
        6 | 7 => Call::Rename {
            object,
            name: name(numbers),
        },
        8 | 9 => Call::Delete { object },
        _ => question(numbers, object),
    }
}

// A call that is sensible where the store stands.
fn call(numbers: &mut Numbers, store: &PlainStore) -> Call {
    if numbers.chance(12) {
        return any_call(numbers);
    }
    if !store.runs() {
        return if numbers.chance(80) {
            Call::Mount
        } else {
            Call::Format
        };
    }
    if numbers.chance(9) {
        return Call::Collect;
    }
    if numbers.chance(3) {
        return Call::Mount;
    }
    let object = numbers.of(&OBJECTS);
    if store.size(object).is_err() {
        let name = if numbers.chance(80) {
            own_name(object)
        } else {
            name(numbers)
        };
        Call::Create { object, name }
    } else if store.is_open(object) {
        call_open(numbers, object)
    } else {
        call_closed(numbers, object)
    }
}

// A list of so many calls, and how many programs and erases it makes.
pub fn list(
    heap: Global,
    numbers: &mut Numbers,
    rows: &[Chunk],
    sizes: Sizes,
    count: u32,
) -> Result<(Vec<Call>, u64), AllocError> {
    let (chip, _) = PlainChip::new(rows.to_vec(heap)?, sizes, Plan::default());
    let mut store = PlainStore::new(heap, chip);
    let mut room = Room::new(heap)?;
    let mut calls = Vec::new(heap);
    for i in 0..count {
        let call = if i == 0 && numbers.chance(95) {
            Call::Mount
        } else {
            call(numbers, &store)
        };
        calls.push(call).map_err(AllocError::from)?;
        let answer: Answer = make(heap, &mut store, &call, &mut room);
        // a store that refuses its contents is of no more use until it is formatted
        if i == 0 && answer != Answer::Done && numbers.chance(70) {
            calls.push(Call::Format).map_err(AllocError::from)?;
            make(heap, &mut store, &Call::Format, &mut room);
        }
    }
    Ok((calls, store.chip().acts()))
}
