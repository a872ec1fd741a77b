use crate::tests::chips::{CUT, HEAD, MARK, MOST, attached, refuses_all, told};
use crate::tests::codes::{chip_in, put_tag};
use flash::Tag;
use image::ImageChip;
use rules::Row;
use scan::Refusal;
use std::alloc::Global;
use std::process::Abort;
use std::test::Fail;
use store::Store;

// Numbers that look random, the same in every run: three shifts, with no crate to stand on.
#[derive(Drop)]
struct Random(u32);

impl Random {
    fn next(&mut self) -> u32 {
        let mut x = self.0;
        x ^= x << 13;
        x ^= x >> 17;
        x ^= x << 5;
        self.0 = x;
        x
    }

    fn pick(&mut self, table: &[u32; 8]) -> u32 {
        table[(self.next() >> 7) as usize % 8]
    }

    // One of the usual numbers or, seldom, one at an edge.
    fn choose(&mut self, usual: &[u32; 8], edges: &[u32; 8]) -> u32 {
        if self.next() % 61 == 0 {
            self.pick(edges)
        } else {
            self.pick(usual)
        }
    }
}

// What an image's numbers are picked from, written out as the numbers in `chips` are.

const STATES: [u32; 8] = [1, 1, 1, 1, 0xFF, 0xFF, 0xFF, 0];

const FIRSTS: [u32; 8] = [1, 2, 1000, HEAD, HEAD, CUT, CUT, MARK];

const FIRST_EDGES: [u32; 8] = [
    0,
    1001,
    HEAD - 1,
    HEAD + 1,
    CUT - 1,
    MARK - 1,
    MARK + 1,
    MOST,
];

const OBJECTS: [u32; 8] = [257, 257, 257, 258, 258, 258, 511, 511];

const OBJECT_EDGES: [u32; 8] = [256, 512, 0, 1, 510, 513, 0x1000_0101, 0x1000_0000];

const COUNTS: [u32; 8] = [1, 2, 5, 1000, 1001, 2047, 2048, 2048];

const LENGTHS: [u32; 8] = [0, 0, 0, 1, 2, 3, 999, 1000];

const THIRD_EDGES: [u32; 8] = [0, 1, 1000, 1001, 2048, 2049, 0x1000_0000, MOST];

const NAMES: [u32; 8] = [1, 1, 1, 1, 2, 2, 39, 40];

const NAME_EDGES: [u32; 8] = [0, 41, 42, 128, 254, 255, 0, 41];

const SERIALS: [u32; 8] = [1, 2, 3, 4, 5, 6, 7, 8];

const SERIAL_EDGES: [u32; 8] = [0, MOST, MOST - 1, 1, 0, MOST, 0x8000_0000, 2];

const ZEROS: [u32; 8] = [0; 8];

// The usual third numbers of a record with this first number.
fn thirds(first: u32) -> &'static [u32; 8] {
    match first {
        HEAD | CUT => &LENGTHS,
        MARK => &ZEROS,
        _ => &COUNTS,
    }
}

fn numbers(random: &mut Random, place: u32) -> Tag {
    let first = random.choose(&FIRSTS, &FIRST_EDGES);
    let object = random.choose(&OBJECTS, &OBJECT_EDGES);
    let second = if first < HEAD {
        object
    } else {
        object | 0x1000_0000
    };
    let third = random.choose(thirds(first), &THIRD_EDGES);
    let serial = random.choose(&SERIALS, &SERIAL_EDGES);
    // serials of two places are alike only now and then
    let serial = if serial < 9 && random.next() % 8 > 0 {
        (serial * 8).saturating_add(place)
    } else {
        serial
    };
    Tag {
        first,
        second,
        third,
        serial,
    }
}

// The bytes of a chunk of an image.
fn chunk(random: &mut Random, place: u32) -> [u8; 2065] {
    let tag = numbers(random, place);
    let mut bytes = [b'a' + (random.next() % 3) as u8; 2065];
    bytes[0] = (random.pick(&STATES) % 256) as u8;
    put_tag(&mut bytes, tag);
    bytes[17] = (random.choose(&NAMES, &NAME_EDGES) % 256) as u8;
    bytes
}

// An image of three blocks of two; now and then a chunk is a copy of the one before.
fn image(heap: Global, random: &mut Random) -> Result<Vec<u8>, Fail> {
    let power = (random.next() % 3) as u8;
    let mut bytes = Vec::from_slice(heap, &[b'T', b'F', b'S', 1, 0, 3, 2, power])?;
    let mut last = chunk(random, 0);
    for place in 0..6 {
        if random.next() % 8 > 0 {
            last = chunk(random, place);
        }
        bytes.extend_from_slice(&last)?;
    }
    Ok(bytes)
}

// What is said of one file agrees: size, read and find with its row and its name, and the size with the length.
fn file_agrees(
    rt: &(impl Abort + AllocGlobal),
    store: &Store<ImageChip>,
    file: Row,
) -> Result<(), Fail> {
    let size = file.size as usize;
    assert_eq!(rt; store.size(file.object)?, file.size);
    let mut buffer = vec![in rt.alloc(); 0xEEu8; size + 1]?;
    assert_eq!(rt; store.read(file.object, 0, &mut buffer)?, size);
    assert_eq!(rt; buffer.last().copied(), Some(0xEE));
    let name = store.name(file.object)?;
    assert_eq!(rt; store.find(name)?, Some(file.object));
    assert_eq!(rt; file.length as usize, size.div_ceil(2048));
    Ok(())
}

// There is no file of this object.
fn is_absent(rt: &impl Abort, store: &Store<ImageChip>, object: u32) {
    let answers = [
        told(store.size(object)),
        told(store.name(object)),
        told(store.read(object, 0, &mut [])),
    ];
    assert_eq!(rt; answers, [20; 3]);
}

// Every object is a file that list has, in its turn, or is refused by 20.
fn all_agree(rt: &(impl Abort + AllocGlobal), store: &Store<ImageChip>) -> Result<(), Fail> {
    let mut rows = [Row::default(); 6];
    let count = store.list(&mut rows)?;
    assert!(rt; count <= 6);
    let mut listed = rows[0..count].iter().peekable();
    for object in 257..512 {
        match listed.next_if(|file| file.object == object) {
            Some(file) => file_agrees(rt, store, *file)?,
            None => is_absent(rt, store, object),
        }
    }
    assert!(rt; listed.next().is_none());
    assert_eq!(rt; store.count_all()?.files, count);
    Ok(())
}

// What mount answers on an image.
fn probe(rt: &(impl Abort + AllocGlobal), bytes: Vec<u8>) -> Result<Result<(), Refusal>, Fail> {
    let mut store = attached(rt.alloc(), chip_in(bytes)?)?;
    let answer = store.mount();
    match answer {
        Ok(()) => all_agree(rt, &store)?,
        Err(_) => refuses_all(rt, &store),
    }
    Ok(answer)
}

// Each verdict comes up, and no other.
#[test]
fn many(rt: HostRuntime) -> Result<(), Fail> {
    let mut random = Random(2_463_534_242);
    let mut seen = [0u32; 15];
    for _ in 0..600 {
        let bytes = image(rt.alloc(), &mut random)?;
        let number = told(probe(&rt, bytes)?) as usize;
        assert!(rt; number < 15);
        seen[number] = seen[number].saturating_add(1);
    }
    for (number, count) in seen.iter().enumerate() {
        let may = number == 0 || number >= 10;
        assert_eq!(rt; *count > 0, may, "{number} came {count} times");
    }
    Ok(())
}
