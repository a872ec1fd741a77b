use crate::tests::codes::{chip_in, image_of};
use bench::{BenchChip, Plan};
use flash::{Chip, Chunk, Record, Sizes, Tag};
use rules::Row;
use scan::Refusal;
use std::alloc::Global;
use std::process::Abort;
use std::test::Fail;
use store::Store;

// The first numbers of a header, a cut header and a marker, and the highest number there is. Here and below numbers of the
// rules are written out: tests that took them from the code would say nothing of them.
pub(crate) const HEAD: u32 = 0x8000_0001;

pub(crate) const CUT: u32 = 0xC000_0001;

pub(crate) const MARK: u32 = 0xC000_0004;

pub(crate) const MOST: u32 = 0xFFFF_FFFF;

pub(crate) const BLANK: Chunk = Chunk::Blank;

pub(crate) const DAMAGED: Chunk = Chunk::Damaged;

pub(crate) fn tag(first: u32, second: u32, third: u32, serial: u32) -> Tag {
    Tag {
        first,
        second,
        third,
        serial,
    }
}

// Records, made here as in `speed` and `demos`: a function for all would be public, so it could ask nothing of its caller,
// and would have to refuse long names.

// A record of these numbers, every data byte the same.
pub(crate) fn raw(tag: Tag, byte: u8) -> Chunk {
    let bytes = [byte; 2048];
    Chunk::Holds(Record { tag, bytes })
}

// A chunk of data; every data byte, also past the count, is the serial's last byte.
pub(crate) fn data(object: u32, number: u32, count: u32, serial: u32) -> Chunk {
    raw(tag(number, object, count, serial), (serial % 256) as u8)
}

pub(crate) fn marker(object: u32, serial: u32) -> Chunk {
    raw(tag(MARK, 0x1000_0000 | object, 0, serial), 0)
}

// The data of a header with this name.
fn named(name: &[u8]) -> [u8; 2048] {
    let mut bytes = [0u8; 2048];
    let count = name.len().min(255);
    bytes[0] = count as u8;
    bytes[1..1 + count].copy_from_slice(&name[0..count]);
    bytes
}

fn head(first: u32, object: u32, length: u32, serial: u32, name: &[u8]) -> Chunk {
    let tag = tag(first, 0x1000_0000 | object, length, serial);
    let bytes = named(name);
    Chunk::Holds(Record { tag, bytes })
}

pub(crate) fn header(object: u32, length: u32, serial: u32, name: &[u8]) -> Chunk {
    head(HEAD, object, length, serial, name)
}

pub(crate) fn cut(object: u32, length: u32, serial: u32, name: &[u8]) -> Chunk {
    head(CUT, object, length, serial, name)
}

// A stopped store over a chip.
pub(crate) fn attached<C: Chip + Drop>(heap: Global, chip: C) -> Result<Store<C>, Fail> {
    Store::attach(heap, chip).map_err(|_| Fail::new("no memory"))
}

// A bench chip of these rows. Here and below the two numbers stay apart: a `Sizes` would be spelled out at every call.
pub(crate) fn chip(
    rows: Vec<Chunk>,
    blocks: u32,
    chunks: u32,
    plan: Plan,
) -> Result<BenchChip, Fail> {
    let sizes = Sizes { blocks, chunks };
    BenchChip::new(rows, sizes, plan).map_err(|_| Fail::new("the rows do not fit"))
}

// A stopped store over a bench chip of these rows.
pub(crate) fn stopped(
    heap: Global,
    blocks: u32,
    chunks: u32,
    rows: &[Chunk],
    plan: Plan,
) -> Result<Store<BenchChip>, Fail> {
    attached(
        heap,
        chip(Vec::from_slice(heap, rows)?, blocks, chunks, plan)?,
    )
}

// A running store over a bench chip of these rows.
pub(crate) fn running(
    heap: Global,
    blocks: u32,
    chunks: u32,
    rows: &[Chunk],
) -> Result<Store<BenchChip>, Fail> {
    let mut store = stopped(heap, blocks, chunks, rows, Plan::default())?;
    store.mount()?;
    Ok(store)
}

// What mount answers on a bench chip of these rows; on an image chip of them it answers the same. The two numbers
// are bytes, as an image has them.
pub(crate) fn verdict(
    rt: &(impl Abort + AllocGlobal),
    blocks: u8,
    chunks: u8,
    rows: &[Chunk],
) -> Result<Result<(), Refusal>, Fail> {
    let heap = rt.alloc();
    let mut bench = stopped(
        heap,
        u32::from(blocks),
        u32::from(chunks),
        rows,
        Plan::default(),
    )?;
    let mut image = attached(heap, chip_in(image_of(heap, blocks, chunks, rows)?)?)?;
    let answer = bench.mount();
    assert_eq!(rt; image.mount(), answer);
    Ok(answer)
}

// The number of a refusal, or 0: the tests name refusals as docs/RULES.md does.
pub(crate) fn told<T: Drop>(answer: Result<T, Refusal>) -> u32 {
    match answer {
        Ok(_) => 0,
        Err(refusal) => refusal.number(),
    }
}

// Every question is refused by 15, also where a larger number fits.
pub(crate) fn refuses_all<C: Chip>(rt: &impl Abort, store: &Store<C>) {
    let answers = [
        told(store.find(b"a")),
        told(store.find(b"")),
        told(store.name(257)),
        told(store.size(257)),
        told(store.size(256)),
        told(store.read(257, 0, &mut [0; 4])),
        told(store.list(&mut [])),
        told(store.count_all()),
    ];
    assert_eq!(rt; answers, [15; 8]);
}

pub(crate) fn row(object: u32, length: u32, size: u32) -> Row {
    Row {
        object,
        length,
        size,
    }
}

// The files are these.
pub(crate) fn lists<C: Chip>(rt: &impl Abort, store: &Store<C>, files: &[Row]) -> Result<(), Fail> {
    let mut rows = [Row::default(); 8];
    let count = store.list(&mut rows)?;
    assert!(rt; count <= 8);
    assert_eq!(rt; &rows[0..count], files);
    Ok(())
}
