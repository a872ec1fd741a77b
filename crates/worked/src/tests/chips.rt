use bench::{BenchChip, Plan};
use cleaning::Counts;
use flash::{Chunk, Record, Sizes, Tag};
use rules::Row;
use scan::Refusal;
use std::alloc::Global;
use std::process::Abort;
use std::test::Fail;
use store::Store;

// The first numbers of a header, a cut header and a marker, and the highest serial. As in `probes`, whose helpers these are
// in small, numbers of the rules are written out: tests that took them from the code would say nothing of them.
pub(crate) const HEAD: u32 = 0x8000_0001;

pub(crate) const CUT: u32 = 0xC000_0001;

pub(crate) const MARK: u32 = 0xC000_0004;

pub(crate) const MOST: u32 = 0xFFFF_FFFF;

// The second number of the headers and markers of object 257.
pub(crate) const NAMED_257: u32 = 0x1000_0101;

// The chunks of three blocks of four, block after block.
pub(crate) type Rows = [Chunk; 12];

pub(crate) const BLANK: Rows = [Chunk::Blank; 12];

// A name of 41 bytes.
pub(crate) const LONG: [u8; 41] = [b'n'; 41];

// A put's bytes, of the most that it may have and one more.
pub(crate) const BYTES: [u8; 2049] = [7; 2049];

pub(crate) fn tag(first: u32, second: u32, third: u32, serial: u32) -> Tag {
    Tag {
        first,
        second,
        third,
        serial,
    }
}

// A record's data: these bytes, then zeros.
pub(crate) fn filled(first: &[u8]) -> [u8; 2048] {
    let mut bytes = [0u8; 2048];
    let count = first.len().min(2048);
    bytes[0..count].copy_from_slice(&first[0..count]);
    bytes
}

// A record of these numbers, whose data are a name of one byte.
pub(crate) fn record(tag: Tag, name: u8) -> Chunk {
    let bytes = filled(&[1, name]);
    Chunk::Holds(Record { tag, bytes })
}

// A stopped store over a bench chip of these rows, in blocks of four.
pub(crate) fn stopped(
    heap: Global,
    rows: &[Chunk],
    blocks: u32,
    plan: Plan,
) -> Result<Store<BenchChip>, Fail> {
    let sizes = Sizes { blocks, chunks: 4 };
    let made = BenchChip::new(Vec::from_slice(heap, rows)?, sizes, plan);
    let chip = made.map_err(|_| Fail::new("the rows do not fit"))?;
    Store::attach(heap, chip).map_err(|_| Fail::new("no memory"))
}

// A running store over three blocks of four.
pub(crate) fn running(heap: Global, rows: &Rows, plan: Plan) -> Result<Store<BenchChip>, Fail> {
    let mut store = stopped(heap, rows, 3, plan)?;
    store.mount()?;
    Ok(store)
}

// The number of a refusal, or 0: the tests name refusals as docs/RULES.md does.
pub(crate) fn told<T: Drop>(answer: Result<T, Refusal>) -> u32 {
    match answer {
        Ok(_) => 0,
        Err(refusal) => refusal.number(),
    }
}

pub(crate) fn counts(programs: usize, erases: usize) -> Counts {
    Counts { programs, erases }
}

// A put to a file that is opened for it and closed again, also where the put is refused.
pub(crate) fn put(
    store: &mut Store<BenchChip>,
    object: u32,
    number: u32,
    bytes: &[u8],
) -> Result<Counts, Refusal> {
    let ticket = store.open(object)?;
    let answer = store.put(&ticket, number, bytes);
    store.close(ticket)?;
    answer
}

// A cut in the same way.
pub(crate) fn cut(
    store: &mut Store<BenchChip>,
    object: u32,
    length: u32,
) -> Result<Counts, Refusal> {
    let ticket = store.open(object)?;
    let answer = store.cut(&ticket, length);
    store.close(ticket)?;
    answer
}

// What an open is answered; the file is closed again.
pub(crate) fn opened(store: &mut Store<BenchChip>, object: u32) -> u32 {
    match store.open(object) {
        Ok(ticket) => told(store.close(ticket)),
        Err(refusal) => refusal.number(),
    }
}

// The record in a row of the chip, which ends the store.
pub(crate) fn in_row(store: Store<BenchChip>, row: usize) -> Result<Record, Fail> {
    let rows = store.release().into_rows();
    match rows.get(row) {
        Some(Chunk::Holds(record)) => Ok(*record),
        _ => Err(Fail::new("no record")),
    }
}

// The one file is this.
pub(crate) fn is_one(
    rt: &impl Abort,
    store: &Store<BenchChip>,
    object: u32,
    length: u32,
    size: u32,
) -> Result<(), Fail> {
    let mut rows = [Row::default(); 2];
    assert_eq!(rt; store.list(&mut rows)?, 1);
    let row = Row {
        object,
        length,
        size,
    };
    assert_eq!(rt; rows[0], row);
    Ok(())
}
