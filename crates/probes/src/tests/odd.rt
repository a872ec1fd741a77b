use crate::tests::chips::{
    BLANK, DAMAGED, attached, cut, data, header, lists, marker, row, running,
};
use crate::tests::codes::{chip_in, image_of};
use flash::{Chip, Chunk};
use questions::Totals;
use rules::Row;
use std::process::Abort;
use std::test::Fail;
use store::Store;

// Four blocks of four: the files may use (4-1)*4-1 = 11 chunks. No block is blank, but nothing in block 0 is wanted.
fn odd_rows() -> [Chunk; 16] {
    [
        BLANK,
        data(300, 1, 7, 9),
        DAMAGED,
        cut(257, 0, 1, b"old"),
        data(257, 1, 2048, 2),
        data(257, 2, 2048, 3),
        cut(257, 1, 5, b"a"),
        data(257, 3, 9, 6),
        data(257, 3, 2048, 4),
        header(511, 0, 10, b"z"),
        marker(259, 12),
        header(259, 0, 11, b"a"),
        marker(260, 13),
        header(260, 2, 14, b"b"),
        data(260, 1, 5, 8),
        header(511, 0, 10, b"z"),
    ]
}

// 257: the newest header is the cut one of serial 5, name "a". It hides chunk 2 (3) and the older chunk 3 (4); chunk 3 (6)
//      is newer. The length is 3, chunk 2 missing, the size 2*2048+9.
// 259: its newest header or marker is the marker, so it is no file, and its name counts for nothing.
// 260: the header is newer than the marker, which hides chunk 1 (8). The length is the header's, 2, the size 2048+2048.
// 300: data without a header is no file.
// 511: two equal copies are one record. The length is 0, and so is the size.
fn odd_files() -> [Row; 3] {
    [row(257, 3, 4105), row(260, 2, 4096), row(511, 0, 0)]
}

// Used: 257 its header and two chunks, 260 and 511 their headers.
const COUNTED: Totals = Totals {
    files: 3,
    used: 5,
    limit: 11,
    blank: 0,
    serial: 14,
};

// The bytes of 257: chunk 1 (2) full of 2, chunk 2 missing, nine bytes of chunk 3 (6).
fn holds_257<C: Chip>(rt: &impl Abort, store: &Store<C>) -> Result<(), Fail> {
    let mut buffer = [1u8; 4105];
    assert_eq!(rt; store.read(257, 0, &mut buffer)?, 4105);
    for (i, byte) in buffer.iter().enumerate() {
        let expected = match i / 2048 {
            0 => 2,
            1 => 0,
            _ => 6,
        };
        assert_eq!(rt; *byte, expected, "{}", i);
    }
    Ok(())
}

fn is_odd<C: Chip>(rt: &impl Abort, store: &Store<C>) -> Result<(), Fail> {
    lists(rt, store, &odd_files())?;
    assert_eq!(rt; store.count_all()?, COUNTED);
    let found = [
        store.find(b"a")?,
        store.find(b"b")?,
        store.find(b"z")?,
        store.find(b"old")?,
    ];
    assert_eq!(rt; found, [Some(257), Some(260), Some(511), None]);
    let mut buffer = [1u8; 4096];
    assert_eq!(rt; store.read(260, 0, &mut buffer)?, 4096);
    assert!(rt; buffer == [0; 4096]);
    holds_257(rt, store)
}

#[test]
fn odd_contents(rt: HostRuntime) -> Result<(), Fail> {
    let heap = rt.alloc();
    is_odd(&rt, &running(heap, 4, 4, &odd_rows())?)?;
    let mut store = attached(heap, chip_in(image_of(heap, 4, 4, &odd_rows())?)?)?;
    store.mount()?;
    is_odd(&rt, &store)
}

// Section 10, a failed erase: with the cut header (4) copied to block 1, only record 2 is left in block 0.
// Chunk 1 (2) is hidden by the cut to 0; chunk 2 (5) is newer. The length is 2, the size 2048+5.
#[test]
fn failed_erase(rt: HostRuntime) -> Result<(), Fail> {
    let mut rows = [BLANK; 12];
    rows[0] = DAMAGED;
    rows[1] = data(257, 1, 2048, 2);
    rows[4] = data(257, 2, 5, 5);
    rows[5] = cut(257, 0, 4, b"a");
    let store = running(rt.alloc(), 3, 4, &rows)?;
    lists(&rt, &store, &[row(257, 2, 2053)])?;
    let mut buffer = [1u8; 4];
    assert_eq!(rt; store.read(257, 2046, &mut buffer)?, 4);
    assert_eq!(rt; buffer, [0, 0, 5, 5]);
    Ok(())
}

// A plain header hides nothing, a cut header only what is older and above its length, a marker only what is older.
#[test]
fn hiding(rt: HostRuntime) -> Result<(), Fail> {
    let two = data(257, 2, 5, 3);
    for (second, last, file) in [
        (header(257, 0, 4, b"b"), BLANK, row(257, 2, 2053)),
        (cut(257, 1, 4, b"b"), BLANK, row(257, 1, 2048)),
        (cut(257, 2, 4, b"b"), BLANK, row(257, 2, 2053)),
        (cut(257, 0, 1, b"b"), BLANK, row(257, 2, 2053)),
        (marker(257, 1), BLANK, row(257, 2, 2053)),
        (marker(257, 4), header(257, 0, 5, b"b"), row(257, 0, 0)),
        (
            cut(257, 1, 4, b"b"),
            header(257, 9, 5, b"b"),
            row(257, 9, 18432),
        ),
    ] {
        let first = header(257, 1, 2, b"a");
        let rows = [second, two, last, BLANK, first, BLANK, BLANK, BLANK, BLANK];
        lists(&rt, &running(rt.alloc(), 3, 3, &rows)?, &[file])?;
    }
    Ok(())
}
