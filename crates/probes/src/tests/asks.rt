use crate::tests::chips::{BLANK, cut, data, header, lists, row, running, told};
use bench::BenchChip;
use rules::Row;
use scan::Refusal;
use std::alloc::Global;
use std::process::Abort;
use std::test::Fail;
use store::Store;

// Two files on three blocks of four.
// 257, "a": chunk 1 full of 2, chunk 2 missing, chunk 3 of five bytes 3; the length is 3, the size 2*2048+5 = 4101.
// 511, forty times b: chunk 1 of three bytes 5, chunk 2 of four bytes 6; the length is 2, the size 2048+4 = 2052.
fn two_files(heap: Global) -> Result<Store<BenchChip>, Fail> {
    let mut rows = [BLANK; 12];
    rows[0] = cut(257, 0, 1, b"a");
    rows[1] = data(257, 1, 2048, 2);
    rows[2] = data(257, 3, 5, 3);
    rows[3] = header(511, 0, 4, &[b'b'; 40]);
    rows[4] = data(511, 1, 3, 5);
    rows[5] = data(511, 2, 4, 6);
    running(heap, 3, 4, &rows)
}

fn both() -> [Row; 2] {
    [row(257, 3, 4101), row(511, 2, 2052)]
}

// A byte of a file; missing chunks, and bytes past a chunk's byte count, are 0.
fn content(object: u32, position: u64) -> u8 {
    match (object, position) {
        (257, 0..=2047) => 2,
        (257, 4096..=4100) => 3,
        (511, 0..=2) => 5,
        (511, 2048..=2051) => 6,
        _ => 0,
    }
}

// Reads into a buffer of this length, and holds every byte of it to the file or to what stood there.
fn reads(
    rt: &(impl Abort + AllocGlobal),
    store: &Store<BenchChip>,
    object: u32,
    position: u64,
    long: usize,
    count: usize,
) -> Result<(), Fail> {
    let mut buffer = vec![in rt.alloc(); 0xEEu8; long]?;
    assert_eq!(rt;
        store.read(object, position, &mut buffer)?,
        count,
        "{object} from {position}, {long} bytes"
    );
    for (i, byte) in buffer.iter().enumerate() {
        let expected = if i < count {
            content(object, position.saturating_add(i as u64))
        } else {
            0xEE
        };
        assert_eq!(rt;
            *byte,
            expected,
            "{object} from {position}, {long} bytes: byte {i}"
        );
    }
    Ok(())
}

// Object, position, length of the buffer, and how many bytes are read: a tuple, since a struct would take six lines a row.
const READS: [(u32, u64, usize, usize); 20] = [
    (257, 0, 10, 10),
    (257, 1000, 10, 10),
    (257, 2040, 20, 20),
    (257, 2048, 2048, 2048),
    (257, 4090, 6, 6),
    (257, 4090, 20, 11),
    (257, 4096, 5, 5),
    (257, 4100, 1, 1),
    (257, 4100, 2, 1),
    (257, 4101, 4, 0),
    (257, 4102, 4, 0),
    (257, 18_446_744_073_709_551_615, 8, 0),
    (257, 0, 0, 0),
    (257, 4101, 0, 0),
    (257, 0, 4101, 4101),
    (257, 0, 5000, 4101),
    (511, 0, 3000, 2052),
    (511, 2, 4, 4),
    (511, 2046, 4, 4),
    (511, 2051, 9, 1),
];

#[test]
fn positions(rt: HostRuntime) -> Result<(), Fail> {
    let store = two_files(rt.alloc())?;
    for (object, position, long, count) in READS {
        reads(&rt, &store, object, position, long, count)?;
    }
    Ok(())
}

// 16 outside 257 to 511, 20 where there is no file; a refused read leaves the buffer.
#[test]
fn objects(rt: HostRuntime) -> Result<(), Fail> {
    let store = two_files(rt.alloc())?;
    for (object, number) in [
        (0, 16),
        (256, 16),
        (257, 0),
        (258, 20),
        (510, 20),
        (511, 0),
        (512, 16),
        (0x1000_0101, 16),
        (4_294_967_295, 16),
    ] {
        let mut buffer = [0xEEu8; 3];
        let answers = [
            told(store.size(object)),
            told(store.name(object)),
            told(store.read(object, 0, &mut buffer)),
        ];
        assert_eq!(rt; answers, [number; 3], "{}", object);
        assert_eq!(rt; buffer == [0xEE; 3], number != 0, "{}", object);
    }
    assert_eq!(rt; [store.size(257)?, store.size(511)?], [4101, 2052]);
    assert_eq!(rt; store.name(257)?, b"a".as_slice());
    assert_eq!(rt; store.name(511)?, [b'b'; 40].as_slice());
    Ok(())
}

// 19 for names of 0 and over 40 bytes; else the file of just this name.
#[test]
fn names(rt: HostRuntime) -> Result<(), Fail> {
    let store = two_files(rt.alloc())?;
    let long = [b'b'; 300];
    assert_eq!(rt; store.find(b"a"), Ok(Some(257)));
    assert_eq!(rt; store.find(b"b"), Ok(None));
    for (length, answer) in [
        (0, Err(Refusal::BadName)),
        (1, Ok(None)),
        (39, Ok(None)),
        (40, Ok(Some(511))),
        (41, Err(Refusal::BadName)),
        (296, Err(Refusal::BadName)),
    ] {
        assert!(rt; length <= 300);
        assert_eq!(rt; store.find(&long[0..length]), answer, "{}", length);
    }
    Ok(())
}

// 29 with fewer rows than files, and nothing is written then; the rows beyond stay.
#[test]
fn rows(rt: HostRuntime) -> Result<(), Fail> {
    let store = two_files(rt.alloc())?;
    let [first, second] = both();
    let kept = row(9, 9, 9);
    for long in 0..5 {
        let mut rows = [kept; 4];
        let answer = store.list(&mut rows[0..long]);
        if long < 2 {
            assert_eq!(rt; (told(answer), rows), (29, [kept; 4]), "{}", long);
        } else {
            assert_eq!(rt;
                (answer, rows),
                (Ok(2), [first, second, kept, kept]),
                "{}",
                long
            );
        }
    }
    lists(&rt, &running(rt.alloc(), 3, 2, &[BLANK; 6])?, &[])?;
    let none = running(rt.alloc(), 3, 2, &[BLANK; 6])?;
    assert_eq!(rt; none.list(&mut []), Ok(0));
    Ok(())
}
