use crate::tests::chips::{
    BLANK, BYTES, HEAD, LONG, MOST, NAMED_257, Rows, cut, opened, put, record, running, stopped,
    tag, told,
};
use bench::{BenchChip, Plan};
use std::alloc::Global;
use std::test::Fail;
use store::Store;

// The refusals of each call by section 8 of docs/RULES.md, each at its edge, and the smallest of those that fit. One store
// takes all the calls of a test: a refused call changes nothing.

// Two files without chunks: 257, "a", and 258, "b".
fn two_files(heap: Global) -> Result<Store<BenchChip>, Fail> {
    let mut rows = BLANK;
    rows[0] = record(tag(HEAD, NAMED_257, 0, 1), b'a');
    rows[1] = record(tag(HEAD, NAMED_257 + 1, 0, 2), b'b');
    running(heap, &rows, Plan::default())
}

#[test]
fn stopped_store(rt: HostRuntime) -> Result<(), Fail> {
    let mut store = stopped(rt.alloc(), &BLANK, 3, Plan::default())?;
    let answers = [
        told(store.create(257, b"a")),
        told(store.create(256, b"")),
        opened(&mut store, 256),
        told(store.rename(256, b"")),
        told(store.delete(256)),
    ];
    assert_eq!(rt; answers, [15; 5]);
    Ok(())
}

// Two files use two chunks, and those created five more, as many as they may.
#[test]
fn create(rt: HostRuntime) -> Result<(), Fail> {
    let mut store = two_files(rt.alloc())?;
    let cases: [(u32, &[u8], u32); 15] = [
        (256, b"c", 16),
        (512, b"c", 16),
        (256, b"", 16),
        (259, b"", 19),
        (259, &LONG, 19),
        (257, b"", 19),
        (257, b"b", 21),
        (259, b"a", 22),
        (259, &LONG[0..40], 0),
        (511, b"c", 0),
        (260, b"d", 0),
        (261, b"e", 0),
        (262, b"f", 0),
        (263, b"g", 27),
        (263, b"c", 22),
    ];
    for (object, name, number) in cases {
        assert_eq!(rt;
            told(store.create(object, name)),
            number,
            "{} {}",
            object,
            number
        );
    }
    Ok(())
}

#[test]
fn rename(rt: HostRuntime) -> Result<(), Fail> {
    let mut store = two_files(rt.alloc())?;
    let cases: [(u32, &[u8], u32); 11] = [
        (256, b"c", 16),
        (512, b"c", 16),
        (256, b"", 16),
        (257, b"", 19),
        (257, &LONG, 19),
        (259, b"", 19),
        (259, b"c", 20),
        (259, b"a", 20),
        (257, b"b", 22),
        (257, b"a", 0),
        (257, &LONG[0..40], 0),
    ];
    for (object, name, number) in cases {
        assert_eq!(rt;
            told(store.rename(object, name)),
            number,
            "{} {}",
            object,
            number
        );
    }
    Ok(())
}

// Open and delete; and what an open file is refused.
#[test]
fn open_files(rt: HostRuntime) -> Result<(), Fail> {
    let mut store = two_files(rt.alloc())?;
    for (object, number) in [(256, 16), (512, 16), (259, 20)] {
        assert_eq!(rt; opened(&mut store, object), number);
        assert_eq!(rt; told(store.delete(object)), number);
    }
    let ticket = store.open(257)?;
    let answers = [
        opened(&mut store, 257),
        told(store.rename(257, b"c")),
        told(store.rename(257, b"b")),
        told(store.delete(257)),
        opened(&mut store, 258),
    ];
    let closed = told(store.close(ticket));
    assert_eq!(rt; answers, [23, 23, 22, 23, 0]);
    assert_eq!(rt;
        (closed, told(store.delete(257)), opened(&mut store, 257)),
        (0, 0, 20)
    );
    Ok(())
}

// A put's chunk and number of bytes, and a cut's length; the file gets 1000 chunks long.
#[test]
fn put_and_cut(rt: HostRuntime) -> Result<(), Fail> {
    let mut store = two_files(rt.alloc())?;
    for (number, count, refusal) in [
        (0, 1, 17),
        (1001, 1, 17),
        (0, 0, 17),
        (1, 0, 18),
        (1, 2049, 18),
        (1, 2048, 0),
        (1000, 1, 0),
    ] {
        assert!(rt; count <= 2049);
        let answer = put(&mut store, 257, number, &BYTES[0..count]);
        assert_eq!(rt; told(answer), refusal, "{} {}", number, count);
    }
    for (length, refusal) in [
        (1001, 17),
        (1000, 25),
        (999, 0),
        (999, 25),
        (0, 0),
        (0, 25),
        (1001, 17),
    ] {
        assert_eq!(rt; told(cut(&mut store, 257, length)), refusal, "{}", length);
    }
    Ok(())
}

// 257, "a", with chunks 1 to 6, so that the limit is reached; its header has the highest serial.
fn last_serial(heap: Global) -> Result<Store<BenchChip>, Fail> {
    let mut rows: Rows = BLANK;
    rows[0] = record(tag(HEAD, NAMED_257, 0, MOST), b'a');
    for number in 1..7u32 {
        rows[number as usize] = record(tag(number, 257, 2, number), 0);
    }
    running(heap, &rows, Plan::default())
}

#[test]
fn serials(rt: HostRuntime) -> Result<(), Fail> {
    let mut store = last_serial(rt.alloc())?;
    let answers = [
        told(store.create(258, b"a")),
        told(store.create(258, b"b")),
        told(put(&mut store, 257, 1, b"x")),
        told(put(&mut store, 257, 7, b"x")),
        told(cut(&mut store, 257, 6)),
        told(cut(&mut store, 257, 5)),
        told(store.rename(257, b"b")),
        told(store.delete(257)),
    ];
    assert_eq!(rt; answers, [22, 26, 26, 26, 25, 26, 26, 26]);
    let ticket = store.open(257)?;
    let answers = [
        told(store.rename(257, b"b")),
        told(store.delete(257)),
        told(store.close(ticket)),
    ];
    assert_eq!(rt; answers, [23, 23, 0]);
    let mut rows: Rows = BLANK;
    rows[0] = record(tag(HEAD, NAMED_257, 0, MOST - 1), b'a');
    let mut store = running(rt.alloc(), &rows, Plan::default())?;
    assert_eq!(rt;
        [told(store.rename(257, b"b")), told(store.rename(257, b"c"))],
        [0, 26]
    );
    Ok(())
}
