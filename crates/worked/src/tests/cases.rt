use crate::tests::chips::{
    BLANK, BYTES, CUT, LONG, MARK, NAMED_257, counts, cut, filled, in_row, is_one, opened, put,
    running, stopped, tag, told,
};
use bench::{BenchChip, Plan};
use flash::{Act, Fault, Place};
use scan::Refusal;
use std::alloc::Global;
use std::test::Fail;
use store::Store;

// Section 10 of docs/RULES.md, on three blocks of four. Chunk c of block b is row 4*b + c.

// On a blank chip: create of 257, "a", and a put of 5 bytes to chunk 1.
fn first(heap: Global) -> Result<Store<BenchChip>, Fail> {
    let mut store = running(heap, &BLANK, Plan::default())?;
    store.create(257, b"a")?;
    put(&mut store, 257, 1, b"hello")?;
    Ok(store)
}

#[test]
fn first_records(rt: HostRuntime) -> Result<(), Fail> {
    let store = first(rt.alloc())?;
    is_one(&rt, &store, 257, 1, 5)?;
    let header = in_row(store, 0)?;
    assert_eq!(rt; header.tag, tag(CUT, NAMED_257, 0, 1));
    assert!(rt; header.bytes == filled(&[1, b'a']));
    let data = in_row(first(rt.alloc())?, 1)?;
    assert_eq!(rt; data.tag, tag(1, 257, 5, 2));
    assert!(rt; data.bytes == filled(b"hello"));
    Ok(())
}

// The length is 3, chunk 2 missing, the size 2*2048+9 = 4105; and so it is after a mount.
#[test]
fn stretch_cut_away(rt: HostRuntime) -> Result<(), Fail> {
    let mut store = running(rt.alloc(), &BLANK, Plan::default())?;
    store.create(257, b"a")?;
    for number in 1..4 {
        put(&mut store, 257, number, &BYTES[0..2048])?;
    }
    assert_eq!(rt; cut(&mut store, 257, 1), Ok(counts(1, 0)));
    is_one(&rt, &store, 257, 1, 2048)?;
    assert_eq!(rt; put(&mut store, 257, 3, &[5; 9]), Ok(counts(1, 0)));
    for _ in 0..2 {
        is_one(&rt, &store, 257, 3, 4105)?;
        let mut buffer = [1u8; 4105];
        assert_eq!(rt; store.read(257, 0, &mut buffer), Ok(4105));
        for (i, byte) in buffer.iter().enumerate() {
            let expected = match i / 2048 {
                0 => 7,
                1 => 0,
                _ => 5,
            };
            assert_eq!(rt; *byte, expected, "{}", i);
        }
        store.mount()?;
    }
    Ok(())
}

// Block 0 has the create, the put and the marker, and is closed by the mount. Block 1 fills up with 258 and its chunks 1 to
// 3, so chunk 4 has block 0 cleaned: its load is the marker alone, which goes to (2,0).
#[test]
fn deleted(rt: HostRuntime) -> Result<(), Fail> {
    let mut store = first(rt.alloc())?;
    assert_eq!(rt; store.delete(257), Ok(counts(1, 0)));
    assert_eq!(rt; store.find(b"a"), Ok(None));
    assert_eq!(rt; told(store.size(257)), 20);
    store.mount()?;
    assert_eq!(rt; store.create(258, b"a"), Ok(counts(1, 0)));
    for number in 1..4 {
        assert_eq!(rt; put(&mut store, 258, number, b"x"), Ok(counts(1, 0)));
    }
    assert_eq!(rt; put(&mut store, 258, 4, b"x"), Ok(counts(2, 1)));
    assert_eq!(rt; in_row(store, 8)?.tag, tag(MARK, NAMED_257, 0, 3));
    Ok(())
}

// Block 0: create (1), put 1, 2 (2, 3), cut to 0 (4). Block 1: put 2 (5). After a mount both are closed, so a rename cleans
// block 0, whose load is the cut header: the sixth act copies it to (2,0), and the seventh, the erase, leaves chunk 1 alone.
#[test]
fn failed_erase(rt: HostRuntime) -> Result<(), Fail> {
    let plan = Plan {
        fails: 7,
        damages: 0,
        takes: 0b1101,
    };
    let mut store = running(rt.alloc(), &BLANK, plan)?;
    store.create(257, b"a")?;
    put(&mut store, 257, 1, b"one")?;
    put(&mut store, 257, 2, b"two")?;
    cut(&mut store, 257, 0)?;
    put(&mut store, 257, 2, b"again")?;
    store.mount()?;
    let fault = Fault::SupplyFailed(Act::Erasing(0));
    assert_eq!(rt; store.rename(257, b"b"), Err(Refusal::Chip(fault)));
    store.mount()?;
    is_one(&rt, &store, 257, 2, 2053)?;
    assert_eq!(rt; store.find(b"a"), Ok(Some(257)));
    let mut buffer = [1u8; 4];
    assert_eq!(rt; store.read(257, 2046, &mut buffer), Ok(4));
    assert_eq!(rt; buffer, [0, 0, b'a', b'g']);
    Ok(())
}

// Create and chunks 1 to 6: serials 1 to 7, from (0,0) to (1,2). The files use 7 chunks, as many as they may.
fn full(heap: Global, plan: Plan) -> Result<Store<BenchChip>, Fail> {
    let mut store = running(heap, &BLANK, plan)?;
    store.create(257, b"a")?;
    for number in 1..7 {
        put(&mut store, 257, number, b"x")?;
    }
    Ok(store)
}

#[test]
fn limit(rt: HostRuntime) -> Result<(), Fail> {
    let mut store = full(rt.alloc(), Plan::default())?;
    assert_eq!(rt; told(put(&mut store, 257, 7, b"x")), 27);
    assert_eq!(rt; told(store.create(258, b"b")), 27);
    assert_eq!(rt; told(store.create(258, b"a")), 22);
    assert_eq!(rt; put(&mut store, 257, 6, b"xy"), Ok(counts(1, 0)));
    is_one(&rt, &store, 257, 6, 10_242)?;
    assert_eq!(rt; in_row(store, 7)?.tag, tag(6, 257, 2, 8));
    Ok(())
}

// Block 1, with load 3 since one of its records is of the older chunk 6, is cleaned, and the new record goes to (2,3).
#[test]
fn one_cleaning(rt: HostRuntime) -> Result<(), Fail> {
    let mut store = full(rt.alloc(), Plan::default())?;
    put(&mut store, 257, 6, b"xy")?;
    assert_eq!(rt; put(&mut store, 257, 6, b"xyz"), Ok(counts(4, 1)));
    is_one(&rt, &store, 257, 6, 10_243)?;
    assert_eq!(rt; in_row(store, 11)?.tag, tag(6, 257, 3, 9));
    Ok(())
}

// Acts 9 to 11 are the copies. The third, to (2,2), leaves that chunk damaged. The two before it stand in block 1 too, so
// block 2 has load 0: it is erased, and then block 1 is cleaned with 3 copies.
#[test]
fn costliest_put(rt: HostRuntime) -> Result<(), Fail> {
    let plan = Plan {
        fails: 11,
        damages: 0b0100,
        takes: 0,
    };
    let mut store = full(rt.alloc(), plan)?;
    put(&mut store, 257, 6, b"xy")?;
    let act = Act::Copying(Place::new(2, 2));
    let answer = put(&mut store, 257, 6, b"xyz");
    assert_eq!(rt; answer, Err(Refusal::Chip(Fault::SupplyFailed(act))));
    assert_eq!(rt; told(store.size(257)), 15);
    store.mount()?;
    is_one(&rt, &store, 257, 6, 10_242)?;
    assert_eq!(rt; put(&mut store, 257, 6, b"xyz"), Ok(counts(4, 2)));
    is_one(&rt, &store, 257, 6, 10_243)?;
    assert_eq!(rt; in_row(store, 11)?.tag, tag(6, 257, 3, 9));
    Ok(())
}

#[test]
fn edges(rt: HostRuntime) -> Result<(), Fail> {
    let mut store = running(rt.alloc(), &BLANK, Plan::default())?;
    assert_eq!(rt; told(store.create(257, &LONG)), 19);
    assert_eq!(rt; told(store.create(257, &LONG[0..40])), 0);
    for object in [256, 512] {
        assert_eq!(rt; told(store.create(object, b"a")), 16);
        assert_eq!(rt; opened(&mut store, object), 16);
    }
    assert_eq!(rt; told(store.create(511, b"a")), 0);
    for number in [0, 1001] {
        assert_eq!(rt; told(put(&mut store, 257, number, b"x")), 17);
    }
    let mut two = stopped(rt.alloc(), &BLANK[0..8], 2, Plan::default())?;
    assert_eq!(rt; told(two.mount()), 9);
    Ok(())
}
