use crate::tests::chips::{
    BLANK, DAMAGED, attached, chip, cut, data, header, marker, raw, tag, told, verdict,
};
use bench::Plan;
use flash::{Chunk, Place};
use scan::Refusal;
use std::process::Abort;
use std::test::Fail;

// Three blocks of two: the files may use (3-1)*2-1 = 3 chunks.

// What mount answers on three blocks of two. On two blocks of three, and on six of one, it answers 9, whatever the rows.
fn expect(
    rt: &(impl Abort + AllocGlobal),
    rows: &[Chunk; 6],
    answer: Result<(), Refusal>,
) -> Result<(), Fail> {
    assert_eq!(rt; verdict(rt, 3, 2, rows)?, answer);
    assert_eq!(rt; verdict(rt, 2, 3, rows)?, Err(Refusal::BadSizes));
    assert_eq!(rt; verdict(rt, 6, 1, rows)?, Err(Refusal::BadSizes));
    Ok(())
}

// A record with object number 256.
fn bad(serial: u32) -> Chunk {
    data(256, 1, 5, serial)
}

// Chunk j of the file 257.
fn part(number: u32, serial: u32) -> Chunk {
    data(257, number, 5, serial)
}

// 9 at each edge, for mount and for format.
#[test]
fn sizes(rt: HostRuntime) -> Result<(), Fail> {
    for (blocks, chunks, number) in [
        (0, 0, 9),
        (0, 4, 9),
        (3, 0, 9),
        (2, 2, 9),
        (3, 1, 9),
        (3, 2, 0),
        (64, 2, 0),
        (65, 2, 9),
        (3, 64, 0),
        (3, 65, 9),
        (64, 32, 0),
        (32, 64, 0),
        (33, 62, 0),
        (33, 63, 9),
        (64, 33, 9),
        (4_294_967_295, 0, 9),
        (0, 4_294_967_295, 9),
    ] {
        let rows = vec![in rt.alloc(); BLANK; blocks as usize * chunks as usize]?;
        let mut store = attached(rt.alloc(), chip(rows, blocks, chunks, Plan::default())?)?;
        assert_eq!(rt;
            [told(store.mount()), told(store.format())],
            [number; 2],
            "{blocks} blocks of {chunks}"
        );
    }
    Ok(())
}

// 10 before 11, 12, 13 and 14, with the first place of a record that breaks the rules.
#[test]
fn ten(rt: HostRuntime) -> Result<(), Fail> {
    let name = header(257, 0, 1, b"a");
    let other = header(258, 0, 2, b"a");
    for (rows, place) in [
        (
            [BLANK, bad(8), bad(7), BLANK, BLANK, bad(9)],
            Place::new(0, 1),
        ),
        (
            [bad(7), BLANK, data(512, 1, 5, 7), BLANK, BLANK, BLANK],
            Place::new(0, 0),
        ),
        (
            [part(1, 1), part(2, 1), BLANK, BLANK, BLANK, bad(3)],
            Place::new(2, 1),
        ),
        ([name, other, bad(3), BLANK, BLANK, BLANK], Place::new(1, 0)),
        (
            [name, part(1, 2), part(2, 3), part(3, 4), bad(5), BLANK],
            Place::new(2, 0),
        ),
        (
            [name, bad(4), part(1, 2), DAMAGED, part(2, 3), DAMAGED],
            Place::new(0, 1),
        ),
    ] {
        expect(&rt, &rows, Err(Refusal::BadRecord(place)))?;
    }
    Ok(())
}

// Which place 11 carries: the first whose record is unlike an earlier one of its serial.
#[test]
fn clashes(rt: HostRuntime) -> Result<(), Fail> {
    for (rows, place) in [
        (
            [part(1, 1), part(2, 2), part(3, 2), part(4, 1), BLANK, BLANK],
            Place::new(1, 0),
        ),
        (
            [part(1, 1), part(1, 1), BLANK, part(2, 1), BLANK, BLANK],
            Place::new(1, 1),
        ),
        (
            [
                BLANK,
                part(1, 1),
                DAMAGED,
                part(2, 2),
                part(2, 1),
                part(1, 1),
            ],
            Place::new(2, 0),
        ),
        (
            [part(1, 1), part(2, 1), part(3, 1), BLANK, BLANK, BLANK],
            Place::new(0, 1),
        ),
    ] {
        expect(&rt, &rows, Err(Refusal::SerialClash(place)))?;
    }
    Ok(())
}

// A record that differs from `part(1, 7)` in its last data byte alone.
fn last_byte() -> Chunk {
    match part(1, 7) {
        Chunk::Holds(mut record) => {
            record.bytes[2047] = 8;
            Chunk::Holds(record)
        }
        chunk => chunk,
    }
}

// Records of one serial are unlike if they differ in any number or any data byte; equal ones are one record.
#[test]
fn unlike(rt: HostRuntime) -> Result<(), Fail> {
    for other in [
        part(2, 7),
        data(258, 1, 5, 7),
        data(257, 1, 6, 7),
        marker(257, 7),
        raw(tag(1, 257, 5, 7), 8),
        last_byte(),
    ] {
        let rows = [part(1, 7), BLANK, BLANK, other, BLANK, BLANK];
        expect(&rt, &rows, Err(Refusal::SerialClash(Place::new(1, 1))))?;
        let rows = [other, BLANK, BLANK, other, BLANK, other];
        expect(&rt, &rows, Ok(()))?;
    }
    Ok(())
}

// 11 before 12, 13 and 14.
#[test]
fn eleven(rt: HostRuntime) -> Result<(), Fail> {
    let name = header(257, 0, 1, b"a");
    let other = header(258, 0, 2, b"a");
    for (rows, place) in [
        (
            [name, other, data(259, 1, 5, 2), BLANK, BLANK, BLANK],
            Place::new(1, 0),
        ),
        (
            [name, part(1, 2), part(2, 3), part(3, 4), part(4, 4), BLANK],
            Place::new(2, 0),
        ),
        (
            [
                name,
                marker(258, 1),
                part(1, 2),
                DAMAGED,
                part(2, 3),
                DAMAGED,
            ],
            Place::new(0, 1),
        ),
    ] {
        expect(&rt, &rows, Err(Refusal::SerialClash(place)))?;
    }
    Ok(())
}

// 12 alone and before 13 and 14; a header that is not its file's newest counts for nothing.
#[test]
fn twelve(rt: HostRuntime) -> Result<(), Fail> {
    let name = header(257, 0, 1, b"a");
    let other = cut(511, 0, 2, b"a");
    for rows in [
        [name, other, BLANK, BLANK, BLANK, BLANK],
        [name, other, part(1, 3), part(2, 4), BLANK, BLANK],
        [name, DAMAGED, other, DAMAGED, part(1, 3), DAMAGED],
    ] {
        expect(&rt, &rows, Err(Refusal::SameNames))?;
    }
    let renamed = header(511, 0, 3, b"b");
    let rows = [name, other, renamed, BLANK, BLANK, BLANK];
    expect(&rt, &rows, Ok(()))?;
    let rows = [name, other, marker(257, 3), BLANK, BLANK, BLANK];
    expect(&rt, &rows, Ok(()))
}

// 13 alone, at its edge, and before 14.
#[test]
fn thirteen(rt: HostRuntime) -> Result<(), Fail> {
    let name = header(257, 1000, 1, b"a");
    let (one, two, three) = (part(1, 2), part(2, 3), part(1000, 4));
    let rows = [name, one, two, BLANK, BLANK, BLANK];
    expect(&rt, &rows, Ok(()))?;
    let rows = [name, one, two, three, BLANK, BLANK];
    expect(&rt, &rows, Err(Refusal::FilesTooLarge))?;
    let rows = [name, one, two, three, part(3, 5), part(4, 6)];
    expect(&rt, &rows, Err(Refusal::FilesTooLarge))?;
    let rows = [name, one, two, part(2, 5), BLANK, BLANK];
    expect(&rt, &rows, Ok(()))
}

// 14 alone; a block that holds nothing wanted, or a copy that stands in another block too, is a way on.
#[test]
fn fourteen(rt: HostRuntime) -> Result<(), Fail> {
    let name = header(257, 0, 1, b"a");
    let (one, two) = (part(1, 2), part(2, 3));
    let rows = [name, DAMAGED, one, DAMAGED, two, DAMAGED];
    expect(&rt, &rows, Err(Refusal::NoWayOn))?;
    let rows = [BLANK, name, one, BLANK, BLANK, two];
    expect(&rt, &rows, Err(Refusal::NoWayOn))?;
    for (last, answer) in [
        (two, Err(Refusal::NoWayOn)),
        (one, Ok(())),
        (DAMAGED, Ok(())),
        (marker(258, 9), Ok(())),
    ] {
        let rows = [name, DAMAGED, one, DAMAGED, BLANK, last];
        expect(&rt, &rows, answer)?;
    }
    Ok(())
}
