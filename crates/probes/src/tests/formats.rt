use crate::tests::chips::{BLANK, data, header, lists, refuses_all, row, running, stopped};
use bench::{BenchChip, Plan};
use flash::{Act, Chunk, Fault, Look};
use rules::Row;
use scan::Refusal;
use std::process::Abort;
use std::test::Fail;
use store::Store;

// A full chip of three blocks of two. Both files are named "a", so mount answers 12.
fn full() -> [Chunk; 6] {
    [
        header(257, 0, 1, b"a"),
        data(257, 1, 5, 2),
        data(257, 2, 5, 3),
        data(257, 3, 5, 4),
        header(258, 0, 5, b"a"),
        data(258, 1, 7, 6),
    ]
}

fn plan(fails: u64, damages: u64, takes: u64) -> Plan {
    Plan {
        fails,
        damages,
        takes,
    }
}

// The supply failed while this block was erased.
fn failed_at(block: u32) -> Result<(), Refusal> {
    Err(Refusal::Chip(Fault::SupplyFailed(Act::Erasing(block))))
}

// All six chunks are blank, and the chip is on.
fn is_clean(rt: &impl Abort, store: Store<BenchChip>) {
    let chip = store.release();
    assert!(rt; chip.is_on());
    let rows = chip.into_rows();
    assert_eq!(rt; rows.len(), 6);
    for row in rows.iter() {
        assert_eq!(rt; row.look(), Look::Blank);
    }
}

#[test]
fn all_blank(rt: HostRuntime) -> Result<(), Fail> {
    let mut store = stopped(rt.alloc(), 3, 2, &full(), Plan::default())?;
    assert_eq!(rt; store.mount(), Err(Refusal::SameNames));
    refuses_all(&rt, &store);
    assert_eq!(rt; store.format(), Ok(()));
    refuses_all(&rt, &store);
    assert_eq!(rt; store.mount(), Ok(()));
    lists(&rt, &store, &[])?;
    assert_eq!(rt; store.format(), Ok(()));
    is_clean(&rt, store);
    Ok(())
}

// A store is stopped at first, and after a format while it runs.
#[test]
fn stops(rt: HostRuntime) -> Result<(), Fail> {
    refuses_all(
        &rt,
        &stopped(rt.alloc(), 3, 2, &[BLANK; 6], Plan::default())?,
    );
    let [first, second, ..] = full();
    let mut store = running(
        rt.alloc(),
        3,
        2,
        &[first, second, BLANK, BLANK, BLANK, BLANK],
    )?;
    lists(&rt, &store, &[row(257, 1, 5)])?;
    assert_eq!(rt; store.format(), Ok(()));
    refuses_all(&rt, &store);
    is_clean(&rt, store);
    Ok(())
}

// Formats the full chip by a plan that fails at this block. Then mount answers this, with these files; and a second
// format goes through.
fn fails(
    rt: &(impl Abort + AllocGlobal),
    plan: Plan,
    block: u32,
    answer: Result<(), Refusal>,
    files: &[Row],
) -> Result<(), Fail> {
    let mut store = stopped(rt.alloc(), 3, 2, &full(), plan)?;
    assert_eq!(rt; store.format(), failed_at(block));
    refuses_all(rt, &store);
    assert_eq!(rt; store.mount(), answer);
    match answer {
        Ok(()) => lists(rt, &store, files)?,
        Err(_) => refuses_all(rt, &store),
    }
    assert_eq!(rt; store.format(), Ok(()));
    is_clean(rt, store);
    Ok(())
}

#[test]
fn planned(rt: HostRuntime) -> Result<(), Fail> {
    // block 0 stays as it was: still two files of one name
    fails(&rt, plan(1, 0, 0), 0, Err(Refusal::SameNames), &[])?;
    // only chunk 1 of 257 is erased
    fails(&rt, plan(1, 0, 0b10), 0, Err(Refusal::SameNames), &[])?;
    // the header of 257 is erased, so its data is of no file and block 0 has load 0
    fails(&rt, plan(1, 0, 0b01), 0, Ok(()), &[row(258, 1, 7)])?;
    // the same with a damaged header
    fails(&rt, plan(1, 0b01, 0), 0, Ok(()), &[row(258, 1, 7)])?;
    // block 0 is blank; of block 1 chunk 0 is damaged and chunk 1 blank
    fails(&rt, plan(2, 0b01, 0b10), 1, Ok(()), &[row(258, 1, 7)])?;
    // the header of 258 goes, or its data
    fails(&rt, plan(3, 0, 0b01), 2, Ok(()), &[])?;
    fails(&rt, plan(3, 0b10, 0), 2, Ok(()), &[row(258, 0, 0)])?;
    // a chunk that is to be damaged and to take its new content takes it
    fails(&rt, plan(3, 0b11, 0b11), 2, Ok(()), &[])
}

// A blank block is not erased: the second act is at block 2. After the failure the chip is off.
#[test]
fn skips_blank(rt: HostRuntime) -> Result<(), Fail> {
    let [a, b, _, _, e, f] = full();
    let rows = [a, b, BLANK, BLANK, e, f];
    let mut store = stopped(rt.alloc(), 3, 2, &rows, plan(2, 0, 0))?;
    assert_eq!(rt; store.format(), failed_at(2));
    assert!(rt; !store.release().is_on());
    let mut store = stopped(rt.alloc(), 3, 2, &rows, plan(3, 0, 0))?;
    assert_eq!(rt; store.format(), Ok(()));
    is_clean(&rt, store);
    Ok(())
}

// 9 erases nothing.
#[test]
fn sizes_first(rt: HostRuntime) -> Result<(), Fail> {
    let mut store = stopped(rt.alloc(), 2, 3, &full(), plan(1, 0, 0))?;
    assert_eq!(rt; store.format(), Err(Refusal::BadSizes));
    refuses_all(&rt, &store);
    let chip = store.release();
    assert!(rt; chip.is_on());
    for row in chip.into_rows().iter() {
        // no `==`: any record will do
        assert!(rt; matches!(row, Chunk::Holds(_)));
    }
    Ok(())
}
