use crate::tests::chips::{BLANK, HEAD, NAMED_257, Rows, opened, record, running, tag, told};
use bench::{BenchChip, Plan};
use flash::{Act, Fault, Place};
use scan::Refusal;
use std::alloc::Global;
use std::test::Fail;
use store::Store;

// A store with the file 257, "a".
fn one_file(heap: Global, plan: Plan) -> Result<Store<BenchChip>, Fail> {
    let mut rows: Rows = BLANK;
    rows[0] = record(tag(HEAD, NAMED_257, 1, 1), b'a');
    running(heap, &rows, plan)
}

// The put at (1,0) fails. The store is stopped then: the ticket gets 15, whatever else is wrong, and can be closed.
#[test]
fn after_failure(rt: HostRuntime) -> Result<(), Fail> {
    let plan = Plan {
        fails: 1,
        damages: 0,
        takes: 0,
    };
    let mut store = one_file(rt.alloc(), plan)?;
    let ticket = store.open(257)?;
    let failed = store.put(&ticket, 1, b"x");
    let answers = [
        told(store.put(&ticket, 1, b"x")),
        told(store.put(&ticket, 0, b"")),
        told(store.cut(&ticket, 1001)),
        opened(&mut store, 257),
    ];
    let closed = told(store.close(ticket));
    let act = Act::Adding(Place::new(1, 0));
    assert_eq!(rt; failed, Err(Refusal::Chip(Fault::SupplyFailed(act))));
    assert_eq!(rt; (answers, closed), ([15; 4], 0));
    Ok(())
}

// After a mount no file is open, and a ticket from before gets 24, if no smaller number fits. Once the file is opened again
// the old ticket does as well as the new one, and the later close of the two is refused.
#[test]
fn old_ticket(rt: HostRuntime) -> Result<(), Fail> {
    let mut store = one_file(rt.alloc(), Plan::default())?;
    let old = store.open(257)?;
    let mounted = told(store.mount());
    let answers = [
        told(store.put(&old, 1, b"x")),
        told(store.put(&old, 1, b"")),
        told(store.cut(&old, 0)),
        told(store.cut(&old, 1)),
        told(store.cut(&old, 1001)),
    ];
    let again = match store.open(257) {
        Ok(new) => [
            told(store.put(&old, 1, b"x")),
            told(store.close(old)),
            told(store.put(&new, 1, b"x")),
            told(store.close(new)),
        ],
        Err(refusal) => [refusal.number(), told(store.close(old)), 0, 0],
    };
    assert_eq!(rt;
        (mounted, answers, again),
        (0, [24, 18, 24, 24, 17], [0, 0, 24, 24])
    );
    assert_eq!(rt; store.size(257), Ok(1));
    Ok(())
}

// A ticket carries the object number and nothing else: one of another store is like the store's own.
#[test]
fn other_store(rt: HostRuntime) -> Result<(), Fail> {
    let mut here = one_file(rt.alloc(), Plan::default())?;
    let mut there = one_file(rt.alloc(), Plan::default())?;
    let ticket = there.open(257)?;
    let before = told(here.put(&ticket, 1, b"x"));
    let after = match here.open(257) {
        Ok(own) => [
            told(here.put(&ticket, 1, b"x")),
            told(here.close(ticket)),
            told(here.put(&own, 1, b"x")),
            told(there.put(&own, 1, b"xy")),
            told(there.close(own)),
        ],
        Err(refusal) => [refusal.number(), told(here.close(ticket)), 0, 0, 0],
    };
    assert_eq!(rt; (before, after), (24, [0, 0, 24, 0, 0]));
    assert_eq!(rt; [here.size(257)?, there.size(257)?], [1, 2]);
    Ok(())
}
