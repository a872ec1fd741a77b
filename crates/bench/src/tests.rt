use crate::benches::BenchChip;
use crate::plans::Plan;
use flash::{Act, Chip, Chunk, Fault, Look, Place, Purpose, Record, Sizes, Tag};
use std::alloc::Global;
use std::process::Abort;
use std::test::Fail;

fn tag(serial: u32) -> Tag {
    Tag {
        first: 1,
        second: 257,
        third: 5,
        serial,
    }
}

fn record(serial: u32) -> Record {
    Record {
        tag: tag(serial),
        bytes: [7; 2048],
    }
}

// Rows with a record each, whose serial is the row.
fn full(heap: Global, count: u32) -> Result<Vec<Chunk>, Fail> {
    let rows = (0..count).map(|i| Chunk::Holds(record(i))).collect(heap)?;
    Ok(rows)
}

// As in `probes` and `speed`: crates share only what a library makes public.
fn chip(rows: Vec<Chunk>, blocks: u32, chunks: u32, plan: Plan) -> Result<BenchChip, Fail> {
    let made = BenchChip::new(rows, Sizes { blocks, chunks }, plan);
    made.map_err(|_| Fail::new("the rows do not fit"))
}

fn add(chip: &mut BenchChip, at: Place) -> Result<(), Fault> {
    chip.program(Purpose::Adding, at, &record(9))
}

fn expect(rt: &impl Abort, chip: &BenchChip, at: Place, look: Look) {
    assert_eq!(rt; chip.look(at), Ok(look));
}

#[test]
fn rows_must_fit(rt: HostRuntime) -> Result<(), Fail> {
    for count in 11..14 {
        let sizes = Sizes {
            blocks: 3,
            chunks: 4,
        };
        match BenchChip::new(full(rt.alloc(), count)?, sizes, Plan::default()) {
            Ok(chip) => assert!(rt; count == 12 && !chip.is_on()),
            Err(unmade) => {
                let mut chip = unmade.chip;
                assert!(rt; count != 12 && chip.is_on());
                assert_eq!(rt;
                    chip.sizes(),
                    Sizes {
                        blocks: 0,
                        chunks: 0,
                    }
                );
                assert_eq!(rt; chip.erase(0), Err(Fault::NoSuchPlace));
                assert_eq!(rt; chip.into_rows().len(), count as usize);
            }
        }
    }
    Ok(())
}

#[test]
fn none_fails(rt: HostRuntime) -> Result<(), Fail> {
    let mut chip = chip(full(rt.alloc(), 2)?, 1, 2, Plan::default())?;
    assert_eq!(rt; chip.erase(0), Err(Fault::Off));
    chip.restart();
    for _ in 0..3 {
        assert_eq!(rt; chip.erase(0), Ok(()));
        assert_eq!(rt; add(&mut chip, Place::new(0, 0)), Ok(()));
    }
    assert!(rt; chip.is_on());
    Ok(())
}

#[test]
fn the_first_fails(rt: HostRuntime) -> Result<(), Fail> {
    let plan = Plan {
        fails: 1,
        damages: 1,
        takes: 2,
    };
    let mut chip = chip(vec![in rt.alloc(); Chunk::Blank; 2]?, 1, 2, plan)?;
    chip.restart();
    assert_eq!(rt;
        add(&mut chip, Place::new(0, 0)),
        Err(Fault::SupplyFailed(Act::Adding(Place::new(0, 0))))
    );
    assert_eq!(rt; chip.look(Place::new(0, 0)), Err(Fault::Off));
    chip.restart();
    expect(&rt, &chip, Place::new(0, 0), Look::Damaged);
    assert_eq!(rt; add(&mut chip, Place::new(0, 0)), Err(Fault::NotBlank));
    assert_eq!(rt; add(&mut chip, Place::new(0, 1)), Ok(()));
    Ok(())
}

// Refused calls do not count, and a restart keeps plan and count.
#[test]
fn the_third_fails(rt: HostRuntime) -> Result<(), Fail> {
    let plan = Plan {
        fails: 3,
        damages: 1,
        takes: 2,
    };
    let mut chip = chip(full(rt.alloc(), 2)?, 1, 2, plan)?;
    chip.restart();
    assert_eq!(rt; chip.erase(0), Ok(()));
    assert_eq!(rt; chip.erase(1), Err(Fault::NoSuchPlace));
    assert_eq!(rt; add(&mut chip, Place::new(0, 0)), Ok(()));
    chip.restart();
    assert_eq!(rt; add(&mut chip, Place::new(0, 0)), Err(Fault::NotBlank));
    assert_eq!(rt;
        add(&mut chip, Place::new(0, 1)),
        Err(Fault::SupplyFailed(Act::Adding(Place::new(0, 1))))
    );
    chip.restart();
    expect(&rt, &chip, Place::new(0, 0), Look::Record(tag(9)));
    expect(&rt, &chip, Place::new(0, 1), Look::Record(tag(9)));
    assert_eq!(rt; chip.erase(0), Ok(()));
    Ok(())
}

#[test]
fn a_failed_erase_keeps_damages_and_blanks(rt: HostRuntime) -> Result<(), Fail> {
    let plan = Plan {
        fails: 1,
        damages: 10,
        takes: 8,
    };
    let mut chip = chip(full(rt.alloc(), 8)?, 2, 4, plan)?;
    chip.restart();
    assert_eq!(rt; chip.erase(0), Err(Fault::SupplyFailed(Act::Erasing(0))));
    chip.restart();
    expect(&rt, &chip, Place::new(0, 0), Look::Record(tag(0)));
    expect(&rt, &chip, Place::new(0, 1), Look::Damaged);
    expect(&rt, &chip, Place::new(0, 2), Look::Record(tag(2)));
    expect(&rt, &chip, Place::new(0, 3), Look::Blank);
    expect(&rt, &chip, Place::new(1, 0), Look::Record(tag(4)));
    Ok(())
}

#[test]
fn bits_end_at_63(rt: HostRuntime) -> Result<(), Fail> {
    let plan = Plan {
        fails: 1,
        damages: u64::MAX,
        takes: 1 << 63,
    };
    let mut chip = chip(full(rt.alloc(), 70)?, 1, 70, plan)?;
    chip.restart();
    assert_eq!(rt; chip.erase(0), Err(Fault::SupplyFailed(Act::Erasing(0))));
    chip.restart();
    expect(&rt, &chip, Place::new(0, 0), Look::Damaged);
    expect(&rt, &chip, Place::new(0, 62), Look::Damaged);
    expect(&rt, &chip, Place::new(0, 63), Look::Blank);
    expect(&rt, &chip, Place::new(0, 64), Look::Record(tag(64)));
    expect(&rt, &chip, Place::new(0, 69), Look::Record(tag(69)));
    Ok(())
}
