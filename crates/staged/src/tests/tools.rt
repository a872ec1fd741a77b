use crate::tests::shelves::{Nothing, plays};
use replays::replay;
use std::test::Fail;

// The chip's own calls, with a plan that begins on the way.
#[test]
fn chip_calls(rt: HostRuntime) -> Result<(), Fail> {
    plays(
        &rt,
        None,
        "\
chip.sizes => no chip
attach => no chip
dump => no chip
plan 1 0 0 => no bench chip
chunk 0 0 blank => no bench chip
bench 1 2 => ok
chip.look 0 0 => refused 4
chip.restart => ok
plan 2 1 0 => ok
chip.program 0 0 1 2 3 4 - => ok
chip.program 0 0 1 2 3 4 - => refused 6
chunk 0 0 blank => ok
chunk 0 2 blank => refused 5
chip.program 0 0 1 2 3 4 2049x00 => too long
chip.program 0 0 1 2 3 4 2048x00 => refused 7 adding 0 0
chip.look 0 0 => refused 4
chip.restart => ok
chip.look 0 0 => ok damaged
chip.fetch 0 0 => refused 8
chip.erase 0 => ok
chip.erase 1 => refused 5
chip.look\t0\t0 => ok blank
",
    )
}

// A dump tells of a chip that is off, too, and leaves it off.
#[test]
fn dumps(rt: HostRuntime) -> Result<(), Fail> {
    let script = "\
bench 1 2 1 0 0
chunk 0 1 damaged
dump
chip.look 0 0
chip.restart
chip.erase 0
dump
chip.look 0 0
";
    let answers = "\
ok
ok
block 0, chunk 0: blank
block 0, chunk 1: damaged
ok
refused 4
ok
refused 7 erasing 0
block 0, chunk 0: blank
block 0, chunk 1: damaged
ok
refused 4
";
    let told = replay(rt.alloc(), script, &mut Nothing)?;
    assert_eq!(rt; told.as_str(), answers);
    Ok(())
}
