use crate::tests::shelves::{Nothing, plays};
use replays::replay;
use std::test::Fail;

// What is saved is an image of the same chip: off, with its records.
#[test]
fn saved(rt: HostRuntime) -> Result<(), Fail> {
    plays(
        &rt,
        None,
        "\
save a => no chip
bench 1 2 => ok
chunk 0 0 1 257 5 2 68656c6c6f => ok
save a => ok
image a => ok
plan 0 0 0 => no bench chip
chip.sizes => ok 1 2
chip.look 0 0 => refused 4
chip.restart => ok
chip.look 0 0 => ok 1 257 5 2
chip.look 0 1 => ok blank
chip.erase 0 => ok
save a => ok
image a => ok
chip.look 0 0 => ok blank
image a => no file
bench 256 1 => ok
save a => no image
",
    )
}

#[test]
fn no_images(rt: HostRuntime) -> Result<(), Fail> {
    let heap = rt.alloc();
    for (bytes, said) in [
        (
            b"TFS".as_slice(),
            "image a => refused 1\nchip.sizes => ok 0 0\n",
        ),
        (
            b"TFS\x02\x00\x03\x04\x00".as_slice(),
            "image a => refused 2\nchip.sizes => ok 0 0\n",
        ),
        (
            b"TFS\x01\x00\x03\x04\x00".as_slice(),
            "image a => refused 3\nchip.sizes => ok 0 0\n",
        ),
    ] {
        let file = Vec::from_slice(heap, bytes)?;
        plays(&rt, Some(file), said)?;
    }
    Ok(())
}

// A script is answered line by line; a file that is open at its end is closed.
#[test]
fn whole(rt: HostRuntime) -> Result<(), Fail> {
    let script = "# a file\nbench 3 4\nattach\n\nmount\ncreate 257 61\nopen 257\nbad\n";
    let told = replay(rt.alloc(), script, &mut Nothing)?;
    assert_eq!(rt; told.as_str(), "ok\nok\nok\nok 1 0\nok 257\nno such call\n");
    let told = replay(rt.alloc(), "image a\nbench 1 2\nsave a", &mut Nothing)?;
    assert_eq!(rt; told.as_str(), "no file\nok\nno file\n");
    Ok(())
}
