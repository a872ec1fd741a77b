use crate::blanks::blank;
use crate::images::ImageChip;
use flash::{Chip, Fault, Look, Place, Purpose, Record, Sizes, Tag};
use std::test::Fail;

// The number of the refusal of a chip of these bytes, if they are refused: by number, as docs/RULES.md names refusals.
fn refusal(bytes: Vec<u8>) -> Option<u32> {
    ImageChip::new(bytes)
        .err()
        .map(|unmade| unmade.why.number())
}

const TAG: Tag = Tag {
    first: 0x0102_0304,
    second: 5,
    third: 6,
    serial: 0xFFFF_FFFF,
};

const RECORD: Record = Record {
    tag: TAG,
    bytes: [9; 2048],
};

// A chip of these bytes, which are an image.
fn chip_of(bytes: Vec<u8>) -> Result<ImageChip, Fail> {
    ImageChip::new(bytes).map_err(|_| Fail::new("no image"))
}

#[test]
fn heads(rt: HostRuntime) -> Result<(), Fail> {
    let table: [(&[u8], Option<u32>); 8] = [
        (b"TFS\x01\x00\x00\x00", Some(1)),
        (b"TFS\x01\x00\x00\x00\x00", None),
        (b"TFs\x02\x00\x00\x00\x00", Some(1)),
        (b"TFS\x02\x00\x01\x01\x00", Some(2)),
        (b"TFS\x01\x01\x00\x00\x00", Some(2)),
        (b"TFS\x01\x00\x01\x01\x00", Some(3)),
        (b"TFS\x01\x00\x00\x09\x00", None),
        (b"TFS\x01\x00\x09\x00\x00", None),
    ];
    for (bytes, number) in table {
        assert_eq!(rt; refusal(Vec::from_slice(rt.alloc(), bytes)?), number);
    }
    Ok(())
}

#[test]
fn lengths(rt: HostRuntime) -> Result<(), Fail> {
    let mut long = blank(rt.alloc(), 2, 3)?;
    assert_eq!(rt; long.len(), 12398);
    long.push(0)?;
    assert_eq!(rt; refusal(long), Some(3));
    let mut short = blank(rt.alloc(), 2, 3)?;
    let _ = short.pop();
    assert_eq!(rt; refusal(short), Some(3));
    Ok(())
}

#[test]
fn made_in_spite(rt: HostRuntime) -> Result<(), Fail> {
    let old = b"TFS\x02\x00\x01\x01\x00";
    let Err(unmade) = ImageChip::new(Vec::from_slice(rt.alloc(), old)?) else {
        return Err(Fail::new("an image"));
    };
    let mut chip = unmade.chip;
    let at = Place::new(0, 0);
    assert!(rt;
        chip.is_on()
            && chip.sizes()
                == Sizes {
                    blocks: 0,
                    chunks: 0,
                }
    );
    assert!(rt; chip.look(at) == Err(Fault::NoSuchPlace));
    assert!(rt; chip.erase(0) == Err(Fault::NoSuchPlace));
    chip.restart();
    assert_eq!(rt; chip.into_bytes().as_slice(), old.as_slice());
    Ok(())
}

#[test]
fn programs(rt: HostRuntime) -> Result<(), Fail> {
    let mut chip = chip_of(blank(rt.alloc(), 2, 2)?)?;
    let at = Place::new(1, 0);
    assert!(rt; chip.look(Place::new(9, 9)) == Err(Fault::Off));
    chip.restart();
    assert!(rt; chip.program(Purpose::Adding, at, &RECORD) == Ok(()));
    assert!(rt; chip.program(Purpose::Adding, at, &RECORD) == Err(Fault::NotBlank));
    assert!(rt; chip.look(at) == Ok(Look::Record(TAG)));
    let mut buffer = [0; 2048];
    assert!(rt; chip.fetch(at, &mut buffer) == Ok(()));
    assert!(rt; buffer == RECORD.bytes);
    Ok(())
}

#[test]
fn erases(rt: HostRuntime) -> Result<(), Fail> {
    let mut chip = chip_of(blank(rt.alloc(), 2, 2)?)?;
    chip.restart();
    let at = Place::new(1, 0);
    assert!(rt; chip.program(Purpose::Adding, at, &RECORD) == Ok(()));
    assert!(rt; chip.erase(1) == Ok(()) && chip.look(at) == Ok(Look::Blank));
    let bytes = chip.into_bytes();
    assert!(rt; bytes.len() == 8268);
    assert_eq!(rt; &bytes[4138..4144], [0xFF, 4, 3, 2, 1, 5].as_slice());
    assert_eq!(rt; &bytes[4154..4156], [0xFF, 9].as_slice());
    Ok(())
}

#[test]
fn power_and_states(rt: HostRuntime) -> Result<(), Fail> {
    let mut bytes = blank(rt.alloc(), 1, 2)?;
    assert!(rt; bytes.len() == 4138);
    bytes[7] = 2;
    bytes[2073] = 0;
    let mut chip = chip_of(bytes)?;
    let first = Place::new(0, 0);
    let last = Place::new(0, 1);
    assert!(rt; !chip.is_on() && chip.look(last) == Err(Fault::Off));
    chip.restart();
    assert!(rt; chip.look(last) == Ok(Look::Damaged));
    assert!(rt; chip.fetch(last, &mut [0; 2048]) == Err(Fault::NoRecord));
    assert!(rt; chip.program(Purpose::Copying, first, &RECORD) == Err(Fault::NotBlank));
    assert_eq!(rt; chip.into_bytes().get(7).copied(), Some(1));
    Ok(())
}
