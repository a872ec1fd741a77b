use crate::tests::contents::{ODD, broken, filled};
use crate::tests::said_of;
use commands::create::create;
use edits::collect::collect;
use edits::cut::cut;
use edits::put::put;
use edits::remove::remove;
use edits::rename::rename;
use edits::{Edited, Progress};
use files::cat::cat;
use files::ls::ls;
use std::alloc::Global;
use std::process::Abort;
use std::test::Fail;
use texts::stops::Stop;

// What a change cost, and the files after it.
fn is_edited(
    rt: &(impl Abort + AllocGlobal),
    edited: Result<Edited, Stop>,
    (programs, erases): (usize, usize),
    lines: &str,
) -> Result<Vec<u8>, Fail> {
    let heap = rt.alloc();
    let Edited { bytes, counts } = edited?;
    assert_eq!(rt; (counts.programs, counts.erases), (programs, erases));
    assert_eq!(rt; ls(heap, bytes.to_vec(heap)?)?.as_str(), lines);
    Ok(bytes)
}

// How often a put told of its progress, and what it told last.
#[derive(Default, Drop)]
struct Told {
    times: usize,
    last: (usize, usize),
}

impl Progress for Told {
    fn chunk(&mut self, done: usize, of: usize) {
        self.times = self.times.saturating_add(1);
        self.last = (done, of);
    }
}

// A put that tells nobody.
fn written(heap: Global, bytes: Vec<u8>, name: &[u8], content: &[u8]) -> Result<Edited, Stop> {
    let mut told = Told::default();
    put(heap, bytes, name, content, &mut told)
}

#[test]
fn puts(rt: HostRuntime) -> Result<(), Fail> {
    let heap = rt.alloc();
    let bytes = is_edited(
        &rt,
        written(heap, create(heap, 3, 4)?, b"a", &[7; 2049]),
        (3, 0),
        "257    2049    2 a\n",
    )?;
    assert_eq!(rt;
        cat(heap, bytes.to_vec(heap)?, b"a", 2047, None)?.as_slice(),
        b"\x07\x07".as_slice()
    );
    let bytes = is_edited(
        &rt,
        written(heap, bytes, b"a", b"short"),
        (2, 0),
        "257       5    1 a\n",
    )?;
    assert_eq!(rt;
        cat(heap, bytes.to_vec(heap)?, b"a", 0, None)?.as_slice(),
        b"short".as_slice()
    );
    is_edited(
        &rt,
        written(heap, bytes, b"a", b""),
        (1, 1),
        "257       0    0 a\n",
    )?;
    Ok(())
}

#[test]
fn progress(rt: HostRuntime) -> Result<(), Fail> {
    let heap = rt.alloc();
    let mut told = Told::default();
    put(heap, create(heap, 3, 4)?, b"a", &[0; 6145], &mut told)?;
    assert_eq!(rt; (told.times, told.last), (4, (4, 4)));
    Ok(())
}

#[test]
fn small_changes(rt: HostRuntime) -> Result<(), Fail> {
    let heap = rt.alloc();
    let odd = "257       0    0 a\\x5c \\xff\n";
    is_edited(&rt, remove(heap, filled(heap)?, b"adder.net"), (1, 0), odd)?;
    let both = "257       0    0 a\\x5c \\xff\n300    2060    2 sum\n";
    is_edited(
        &rt,
        rename(heap, filled(heap)?, b"adder.net", b"sum"),
        (1, 0),
        both,
    )?;
    let short = "257       0    0 a\\x5c \\xff\n300    2048    1 adder.net\n";
    is_edited(
        &rt,
        cut(heap, filled(heap)?, b"adder.net", 1),
        (1, 0),
        short,
    )?;
    Ok(())
}

// A file put again and again, until a block is worth cleaning.
fn worn(heap: Global) -> Result<Vec<u8>, Fail> {
    let mut bytes = create(heap, 3, 4)?;
    for content in [b"1", b"2", b"3", b"4"] {
        bytes = written(heap, bytes, b"a", content)?.bytes;
    }
    Ok(bytes)
}

#[test]
fn collects(rt: HostRuntime) -> Result<(), Fail> {
    let heap = rt.alloc();
    let collected = collect(heap, worn(heap)?)?;
    assert_eq!(rt; (collected.block, collected.copies), (0, 1));
    assert_eq!(rt;
        cat(heap, collected.bytes, b"a", 0, None)?.as_slice(),
        b"4".as_slice()
    );
    let none =
        "refused: 28, a block is blank, and no closed block has a load below that of a full one";
    said_of(&rt, collect(heap, create(heap, 3, 4)?), none)
}

#[test]
fn refused_changes(rt: HostRuntime) -> Result<(), Fail> {
    let heap = rt.alloc();
    let none = "refused: 20, there is no such file";
    said_of(&rt, remove(heap, filled(heap)?, b"adder"), none)?;
    said_of(&rt, rename(heap, filled(heap)?, b"adder", b"a"), none)?;
    said_of(&rt, cut(heap, filled(heap)?, b"adder", 0), none)?;
    let name = "refused: 19, the length of the name is outside 1 to 40";
    said_of(&rt, written(heap, filled(heap)?, &[b'a'; 41], b""), name)?;
    said_of(&rt, rename(heap, filled(heap)?, b"adder.net", b""), name)?;
    let room = "refused: 27, the files would use more chunks than they may";
    said_of(
        &rt,
        written(heap, create(heap, 3, 4)?, b"a", &[1; 14336]),
        room,
    )?;
    let taken = "refused: 22, another file has the name";
    said_of(&rt, rename(heap, filled(heap)?, b"adder.net", ODD), taken)?;
    let long = "refused: 25, the file is no longer than that";
    said_of(&rt, cut(heap, filled(heap)?, b"adder.net", 2), long)?;
    let record = "refused: 10, a record breaks the rules, at block 0, chunk 1";
    said_of(&rt, written(heap, broken(heap)?, b"a", b""), record)?;
    said_of(&rt, collect(heap, broken(heap)?), record)?;
    let mark = "refused: 1, under 8 bytes or not marked TFS";
    said_of(&rt, remove(heap, b"TFS".to_vec(heap)?, b"a"), mark)
}
