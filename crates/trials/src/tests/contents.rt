use crate::tests::said_of;
use commands::create::create;
use files::cat::cat;
use files::format::format;
use files::info::info;
use files::ls::ls;
use image::ImageChip;
use opening::opened;
use std::alloc::Global;
use std::process::Abort;
use std::test::Fail;
use store::Store;

pub(crate) const ODD: &[u8] = b"a\\ \xff";

fn put(store: &mut Store<ImageChip>, object: u32, number: u32, bytes: &[u8]) -> Result<(), Fail> {
    let ticket = store.open(object)?;
    let answer = store.put(&ticket, number, bytes);
    store.close(ticket)?;
    answer?;
    Ok(())
}

// An image of 3 blocks of 4 chunks with two files: 300, of which chunk 1 is missing, and 257 with an odd name and no chunk.
pub(crate) fn filled(heap: Global) -> Result<Vec<u8>, Fail> {
    let mut store = opened(heap, create(heap, 3, 4)?)?;
    store.create(300, b"adder.net")?;
    put(&mut store, 300, 2, b"XOR a b sum\n")?;
    store.create(257, ODD)?;
    Ok(store.release().into_bytes())
}

// The same with a chunk number of 1,024 at chunk 1 of block 0.
pub(crate) fn broken(heap: Global) -> Result<Vec<u8>, Fail> {
    let mut bytes = filled(heap)?;
    let Some(byte) = bytes.get_mut(8 + 2065 + 2) else {
        return Err(Fail::new("no such byte"));
    };
    *byte = 4;
    Ok(bytes)
}

fn is_part(
    rt: &(impl Abort + AllocGlobal),
    from: u64,
    count: Option<u64>,
    part: &[u8],
) -> Result<(), Fail> {
    let heap = rt.alloc();
    let told = cat(heap, filled(heap)?, b"adder.net", from, count)?;
    assert_eq!(rt; told.as_slice(), part);
    Ok(())
}

#[test]
fn parts(rt: HostRuntime) -> Result<(), Fail> {
    let heap = rt.alloc();
    is_part(&rt, 2047, None, b"\0XOR a b sum\n")?;
    is_part(&rt, 2048, Some(3), b"XOR")?;
    is_part(&rt, 2060, None, b"")?;
    is_part(&rt, u64::MAX, Some(u64::MAX), b"")?;
    assert_eq!(rt;
        cat(heap, filled(heap)?, b"adder.net", 0, None)?.len(),
        2060
    );
    assert_eq!(rt; cat(heap, filled(heap)?, ODD, 0, Some(9))?.len(), 0);
    let none = "refused: 20, there is no such file";
    said_of(&rt, cat(heap, filled(heap)?, b"adder", 0, None), none)?;
    let name = "refused: 19, the length of the name is outside 1 to 40";
    said_of(&rt, cat(heap, filled(heap)?, b"", 0, None), name)
}

#[test]
fn lists(rt: HostRuntime) -> Result<(), Fail> {
    let heap = rt.alloc();
    let lines = "257       0    0 a\\x5c \\xff\n300    2060    2 adder.net\n";
    assert_eq!(rt; ls(heap, filled(heap)?)?.as_str(), lines);
    assert_eq!(rt; ls(heap, create(heap, 3, 4)?)?.as_str(), "");
    Ok(())
}

#[test]
fn totals(rt: HostRuntime) -> Result<(), Fail> {
    let heap = rt.alloc();
    let lines = "3 blocks of 4 chunks, on\nmount: accepted\nfiles: 2\nchunks used: 3 of 7\n\
                 blocks: 2 blank, 1 closed\nhighest serial: 3\n";
    assert_eq!(rt; info(heap, filled(heap)?)?.as_str(), lines);
    let refused =
        "3 blocks of 4 chunks, on\nmount: refused: 10, a record breaks the rules, at block 0, chunk 1\n";
    assert_eq!(rt; info(heap, broken(heap)?)?.as_str(), refused);
    Ok(())
}

#[test]
fn formats(rt: HostRuntime) -> Result<(), Fail> {
    let heap = rt.alloc();
    let lines = "3 blocks of 4 chunks, on\nmount: accepted\nfiles: 0\nchunks used: 0 of 7\n\
                 blocks: 3 blank, 0 closed\nhighest serial: 0\n";
    assert_eq!(rt; info(heap, format(heap, broken(heap)?)?)?.as_str(), lines);
    Ok(())
}

// What no store can mount, and what is no image.
#[test]
fn refusals(rt: HostRuntime) -> Result<(), Fail> {
    let heap = rt.alloc();
    let record = "refused: 10, a record breaks the rules, at block 0, chunk 1";
    said_of(&rt, ls(heap, broken(heap)?), record)?;
    said_of(&rt, cat(heap, broken(heap)?, b"adder.net", 0, None), record)?;
    let sizes =
        "refused: 9, the number of blocks is outside 3 to 64, that of chunks in each outside 2 to 64, \
         or that of all chunks over 2,048";
    said_of(&rt, format(heap, create(heap, 2, 4)?), sizes)?;
    said_of(&rt, ls(heap, create(heap, 2, 4)?), sizes)?;
    let mark = "refused: 1, under 8 bytes or not marked TFS";
    said_of(&rt, info(heap, b"TFS".to_vec(heap)?), mark)?;
    said_of(&rt, format(heap, b"TFS".to_vec(heap)?), mark)
}
