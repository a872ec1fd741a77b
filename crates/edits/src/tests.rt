use crate::collect::collect;
use crate::cut::cut;
use crate::edited::Edited;
use crate::progress::{Progress, Silent};
use crate::put::put;
use crate::remove::remove;
use crate::rename::rename;
use cleaning::Counts;
use files::cat::cat;
use image::blank;
use scan::Refusal;
use std::alloc::{AllocError, Global};
use std::process::Abort;
use std::test::Fail;
use texts::stops::Stop;

// So many bytes, no two neighbours alike.
fn content_of(heap: Global, length: usize) -> Result<Vec<u8>, AllocError> {
    let mut content = Vec::new(heap);
    for at in 0..length {
        content.push((at % 251) as u8)?;
    }
    Ok(content)
}

// On a blank chip of 8 blocks of 8 chunks: a file "a" of so many bytes.
fn with_file(heap: Global, length: usize) -> Result<Edited, Fail> {
    let content = content_of(heap, length)?;
    Ok(put(heap, blank(heap, 8, 8)?, b"a", &content, &mut Silent)?)
}

// The file "a" is the first so many bytes of that.
fn has_file(rt: &impl Abort, heap: Global, bytes: Vec<u8>, length: usize) -> Result<(), Fail> {
    let content = content_of(heap, length)?;
    let read = cat(heap, bytes, b"a", 0, None)?;
    assert!(rt; read.as_slice() == content.as_slice());
    Ok(())
}

fn counts(programs: usize, erases: usize) -> Counts {
    Counts { programs, erases }
}

// A create, and a put for each chunk.
#[test]
fn puts(rt: HostRuntime) -> Result<(), Fail> {
    for (length, programs) in [(0, 1), (1, 2), (2048, 2), (2049, 3), (5000, 4)] {
        let Edited {
            bytes,
            counts: cost,
        } = with_file(rt.alloc(), length)?;
        assert_eq!(rt; cost, counts(programs, 0));
        has_file(&rt, rt.alloc(), bytes, length)?;
    }
    Ok(())
}

// A longer file is cut, another is not.
#[test]
fn puts_over(rt: HostRuntime) -> Result<(), Fail> {
    for (length, programs) in [(0, 1), (2048, 2), (5000, 3), (6145, 4)] {
        let Edited { bytes, counts: _ } = with_file(rt.alloc(), 5000)?;
        let content = content_of(rt.alloc(), length)?;
        let Edited {
            bytes,
            counts: cost,
        } = put(rt.alloc(), bytes, b"a", &content, &mut Silent)?;
        assert_eq!(rt; cost, counts(programs, 0));
        has_file(&rt, rt.alloc(), bytes, length)?;
    }
    Ok(())
}

// What was told last, and how often something was.
#[derive(Clone, Copy, PartialEq, Eq, Debug)]
struct Heard {
    done: usize,
    of: usize,
    times: usize,
}

impl Progress for Heard {
    fn chunk(&mut self, done: usize, of: usize) {
        self.done = done;
        self.of = of;
        self.times = self.times.wrapping_add(1);
    }
}

#[test]
fn progress(rt: HostRuntime) -> Result<(), Fail> {
    let mut heard = Heard {
        done: 0,
        of: 0,
        times: 0,
    };
    let content = content_of(rt.alloc(), 5000)?;
    put(
        rt.alloc(),
        blank(rt.alloc(), 8, 8)?,
        b"a",
        &content,
        &mut heard,
    )?;
    assert_eq!(rt;
        heard,
        Heard {
            done: 3,
            of: 3,
            times: 3
        }
    );
    Ok(())
}

#[test]
fn renames(rt: HostRuntime) -> Result<(), Fail> {
    let edited = with_file(rt.alloc(), 5000)?;
    let edited = rename(rt.alloc(), edited.bytes, b"a", b"a")?;
    assert_eq!(rt; edited.counts, counts(1, 0));
    let edited = rename(rt.alloc(), edited.bytes, b"a", b"bc")?;
    let edited = rename(rt.alloc(), edited.bytes, b"bc", b"a")?;
    has_file(&rt, rt.alloc(), edited.bytes, 5000)
}

#[test]
fn cuts(rt: HostRuntime) -> Result<(), Fail> {
    let edited = with_file(rt.alloc(), 5000)?;
    let edited = cut(rt.alloc(), edited.bytes, b"a", 1)?;
    assert_eq!(rt; edited.counts, counts(1, 0));
    has_file(&rt, rt.alloc(), edited.bytes, 2048)?;
    let edited = with_file(rt.alloc(), 5000)?;
    let refused = cut(rt.alloc(), edited.bytes, b"a", 3).err();
    assert!(rt; refused == Some(Stop::Store(Refusal::NotShorter)));
    Ok(())
}

#[test]
fn removes(rt: HostRuntime) -> Result<(), Fail> {
    let edited = with_file(rt.alloc(), 5000)?;
    let edited = remove(rt.alloc(), edited.bytes, b"a")?;
    assert_eq!(rt; edited.counts, counts(1, 0));
    let refused = remove(rt.alloc(), edited.bytes, b"a").err();
    assert!(rt; refused == Some(Stop::Store(Refusal::NotPresent)));
    Ok(())
}

// Block 0 holds the header and three chunks; the copies of a second collect are the same four.
#[test]
fn collects(rt: HostRuntime) -> Result<(), Fail> {
    let edited = with_file(rt.alloc(), 5000)?;
    let first = collect(rt.alloc(), edited.bytes)?;
    assert_eq!(rt; (first.block, first.copies), (0, 4));
    let second = collect(rt.alloc(), first.bytes)?;
    assert_eq!(rt; (second.block, second.copies), (1, 4));
    has_file(&rt, rt.alloc(), second.bytes, 5000)?;
    let refused = collect(rt.alloc(), blank(rt.alloc(), 8, 8)?).err();
    assert!(rt; refused == Some(Stop::Store(Refusal::NothingToClean)));
    Ok(())
}

// Why a put of so many bytes to a blank chip of so many blocks of so many chunks is refused.
fn refused(
    heap: Global,
    sizes: (u8, u8),
    name: &[u8],
    length: usize,
) -> Result<Option<Stop>, AllocError> {
    let content = content_of(heap, length)?;
    Ok(put(
        heap,
        blank(heap, sizes.0, sizes.1)?,
        name,
        &content,
        &mut Silent,
    )
    .err())
}

// On three blocks of four the files may use 7 chunks.
#[test]
fn refuses(rt: HostRuntime) -> Result<(), Fail> {
    let heap = rt.alloc();
    assert!(rt; refused(heap, (3, 4), b"a", 12288)?.is_none());
    assert!(rt; refused(heap, (3, 4), b"a", 12289)? == Some(Stop::Store(Refusal::NoRoom)));
    assert!(rt; refused(heap, (3, 4), b"", 1)? == Some(Stop::Store(Refusal::BadName)));
    assert!(rt; refused(heap, (2, 4), b"a", 1)? == Some(Stop::Store(Refusal::BadSizes)));
    Ok(())
}
