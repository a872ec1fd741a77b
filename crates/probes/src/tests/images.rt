use crate::tests::chips::{BLANK, attached, header, lists, row};
use crate::tests::codes::{chip_in, image_of};
use image::ImageChip;
use scan::Refusal;
use std::process::Abort;
use std::test::Fail;

// A chip of bytes that are no image: the number of the refusal is this, and a store over the chip cannot be mounted. The
// bytes come back unchanged.
fn refused(rt: &(impl Abort + AllocGlobal), bytes: Vec<u8>, number: u32) -> Result<Vec<u8>, Fail> {
    let length = bytes.len();
    let Err(unmade) = ImageChip::new(bytes) else {
        return Err(Fail::new("an image"));
    };
    assert_eq!(rt; unmade.why.number(), number, "{}", length);
    let mut store = attached(rt.alloc(), unmade.chip)?;
    assert_eq!(rt; store.mount(), Err(Refusal::BadSizes));
    assert_eq!(rt; store.format(), Err(Refusal::BadSizes));
    let bytes = store.release().into_bytes();
    assert_eq!(rt; bytes.len(), length);
    Ok(bytes)
}

// Every image that is cut short is refused: by 1 under eight bytes, else by 3.
#[test]
fn cut_short(rt: HostRuntime) -> Result<(), Fail> {
    let mut rows = [BLANK; 6];
    rows[0] = header(257, 0, 1, b"a");
    let mut bytes = image_of(rt.alloc(), 3, 2, &rows)?;
    for length in (0..12398usize).rev() {
        let _ = bytes.pop();
        assert_eq!(rt; bytes.len(), length);
        bytes = refused(&rt, bytes, if length < 8 { 1 } else { 3 })?;
    }
    Ok(())
}

// An image with no blocks, or with blocks of no chunks, is an image; mount answers 9.
#[test]
fn no_chunks(rt: HostRuntime) -> Result<(), Fail> {
    for (blocks, chunks) in [(0, 0), (0, 4), (3, 0), (255, 0)] {
        let mut store = attached(
            rt.alloc(),
            chip_in(image_of(rt.alloc(), blocks, chunks, &[])?)?,
        )?;
        assert_eq!(rt; store.mount(), Err(Refusal::BadSizes));
        assert_eq!(rt; store.format(), Err(Refusal::BadSizes));
    }
    Ok(())
}

// The same header found in the image, and after format no more.
#[test]
fn whole(rt: HostRuntime) -> Result<(), Fail> {
    let mut rows = [BLANK; 6];
    rows[5] = header(300, 3, 1, b"a");
    let mut store = attached(rt.alloc(), chip_in(image_of(rt.alloc(), 3, 2, &rows)?)?)?;
    assert_eq!(rt; store.mount(), Ok(()));
    lists(&rt, &store, &[row(300, 3, 6144)])?;
    assert_eq!(rt; store.format(), Ok(()));
    assert_eq!(rt; store.mount(), Ok(()));
    lists(&rt, &store, &[])
}
