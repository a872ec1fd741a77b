ghost use Rattle.std.specs.Prelude.{◌≡◌, ◌-◌, ◌*◌, ◌/◌, ◌%◌, ◌<◌, ◌≤◌, min, true, length, IfOk, Some};
ghost use Rattle.flash.specs.Blocks.{standing};
ghost use Rattle.flash.specs.Model.{blocks_of};
ghost use Rattle.flash.specs.Reads.{Sized};
ghost use Rattle.rules.specs.Reading.{File, files};
ghost use Rattle.scan.specs.Indexes.{looks_in};
ghost use Rattle.questions.specs.Reads.{HasRow, Stands, counted_at, ChunkRead, Readable, HasSize, ReadFrom};

use flash::{Chip, Fault, Place};
use reading::chunk;
use rules::CHUNK_BYTES;
use scan::Index;
use tags::Found;

// What an absent byte reads as.
const ABSENT: u8 = 0;

// The place of a record that was found.
fn place_of(index: &Index, found: Found) -> Place
    requires { found.place < index.now.sizes.blocks * index.now.sizes.chunks }
    ensures block { result.block ≡ found.place / index.now.sizes.chunks }
    ensures chunk { result.chunk ≡ found.place % index.now.sizes.chunks }
{
    index.place(found.place).unwrap()
}

// Copies a chunk's bytes from an offset on into a part of the buffer, as many as the part holds or a chunk has, and
// answers their number. The bytes of a missing chunk, and those past a chunk's byte count, are absent. A struct of chip and
// index is no plainer: two functions take both, and `read` is given them apart.
fn copy_chunk<C: Chip>(
    chip: &C,
    index: &Index,
    found: Option<Found>,
    offset: usize,
    part: &mut [u8],
) -> Result<usize, Fault>
    requires row { HasRow index.now.sizes found }
    requires offset { offset ≤ 2048 }
    ensures count { IfOk result (λ n. n ≡ min (length part.old) (2048 - offset)) }
    ensures bytes { (C.Chip.model chip.now).on ≡ true → Sized (C.Chip.model chip.now) index.now.sizes → Stands (C.Chip.model chip.now) found → ChunkRead (counted_at (C.Chip.model chip.now) found) offset part.old result part.new }
{
    let mut bytes = [ABSENT; CHUNK_BYTES];
    if let Some(found) = found {
        chip.fetch(place_of(index, found), &mut bytes)?;
        let counted = CHUNK_BYTES.min(found.tag.third as usize);
        bytes[counted..].fill(ABSENT);
    }
    let count = part.len().min(CHUNK_BYTES - offset);
    part[..count].copy_from_slice(&bytes[offset..offset + count]);
    Ok(count)
}

// Reads the bytes of a file of this size from a position on, as many as the buffer holds or the size allows, and answers
// their number. Each chunk's bytes go into their own part of the buffer; the bytes beyond stay. Object, position and
// buffer are the arguments of `read`, handed on.
pub(crate) fn read_from<C: Chip>(
    chip: &C,
    index: &Index,
    object: u32,
    size: u32,
    position: u64,
    buffer: &mut [u8],
) -> Result<usize, Fault>
    ensures { (f : File) → Readable (C.Chip.model chip.now) index.now.sizes (looks_in index.now) → HasSize (C.Chip.model chip.now) object size → files (standing (blocks_of (C.Chip.model chip.now))) object ≡ Some f → ReadFrom f position buffer.old result buffer.new }
{
    let rows = index.looks();
    let count = buffer
        .len()
        .min(u64::from(size).saturating_sub(position) as usize);
    // Parts differ in length, as a chunk or the buffer ends, so `at` is kept by hand. Tried: `chunks_mut`, but a proof knows
    // nothing of what it lent; and a `for` over chunk numbers is no plainer, as it clamps both ends of each part.
    let mut at = 0;
    while at < count {
        let here = position as usize + at;
        let found = chunk(rows, object, (here / CHUNK_BYTES + 1) as u32);
        let offset = here % CHUNK_BYTES;
        at += copy_chunk(chip, index, found, offset, &mut buffer[at..count])?;
    }
    Ok(count)
}
