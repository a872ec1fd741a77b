ghost use Rattle.std.specs.Prelude.{◌≡◌, ◌<◌, true, IfOk};
ghost use Rattle.flash.specs.Reads.{Within};
ghost use Rattle.image.specs.Codes.{four_bytes, code_of};
ghost use Rattle.replays.specs.Saves.{Grows, tag_bytes, zeros, unrecorded, chunk_image, block_image, blocks_image, Imaged};

use flash::{CHUNK_BYTES, Chip, Look, Place, Sizes, Tag};
use std::alloc::{AllocError, Global};

// How many bytes follow the state of a chunk: the four numbers and the data.
const FOLLOWING: usize = 16 + CHUNK_BYTES;

fn number(out: &mut Vec<u8>, number: u32) -> Result<(), AllocError>
    ensures { Grows out.old (four_bytes number) result out.new }
{
    out.extend_from_slice(&number.to_le_bytes())
}

fn tag(out: &mut Vec<u8>, tag: Tag) -> Result<(), AllocError>
    ensures { Grows out.old (tag_bytes tag) result out.new }
{
    number(out, tag.first)?;
    number(out, tag.second)?;
    number(out, tag.third)?;
    number(out, tag.serial)
}

fn record(out: &mut Vec<u8>, numbers: Tag, bytes: &[u8; CHUNK_BYTES]) -> Result<(), AllocError>
    ensures { Grows out.old (code_of (record { tag = numbers; bytes = bytes.now })) result out.new }
{
    out.push(1)?;
    tag(out, numbers)?;
    out.extend_from_slice(bytes)
}

#[tactic(auto, unfolding(crate::specs::Saves::zeros))]
fn zeros() -> [u8; FOLLOWING]
    ensures { result ≡ zeros }
{
    [0; FOLLOWING]
}

// A chunk in this state, with no record.
fn no_record(out: &mut Vec<u8>, state: u8) -> Result<(), AllocError>
    ensures { Grows out.old (unrecorded state) result out.new }
{
    out.push(state)?;
    out.extend_from_slice(&zeros())
}

fn chunk<C: Chip>(out: &mut Vec<u8>, chip: &C, at: Place) -> Result<(), AllocError>
    requires { ((C.Chip.model chip.now).on ≡ true) × (Within (C.Chip.model chip.now) at) }
    ensures { Grows out.old (chunk_image ((C.Chip.model chip.now).cells at.block at.chunk)) result out.new }
{
    match chip.look(at) {
        Ok(Look::Blank) => no_record(out, 0xFF),
        Ok(Look::Record(tag)) => {
            let mut bytes = [0; CHUNK_BYTES];
            match chip.fetch(at, &mut bytes) {
                Ok(()) => record(out, tag, &bytes),
                Err(_) => no_record(out, 0),
            }
        }
        Ok(Look::Damaged) | Err(_) => no_record(out, 0),
    }
}

fn block<C: Chip>(out: &mut Vec<u8>, chip: &C, block: u32, chunks: u32) -> Result<(), AllocError>
    requires { ((C.Chip.model chip.now).on ≡ true) × (block < (C.Chip.model chip.now).n) × (chunks ≡ (C.Chip.model chip.now).p) }
    ensures { Grows out.old (block_image (C.Chip.model chip.now) block chunks) result out.new }
{
    for place in 0..chunks {
        chunk(
            out,
            chip,
            Place {
                block,
                chunk: place,
            },
        )?;
    }
    Ok(())
}

fn blocks<C: Chip>(out: &mut Vec<u8>, chip: &C) -> Result<(), AllocError>
    requires { (C.Chip.model chip.now).on ≡ true }
    ensures { Grows out.old (blocks_image (C.Chip.model chip.now) (C.Chip.model chip.now).n) result out.new }
{
    let sizes = chip.sizes();
    for number in 0..sizes.blocks {
        block(out, chip, number, sizes.chunks)?;
    }
    Ok(())
}

// The image of a chip that is on, with this power; none where its sizes do not fit a byte each.
pub(crate) fn image_of<C: Chip>(
    heap: Global,
    chip: &C,
    on: bool,
) -> Result<Option<Vec<u8>>, AllocError>
    requires { (C.Chip.model chip.now).on ≡ true }
    ensures { IfOk result (Imaged (C.Chip.model chip.now) on) }
{
    let Sizes {
        blocks: n,
        chunks: p,
    } = chip.sizes();
    if n > 255 || p > 255 {
        return Ok(None);
    }
    let mut out = Vec::new(heap);
    let power = u8::from(on);
    out.extend_from_slice(&[b'T', b'F', b'S', 1, 0, n as u8, p as u8, power])?;
    blocks(&mut out, chip)?;
    Ok(Some(out))
}
