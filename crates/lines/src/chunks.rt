ghost use Rattle.std.specs.Prelude.{◌≡◌, true};
ghost use Rattle.flash.specs.Reads.{Within};
ghost use Rattle.texts.specs.Texts.{Adds};
ghost use Rattle.lines.specs.Chunks.{held_text, looked_text, chunk_line, block_lines, chip_lines};

use crate::bytes::data;
use flash::{CHUNK_BYTES, Chip, Look, Place};
use std::alloc::AllocError;

// The text and the chip stay two parameters: methods of a struct of both would hold a `&mut` behind a `&mut`, and say no
// more.

// The loops below go over the numbers by which the chip is called: no collection is gone through by index.

// What a chunk holds, if it holds a record.
fn held<C: Chip>(out: &mut String, chip: &C, at: Place) -> Result<(), AllocError>
    requires { ((C.Chip.model chip.now).on ≡ true) × (Within (C.Chip.model chip.now) at) }
    ensures { Adds out.old (held_text ((C.Chip.model chip.now).cells at.block at.chunk)) result out.new }
{
    let mut bytes = [0; CHUNK_BYTES];
    if chip.fetch(at, &mut bytes).is_ok() {
        data(out, &bytes)?;
    }
    Ok(())
}

// What a look at a place tells.
fn looked<C: Chip>(out: &mut String, chip: &C, at: Place) -> Result<(), AllocError>
    ensures { Adds out.old (looked_text (C.Chip.model chip.now) at) result out.new }
{
    match chip.look(at) {
        Ok(look) => {
            write!(out, "{look}")?;
            held(out, chip, at)
        }
        Err(fault) => write!(out, "fault {fault}"),
    }
}

// The line of a place.
fn chunk_line<C: Chip>(out: &mut String, chip: &C, at: Place) -> Result<(), AllocError>
    ensures { Adds out.old (chunk_line (C.Chip.model chip.now) at) result out.new }
{
    write!(out, "{at}: ")?;
    looked(out, chip, at)?;
    writeln!(out)
}

// The lines of a block's chunks.
fn block_lines<C: Chip>(
    out: &mut String,
    chip: &C,
    block: u32,
    chunks: u32,
) -> Result<(), AllocError>
    ensures { Adds out.old (block_lines (C.Chip.model chip.now) block chunks) result out.new }
{
    for chunk in 0..chunks {
        chunk_line(out, chip, Place { block, chunk })?;
    }
    Ok(())
}

// The lines of all chunks, by rising place.
pub fn chip_lines<C: Chip>(out: &mut String, chip: &C) -> Result<(), AllocError>
    ensures { Adds out.old (chip_lines (C.Chip.model chip.now) (C.Chip.model chip.now).n) result out.new }
{
    let sizes = chip.sizes();
    for block in 0..sizes.blocks {
        block_lines(out, chip, block, sizes.chunks)?;
    }
    Ok(())
}
