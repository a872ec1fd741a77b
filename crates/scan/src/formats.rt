ghost use Rattle.scan.specs.Formats.{BlankTold, Formatted};

use crate::refusals::Refusal;
use crate::starts::start;
use flash::{Chip, Fault, Look, Place};

// Whether every chunk of a block is blank. A loop over numbers, as the chip is called with each and there is no collection.
fn is_blank<C: Chip>(chip: &C, block: u32) -> Result<bool, Fault>
    ensures { BlankTold (C.Chip.model chip.now) block result }
{
    for chunk in 0..chip.sizes().chunks {
        if chip.look(Place::new(block, chunk))? != Look::Blank {
            return Ok(false);
        }
    }
    Ok(true)
}

// Restarts the chip, checks its sizes, and erases each block that is not blank, in rising order. Over numbers for the same
// reason.
pub fn format<C: Chip>(chip: &mut C) -> Result<(), Refusal>
    ensures { Formatted (C.Chip.model chip.old) result (C.Chip.model chip.new) }
{
    let sizes = start(chip)?;
    for block in 0..sizes.blocks {
        if !is_blank(chip, block)? {
            chip.erase(block)?;
        }
    }
    Ok(())
}
