ghost use Rattle.writing.specs.Writing.{ProgramPlayed, ErasePlayed};

use crate::notes::{note_erase, note_program};
use flash::{Chip, Fault, Place, Purpose, Record};
use scan::Index;

// Chip and index stay two parameters, also in `cleaning`: a struct of both would hold two `&mut`, and could promise nothing
// of them, since after a failure the index no longer tells of the chip.

// Programs a record, and notes it in the index.
pub fn program<C: Chip>(
    chip: &mut C,
    index: &mut Index,
    purpose: Purpose,
    at: Place,
    record: &Record,
) -> Result<(), Fault>
    ensures { ProgramPlayed (C.Chip.model chip.old) index.old purpose at «record».now result (C.Chip.model chip.new) index.new }
{
    chip.program(purpose, at, record)?;
    note_program(index, at, record.tag);
    Ok(())
}

// Erases a block, and notes it in the index.
pub fn erase<C: Chip>(chip: &mut C, index: &mut Index, block: u32) -> Result<(), Fault>
    ensures { ErasePlayed (C.Chip.model chip.old) index.old block result (C.Chip.model chip.new) index.new }
{
    chip.erase(block)?;
    note_erase(index, block);
    Ok(())
}
