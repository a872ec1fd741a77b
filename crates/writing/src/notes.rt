ghost use Rattle.std.specs.Prelude.{◌<◌};
ghost use Rattle.writing.specs.Notes.{ProgramNoted, EraseNoted};

use flash::{Look, Place, Tag};
use rules::Event;
use scan::Index;
use table::move_on;

// Notes a record in the row of its place: its block is opened and, where that was its last chunk, filled.
pub(crate) fn note_program(index: &mut Index, at: Place, tag: Tag)
    ensures { at.block < index.old.sizes.blocks → at.chunk < index.old.sizes.chunks → ProgramNoted index.old at tag index.new }
{
    let sizes = index.sizes;
    if !sizes.has(at) {
        return;
    }
    index.rows[sizes.row(at)] = Look::Record(tag);
    let standing = &mut index.standings[at.block as usize];
    move_on(standing, Event::Opened);
    if at.chunk == sizes.chunks - 1 {
        move_on(standing, Event::Filled);
    }
}

// Notes that every chunk of a block is blank, and so the block.
pub(crate) fn note_erase(index: &mut Index, block: u32)
    ensures { block < index.old.sizes.blocks → EraseNoted index.old block index.new }
{
    let sizes = index.sizes;
    if block >= sizes.blocks {
        return;
    }
    index.rows[sizes.rows_of(block)].fill(Look::Blank);
    move_on(&mut index.standings[block as usize], Event::Erased);
}
