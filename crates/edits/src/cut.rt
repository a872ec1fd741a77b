ghost use Rattle.std.specs.Prelude.{MatchResult};
ghost use Rattle.rules.specs.Calls.{cut};
ghost use Rattle.store.specs.Stored.{stored};
ghost use Rattle.edits.specs.Edits.{IsEdited, NotEdited};
ghost use Rattle.edits.specs.Lending.{Lent};
ghost use Rattle.edits.specs.Tables.{cut_table};

use crate::edited::Edited;
use crate::finding::object_of;
use cleaning::Counts;
use image::ImageChip;
use opening::opened;
use scan::Refusal;
use std::alloc::Global;
use store::Store;
use texts::stops::Stop;

// Opens a file, cuts it, and closes it whatever came of that.
fn cut_file(store: &mut Store<ImageChip>, object: u32, length: u32) -> Result<Counts, Refusal>
    ensures { Lent (stored store.old) object (cut object length) result (stored store.new) }
{
    let ticket = store.open(object)?;
    let outcome = store.cut(&ticket, length);
    store.close(ticket)?;
    outcome
}

// The image with the file of a name no longer than this; its chunks above are gone.
pub fn cut(heap: Global, bytes: Vec<u8>, name: &[u8], length: u32) -> Result<Edited, Stop>
    ensures { MatchResult result (λ e. IsEdited bytes.items name.now (cut_table bytes.items name.now length) (λ o. cut o length) e) (λ why. NotEdited bytes.items (cut_table bytes.items name.now length) why) }
{
    let mut store = opened(heap, bytes)?;
    let object = object_of(&store, name)?;
    let counts = cut_file(&mut store, object, length)?;
    Ok(Edited::of(store, counts))
}
