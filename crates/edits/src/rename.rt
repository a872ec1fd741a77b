ghost use Rattle.std.specs.Prelude.{MatchResult};
ghost use Rattle.rules.specs.Calls.{rename};
ghost use Rattle.edits.specs.Edits.{IsEdited, NotEdited};
ghost use Rattle.edits.specs.Tables.{rename_table};

use crate::edited::Edited;
use crate::finding::object_of;
use opening::opened;
use std::alloc::Global;
use texts::stops::Stop;

// The image with another name for the file of a name.
pub fn rename(heap: Global, bytes: Vec<u8>, name: &[u8], new: &[u8]) -> Result<Edited, Stop>
    ensures { MatchResult result (λ e. IsEdited bytes.items name.now (rename_table bytes.items name.now new.now) (λ o. rename o new.now) e) (λ why. NotEdited bytes.items (rename_table bytes.items name.now new.now) why) }
{
    let mut store = opened(heap, bytes)?;
    let object = object_of(&store, name)?;
    let counts = store.rename(object, new)?;
    Ok(Edited::of(store, counts))
}
