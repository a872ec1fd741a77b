ghost use Rattle.std.specs.Prelude.{MatchResult};
ghost use Rattle.rules.specs.Calls.{delete};
ghost use Rattle.edits.specs.Edits.{IsEdited, NotEdited};
ghost use Rattle.edits.specs.Tables.{remove_table};

use crate::edited::Edited;
use crate::finding::object_of;
use opening::opened;
use std::alloc::Global;
use texts::stops::Stop;

// The image without the file of a name.
pub fn remove(heap: Global, bytes: Vec<u8>, name: &[u8]) -> Result<Edited, Stop>
    ensures { MatchResult result (λ e. IsEdited bytes.items name.now (remove_table bytes.items name.now) (λ o. delete o) e) (λ why. NotEdited bytes.items (remove_table bytes.items name.now) why) }
{
    let mut store = opened(heap, bytes)?;
    let object = object_of(&store, name)?;
    let counts = store.delete(object)?;
    Ok(Edited::of(store, counts))
}
