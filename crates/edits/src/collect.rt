ghost use Rattle.std.specs.Prelude.{MatchResult};
ghost use Rattle.edits.specs.Collects.{IsCollected};
ghost use Rattle.edits.specs.Edits.{NotEdited};
ghost use Rattle.edits.specs.Tables.{collect_table};

use opening::opened;
use std::alloc::Global;
use texts::stops::Stop;

// An image after a collect, the block that was cleaned and the number of copies.
#[derive(Drop)]
pub struct Collected {
    pub bytes: Vec<u8>,
    pub block: usize,
    pub copies: usize,
}

// The image after one cleaning.
pub fn collect(heap: Global, bytes: Vec<u8>) -> Result<Collected, Stop>
    ensures { MatchResult result (λ c. IsCollected bytes.items c) (λ why. NotEdited bytes.items (collect_table bytes.items) why) }
{
    let mut store = opened(heap, bytes)?;
    let (block, copies) = store.collect()?;
    Ok(Collected {
        bytes: store.release().into_bytes(),
        block,
        copies,
    })
}
