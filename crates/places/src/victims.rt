ghost use Rattle.std.specs.Prelude.{◌≡◌, ◌<◌};
ghost use Rattle.rules.specs.Places.{Flash, load, to_clean};
ghost use Rattle.places.specs.Places.{Told, blocks_in, victim_told, with_load};

use rules::Standing;
use scan::Index;
use table::load;

// The block to clean, and its load.
#[derive(Clone, Copy, PartialEq, Eq, Debug)]
pub struct Victim {
    pub block: usize,
    pub load: usize,
}

// A block with its load.
fn with_load(index: &Index, block: usize) -> Victim
    requires { block < index.now.sizes.blocks }
    ensures { result ≡ with_load (load (blocks_in index.now)) block }
{
    Victim {
        block,
        load: load(index.looks(), index.sizes.chunks as usize, block),
    }
}

// The closed block of least load, the lowest number among equals.
pub fn to_clean(index: &Index) -> Option<Victim>
    ensures { (f : Flash) → Told f index.now → victim_told result ≡ to_clean f }
{
    index
        .stands()
        .iter()
        .enumerate()
        .filter(|(_, standing)| **standing == Standing::Closed)
        .map(|(block, _)| with_load(index, block))
        .min_by_key(|victim| victim.load)
}
