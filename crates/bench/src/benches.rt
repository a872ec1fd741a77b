ghost use Rattle.std.specs.Prelude.{◌*◌, ◌≤◌, vec_len};

use crate::plans::Plan;
use flash::{Chunk, Sizes};

// A chip whose chunks stand in rows, block after block.
#[derive(Drop)]
pub struct BenchChip {
    pub(crate) rows: Vec<Chunk>,
    pub(crate) sizes: Sizes,
    pub(crate) on: bool,
    pub(crate) plan: Plan,
    // how many acts are to come up to the one that fails, itself counted; 0 means none: no Option, as of a plan's `fails`
    pub(crate) left: u64,
    // every place has a row
    ghost room: { sizes.blocks * sizes.chunks ≤ vec_len rows },
}
