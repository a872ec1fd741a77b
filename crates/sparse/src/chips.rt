ghost use Rattle.std.specs.Prelude.{◌≡◌, ℕ, ◌<◌, vec_len};
ghost use Rattle.std.specs.Option.{ForSome};
ghost use Rattle.std.specs.Ordering.{nat_cmp};
ghost use Rattle.std.specs.BTreeMap.{get};

use flash::{Chunk, Sizes};
use std::alloc::Global;
use std::collections::BTreeMap;

// The chunks of each block that is not blank, by the block's number.
#[derive(Drop)]
pub struct SparseChip {
    pub(crate) heap: Global,
    pub(crate) blocks: BTreeMap<u32, Vec<Chunk>>,
    pub(crate) sizes: Sizes,
    pub(crate) on: bool,
    ghost has_chunks: { 0 < sizes.chunks },
    // a kept block has all its chunks
    ghost whole: { (b : ℕ) → ForSome (get nat_cmp blocks b) (λ v. vec_len v ≡ sizes.chunks) },
}

// Why there is no chip of these sizes: it would have no chunk.
#[derive(Clone, Copy, PartialEq, Eq, Debug)]
pub struct NoChunks;
