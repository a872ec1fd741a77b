// The sparse chip: a flash chip in memory that keeps only the blocks that are not blank, and the worked example of
// docs/OWN_CHIP.md. It takes memory for a block at its first record, gives it back at its erase, and touches nothing else.
#![tactic(auto)]

mod calls;
mod chips;

pub use chips::{NoChunks, SparseChip};
