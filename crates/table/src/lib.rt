// What follows from tags alone: a store keeps a look at every chunk of its chip, block after block, and this crate reads
// from such a slice which records are wanted, what the files use, and the load of each block. It touches no chip.
#![tactic(auto)]

mod counts;
pub mod laws;
pub mod loads;
pub mod standings;
pub mod uses;
pub mod wanting;

pub use loads::{load, makes_load};
pub use standings::move_on;
pub use uses::used;
pub use wanting::{in_file, wanted};
