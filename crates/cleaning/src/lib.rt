// Cleaning a block, and adding a record for which one cleans while there is no place. It touches its chip by `fetch`, and
// by the program and the erase of `writing`, which note in the index what they do; and it takes no memory.
#![tactic(auto)]

pub mod adds;
pub mod cleanings;
mod copies;
mod loads;

pub use adds::{Counts, add};
pub use cleanings::clean;
