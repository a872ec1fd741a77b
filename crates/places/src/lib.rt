// Where the next record goes, as far as an index tells: the open block's first blank chunk, the lowest blank block, or
// the block to clean first. It touches no chip.
//
// That an index tells of some contents (`Told`) stands in each contract: a type that said so would ask more of callers.
#![tactic(auto)]

pub mod blocks;
pub mod finding;
pub mod victims;

pub use blocks::count_standing;
pub use finding::{add_place, copy_place};
pub use victims::{Victim, to_clean};
