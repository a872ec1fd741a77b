// What each change, and an open, is refused for: of the refusals 16 to 27 the one of the smallest number that fits. It reads
// an index alone: it touches no chip, changes nothing, and takes no memory.
//
// That the store runs and its index knows the chip (`Runs`) stands in each contract: a type that said so would ask more of
// callers.
#![tactic(auto)]

mod changes;
mod cleaning;
mod files;
mod rows;
mod telling;

pub use changes::{create, cut, put, rename};
pub use cleaning::collect;
pub use files::{delete, open};
