// What an index answers of the chip that it knows: which files there are, their names, lengths and sizes, and, by fetches
// from the chip, their bytes. It changes neither the index nor the chip, and takes no memory.
//
// That an index knows a chip (`Knows`) stands in each contract: a type that said so would ask more of callers.
#![tactic(auto)]

mod asks;
pub mod counts;
mod lists;
mod reads;

pub use asks::{find, list, name, read, size};
pub use counts::{Totals, count_all};
