// A program and an erase that are noted at once: the index that told of the chip tells of it afterwards too, unless the
// supply failed. It touches its chip by `program` and `erase` alone, and takes no memory.
#![tactic(auto)]

mod notes;
pub mod writes;

pub use writes::{erase, program};
