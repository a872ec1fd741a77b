// What a flash chip is: chunks and the records in them, and the calls that every chip has with a contract
// each. This crate touches nothing else.
#![tactic(auto)]

pub mod chips;
pub mod chunks;
pub mod faults;
pub mod laws;
pub mod words;

pub use chips::Chip;
pub use chunks::{CHUNK_BYTES, Chunk, Look, Place, Record, Sizes, Tag};
pub use faults::{Act, Fault, Misfit, Purpose, Unmade};
