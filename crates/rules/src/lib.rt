// The rules: what a reader must believe of the store, as definitions in specs/, the laws that follow from
// them, each on the contract of a function, and in code the numbers that the rules set. This crate touches no
// chip; it shares the declared structs and enums with the code that computes the same.
#![tactic(auto)]

pub mod kinds;
pub mod laws;
pub mod limits;
pub mod rows;
pub mod standings;

pub use kinds::Kind;
pub use limits::{
    CHUNK_BYTES, CUT_HEADER, FIRST_OBJECT, HEADER, LAST_NUMBER, LAST_OBJECT, LONGEST_NAME, MARKER,
    MOST_BLOCKS, MOST_CHUNKS, OBJECT_BASE, OBJECTS, fits, is_name, is_object, limit,
};
pub use rows::Row;
pub use standings::{Event, Standing};
