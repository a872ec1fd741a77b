// The reading rule over a slice of looks: which files there are, which chunks they have, and how long they are. It
// touches no chip, and knows nothing of blocks.
#![tactic(auto)]

mod hiders;
pub mod lengths;
pub mod reading;

pub use lengths::{highest_chunk, length, size, size_by};
pub use reading::{chunk, header, hidden, present};
