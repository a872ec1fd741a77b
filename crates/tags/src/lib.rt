// What a record's tag tells by itself or beside another, and the searches through a slice of looks for records whose
// tags pass a test. It touches no chip, and knows nothing of blocks.
#![tactic(auto)]

pub mod finds;
pub mod kinds;
pub mod queries;
pub mod tags;

pub use finds::{Found, newest};
pub use kinds::{kind_of, object_of};
pub use queries::{any, highest_serial};
pub use tags::{data_of, head_of, hides, newer, same_object};
