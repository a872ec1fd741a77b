// The store once more, as plainly as docs/RULES.md reads: an independent reading of the rules that the proved
// store is compared with. It has a chip of its own, keeps no table, works every answer out afresh from the
// chunks, and is slow on purpose. It takes the plain types of `flash` and `bench` and touches nothing else.
#![tactic(auto)]

pub mod blocks;
pub mod chips;
pub mod images;
pub mod mounting;
pub mod reading;
pub mod records;
pub mod refusals;
pub mod stores;

pub use chips::PlainChip;
pub use records::{Found, Kind, Name};
pub use refusals::Refusal;
pub use stores::{Cost, PlainStore, Row};
