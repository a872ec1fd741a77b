// What is on a chip, found out by a scan: the index of its chunks, blocks and names, and mount's verdict on it. It touches
// its chip by the calls of `flash::Chip` alone, and takes memory in `Index::new` alone.
#![tactic(auto)]

mod checks;
mod clashes;
mod entries;
pub mod formats;
pub mod indexes;
mod mounting;
mod mounts;
pub mod refusals;
pub mod scans;
mod standing;
mod starts;
mod tables;
pub mod words;

pub use formats::format;
pub use indexes::Index;
pub use refusals::Refusal;
