// A list of calls, made on any store over any chip, and the law that holds of it. It touches a store by its public calls alone.
#![tactic(auto)]

pub mod makes;
pub mod runs;

pub use makes::make;
pub use runs::run;
pub use store::{Answer, Call};
