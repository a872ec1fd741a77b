// The names of the present files, in memory: find, the check for a taken name and mount's check for two files of one
// name need no fetch. This crate touches only its own table; `Names::new` alone allocates.
#![tactic(auto)]

mod asking;
mod changing;
pub mod entries;
mod name;

pub use entries::Names;

#[cfg(test)]
mod tests;
