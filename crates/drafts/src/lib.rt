// The record that each change of the store adds: its four numbers, and its data bytes with every unused one 0. It
// touches nothing: each record follows from the arguments alone.
#![tactic(auto)]

mod drafts;
mod filling;

pub use drafts::{create, cut, delete, put, rename};
