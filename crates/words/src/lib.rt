// The words that the program is called with: which command they are, what is wrong where they are none, and
// the help. It touches no file and prints nothing.
#![tactic(auto)]

pub mod naming;
mod numbers;
pub mod parsing;
pub mod streams;
pub mod usage;
