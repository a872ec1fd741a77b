// The lines of a script: which call each one is, with what it is called with, and what is wrong where it is none. It touches
// no file and no chip, and prints nothing.
#![tactic(auto)]

pub mod bytes;
pub mod forms;
pub mod lines;
pub mod misreads;
pub mod numbers;
mod operands;
pub mod parsing;
mod splits;

pub use bytes::Data;
pub use lines::{Ask, Change, ChipCall, Content, Life, Line, Setup};
pub use misreads::Misread;
pub use parsing::parse;
