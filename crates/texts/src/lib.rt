// What every command's text rests on: a text that grows, and why a command gives nothing. It touches
// no file and no chip, and prints nothing.
#![tactic(auto)]

pub mod stops;
