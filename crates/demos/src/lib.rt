// The demonstration: calls on a store whose chip is in memory and whose supply fails, and what is told of each. It touches
// no file and prints nothing.
#![tactic(auto)]

pub mod demo;
mod filing;
mod scenes;
mod story;
mod telling;
