// What each command makes of an image whose files it changes, a module for each: the bytes of the image after it, or why
// there are none. It touches no file of the system and prints nothing.
#![tactic(auto)]

pub mod collect;
mod creating;
pub mod cut;
pub mod edited;
mod finding;
pub mod progress;
pub mod put;
mod refilling;
pub mod remove;
pub mod rename;
#[cfg(test)]
mod tests;

pub use collect::Collected;
pub use edited::Edited;
pub use progress::{Progress, Silent};
