// What each command over an image computes, a module for each: the bytes of a new image, and what an image
// holds as text. It touches no file and prints nothing.
#![tactic(auto)]

pub mod create;
pub mod dump;
