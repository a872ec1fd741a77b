// What each command over the files of an image computes, a module for each: the bytes of a file, a line for each file,
// what there is in all, and an image with no files. It touches no file of the system and prints nothing.
#![tactic(auto)]

pub mod cat;
pub mod format;
pub mod info;
pub mod ls;
