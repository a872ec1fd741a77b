// The image chip: a flash chip that lies in the bytes of an image file and never fails. This crate
// touches only the bytes that it is handed.
#![tactic(auto)]

pub mod blanks;
pub mod calls;
mod codes;
mod heads;
pub mod images;
mod making;
#[cfg(test)]
mod tests;

pub use blanks::blank;
pub use images::ImageChip;
