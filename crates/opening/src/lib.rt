// The store over the bytes of an image: attached to them, or mounted on them. It touches only the bytes that it is
// handed.
#![tactic(auto)]

mod stores;

pub use stores::{attached, opened};
