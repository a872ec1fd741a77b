// Scripts that are played, line by line: a chip is made, a store runs on it, and each call's answer is told. It touches no
// file by itself, and prints nothing.
#![tactic(auto)]

pub mod answers;
pub mod benches;
mod calls;
pub mod devices;
pub mod files;
pub mod machines;
pub mod plays;
mod rows;
mod saves;

pub use files::Files;
pub use machines::Machine;
pub use plays::replay;
