use flash::{Act, Place};
use std::alloc::AllocError;

// Why a call is refused.
#[derive(Clone, Copy, PartialEq, Eq, Debug)]
pub enum Refusal {
    // a refusal that carries nothing
    Number(u32),
    // refusal 7, with its act
    Failed(Act),
    // refusal 10 or 11, with its place
    At(u32, Place),
    // there was no memory for a list
    Memory,
    // the rules name no next step
    Stuck,
}

impl From<AllocError> for Refusal {
    fn from(_: AllocError) -> Refusal {
        Refusal::Memory
    }
}
