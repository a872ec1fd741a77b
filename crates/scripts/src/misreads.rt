ghost use Rattle.std.specs.Prelude.{◌≡◌, Some};
ghost use Rattle.scripts.specs.declared.misreads.Misread.TheVariants.{Memory};
ghost use Rattle.scripts.specs.Misreads.{misread_text};

use std::alloc::AllocError;
use std::fmt;

// Why a line is none; operands are counted from 1.
#[derive(Clone, Copy, PartialEq, Eq, Debug)]
pub enum Misread {
    Memory,
    Unknown,
    Count,
    Number(usize),
    Long(usize),
    Data(usize),
    State(usize),
}

impl From<AllocError> for Misread {
    ghost from_gives = { λ _ r. r ≡ Memory };

    fn from(_: AllocError) -> Misread {
        Self::Memory
    }
}

impl fmt::Display for Misread {
    ghost output = { λ x. Some (misread_text x) };

    fn fmt<W: fmt::Write>(&self, f: &mut fmt::Formatter<W>) -> fmt::Result {
        match self {
            Misread::Memory => write!(f, "no memory is left"),
            Misread::Unknown => write!(f, "no such call"),
            Misread::Count => write!(f, "wrong number of operands"),
            Misread::Number(at) => write!(f, "operand {at} is not a number of 32 bits"),
            Misread::Long(at) => write!(f, "operand {at} is not a number of 64 bits"),
            Misread::Data(at) => write!(f, "operand {at} is not data"),
            Misread::State(at) => write!(f, "operand {at} is neither blank nor damaged"),
        }
    }
}
