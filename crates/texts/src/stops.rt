ghost use Rattle.std.specs.Prelude.{◌≡◌, Some};
ghost use Rattle.texts.specs.declared.stops.Stop.TheVariants.{Memory, Refused, Store};
ghost use Rattle.texts.specs.Stops.{stop_text};

use flash::{Misfit, Unmade};
use scan::Refusal;
use std::alloc::AllocError;
use std::fmt;

// Why a command gives nothing.
#[derive(Clone, Copy, PartialEq, Eq, Debug)]
pub enum Stop {
    Memory,
    // no chip could be made of the memory handed over
    Refused(Misfit),
    // the store refused
    Store(Refusal),
}

impl From<AllocError> for Stop {
    ghost from_gives = { λ _ r. r ≡ Memory };

    fn from(_: AllocError) -> Stop {
        Self::Memory
    }
}

// A text could not grow.
impl From<fmt::Error> for Stop {
    ghost from_gives = { λ _ r. r ≡ Memory };

    fn from(_: fmt::Error) -> Stop {
        Stop::from(AllocError)
    }
}

impl<C: Drop> From<Unmade<C>> for Stop {
    ghost from_gives = { λ u r. r ≡ Refused u.why };

    fn from(unmade: Unmade<C>) -> Stop {
        Self::Refused(unmade.why)
    }
}

impl From<Refusal> for Stop {
    ghost from_gives = { λ e r. r ≡ Store e };

    fn from(why: Refusal) -> Stop {
        Self::Store(why)
    }
}

impl fmt::Display for Stop {
    ghost output = { λ x. Some (stop_text x) };

    fn fmt<W: fmt::Write>(&self, f: &mut fmt::Formatter<W>) -> fmt::Result {
        match self {
            Stop::Memory => write!(f, "no memory is left"),
            Stop::Refused(why) => write!(f, "refused: {why}"),
            Stop::Store(why) => write!(f, "refused: {why}"),
        }
    }
}
