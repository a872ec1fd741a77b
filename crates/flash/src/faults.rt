ghost use Rattle.std.specs.Prelude.{◌≡◌};
ghost use Rattle.flash.specs.Faults.{told, act_of, misfit_number};

use crate::chunks::Place;

// What a record is programmed for: to add it to the store, or to copy it while a block is cleaned.
#[derive(Clone, Copy, PartialEq, Eq, Debug)]
pub enum Purpose {
    Adding,
    Copying,
}

// The act during which the supply failed, and where.
#[derive(Clone, Copy, PartialEq, Eq, Debug)]
pub enum Act {
    Adding(Place),
    Copying(Place),
    Erasing(u32),
}

// What a chip refuses.
#[derive(Clone, Copy, PartialEq, Eq, Debug)]
pub enum Fault {
    Off,
    NoSuchPlace,
    NotBlank,
    SupplyFailed(Act),
    NoRecord,
}

// Why the memory handed over does not make a chip.
#[derive(Clone, Copy, PartialEq, Eq, Debug)]
pub enum Misfit {
    Mark = 1,
    Version = 2,
    Length = 3,
}

// A chip made all the same: it has no blocks, is always on and leaves its memory as it was.
#[derive(Drop)]
pub struct Unmade<C> {
    pub chip: C,
    pub why: Misfit,
}

impl Purpose {
    // The act of a program for this purpose.
    pub fn at(self, place: Place) -> Act
        ensures { result ≡ act_of self place }
    {
        match self {
            Purpose::Adding => Act::Adding(place),
            Purpose::Copying => Act::Copying(place),
        }
    }
}

impl Fault {
    // A method by name: an enum with a variant that carries a value has no numbers of its own.
    pub fn number(&self) -> u32
        ensures { result ≡ (told self.now).0 }
    {
        match self {
            Fault::Off => 4,
            Fault::NoSuchPlace => 5,
            Fault::NotBlank => 6,
            Fault::SupplyFailed(_) => 7,
            Fault::NoRecord => 8,
        }
    }
}

impl Misfit {
    pub fn number(&self) -> u32
        ensures { result ≡ misfit_number self.now }
    {
        *self as u32
    }
}
