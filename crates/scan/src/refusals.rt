ghost use Rattle.std.specs.Prelude.{◌≡◌};
ghost use Rattle.scan.specs.declared.refusals.Refusal.TheVariants.{Chip as FromChip};
ghost use Rattle.scan.specs.Refusals.{told};

use flash::{Fault, Place};

// What the store refuses, by rising number.
#[derive(Clone, Copy, PartialEq, Eq, Debug)]
pub enum Refusal {
    // 4 to 8: the chip's own
    Chip(Fault),
    // 9 to 14: the chip or its contents cannot be mounted
    BadSizes,
    BadRecord(Place),
    SerialClash(Place),
    SameNames,
    FilesTooLarge,
    NoWayOn,
    // 15
    Stopped,
    // 16 to 19: arguments
    BadObject,
    BadNumber,
    BadCount,
    BadName,
    // 20 to 25: files
    NotPresent,
    AlreadyPresent,
    NameTaken,
    IsOpen,
    NotOpen,
    NotShorter,
    // 26 and 27: serials and chunks
    NoSerial,
    NoRoom,
    // 28 and 29: collect; list
    NothingToClean,
    FewRows,
}

impl From<Fault> for Refusal {
    ghost from_gives = { λ f r. r ≡ FromChip f };

    fn from(f: Fault) -> Refusal {
        Refusal::Chip(f)
    }
}

impl Refusal {
    // A named method: an enum whose variants carry values has no numbers of its own.
    pub fn number(&self) -> u32
        ensures { result ≡ (told self.now).0 }
    {
        match self {
            Refusal::Chip(fault) => fault.number(),
            Refusal::BadSizes => 9,
            Refusal::BadRecord(_) => 10,
            Refusal::SerialClash(_) => 11,
            Refusal::SameNames => 12,
            Refusal::FilesTooLarge => 13,
            Refusal::NoWayOn => 14,
            Refusal::Stopped => 15,
            Refusal::BadObject => 16,
            Refusal::BadNumber => 17,
            Refusal::BadCount => 18,
            Refusal::BadName => 19,
            Refusal::NotPresent => 20,
            Refusal::AlreadyPresent => 21,
            Refusal::NameTaken => 22,
            Refusal::IsOpen => 23,
            Refusal::NotOpen => 24,
            Refusal::NotShorter => 25,
            Refusal::NoSerial => 26,
            Refusal::NoRoom => 27,
            Refusal::NothingToClean => 28,
            Refusal::FewRows => 29,
        }
    }
}
