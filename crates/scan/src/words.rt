ghost use Rattle.std.specs.Prelude.{◌≡◌, Some};
ghost use Rattle.scan.specs.Words.{why_text, place_of, refusal_text};

use crate::refusals::Refusal;
use flash::Place;
use std::fmt;

// The words for what the store refuses.

impl Refusal {
    // What a refusal of the store itself says, by its number.
    fn why(&self) -> &'static str
        ensures { result.now ≡ why_text self.now }
    {
        match self {
            // `fmt` lets a chip's own refusal speak for itself
            Refusal::Chip(_) => "",
            Refusal::BadSizes =>
                "the number of blocks is outside 3 to 64, that of chunks in each outside 2 to 64, or that of all chunks over 2,048",
            Refusal::BadRecord(_) => "a record breaks the rules",
            Refusal::SerialClash(_) => "two unlike records have one serial",
            Refusal::SameNames => "two files have one name",
            Refusal::FilesTooLarge => "the files use more chunks than they may",
            Refusal::NoWayOn => "no block is blank, and none has load 0",
            Refusal::Stopped => "the store is stopped",
            Refusal::BadObject => "the object number is outside 257 to 511",
            Refusal::BadNumber => "the chunk number or the length is out of range",
            Refusal::BadCount => "the number of bytes is outside 1 to 2,048",
            Refusal::BadName => "the length of the name is outside 1 to 40",
            Refusal::NotPresent => "there is no such file",
            Refusal::AlreadyPresent => "the file is there already",
            Refusal::NameTaken => "another file has the name",
            Refusal::IsOpen => "the file is open",
            Refusal::NotOpen => "the file is not open",
            Refusal::NotShorter => "the file is no longer than that",
            Refusal::NoSerial => "a record has the highest serial already",
            Refusal::NoRoom => "the files would use more chunks than they may",
            Refusal::NothingToClean =>
                "a block is blank, and no closed block has a load below that of a full one",
            Refusal::FewRows => "there are fewer rows than files",
        }
    }

    // The place that 10 and 11 carry.
    fn place(&self) -> Option<Place>
        ensures { result ≡ place_of self.now }
    {
        match self {
            Refusal::BadRecord(at) | Refusal::SerialClash(at) => Some(*at),
            _ => None,
        }
    }
}

impl fmt::Display for Refusal {
    ghost output = { λ x. Some (refusal_text x) };

    #[tactic(auto, using(std::proofs::lemmas::Fmt::decimal_digit, crate::proofs::Saying::plain_said))]
    fn fmt<W: fmt::Write>(&self, f: &mut fmt::Formatter<W>) -> fmt::Result {
        if let Refusal::Chip(fault) = self {
            return write!(f, "{fault}");
        }
        let (number, why) = (self.number(), self.why());
        match self.place() {
            Some(at) => write!(f, "{number}, {why}, at {at}"),
            None => write!(f, "{number}, {why}"),
        }
    }
}
