ghost use Rattle.std.specs.Prelude.{Some};
ghost use Rattle.flash.specs.Words.{place_text, tag_text, look_text, act_text, fault_text, misfit_text};

use crate::chunks::{Look, Place, Tag};
use crate::faults::{Act, Fault, Misfit};
use std::fmt;

// The words for what a chip holds and refuses.

impl fmt::Display for Place {
    ghost output = { λ x. Some (place_text x) };

    fn fmt<W: fmt::Write>(&self, f: &mut fmt::Formatter<W>) -> fmt::Result {
        write!(f, "block {}, chunk {}", self.block, self.chunk)
    }
}

impl fmt::Display for Tag {
    ghost output = { λ x. Some (tag_text x) };

    #[tactic(auto, using(crate::proofs::Digits::hex_word))]
    fn fmt<W: fmt::Write>(&self, f: &mut fmt::Formatter<W>) -> fmt::Result {
        let Tag {
            first,
            second,
            third,
            serial,
        } = *self;
        write!(f, "0x{first:08x} 0x{second:08x} {third} {serial}")
    }
}

impl fmt::Display for Look {
    ghost output = { λ x. Some (look_text x) };

    fn fmt<W: fmt::Write>(&self, f: &mut fmt::Formatter<W>) -> fmt::Result {
        match self {
            Look::Blank => write!(f, "blank"),
            Look::Damaged => write!(f, "damaged"),
            Look::Record(tag) => write!(f, "record {tag}"),
        }
    }
}

impl fmt::Display for Act {
    ghost output = { λ x. Some (act_text x) };

    fn fmt<W: fmt::Write>(&self, f: &mut fmt::Formatter<W>) -> fmt::Result {
        match self {
            Act::Adding(at) => write!(f, "adding at {at}"),
            Act::Copying(at) => write!(f, "copying to {at}"),
            Act::Erasing(block) => write!(f, "erasing block {block}"),
        }
    }
}

impl fmt::Display for Fault {
    ghost output = { λ x. Some (fault_text x) };

    #[tactic(auto, using(std::proofs::lemmas::Fmt::decimal_digit))]
    fn fmt<W: fmt::Write>(&self, f: &mut fmt::Formatter<W>) -> fmt::Result {
        let number = self.number();
        match self {
            Fault::Off => write!(f, "{number}, the chip is off"),
            Fault::NoSuchPlace => write!(f, "{number}, no such block or chunk"),
            Fault::NotBlank => write!(
                f,
                "{number}, the chunk or a later one of its block is not blank"
            ),
            Fault::SupplyFailed(act) => write!(f, "{number}, the supply failed while {act}"),
            Fault::NoRecord => write!(f, "{number}, no record there"),
        }
    }
}

impl fmt::Display for Misfit {
    ghost output = { λ x. Some (misfit_text x) };

    #[tactic(auto, using(std::proofs::lemmas::Fmt::decimal_digit))]
    fn fmt<W: fmt::Write>(&self, f: &mut fmt::Formatter<W>) -> fmt::Result {
        let why = match self {
            Misfit::Mark => "under 8 bytes or not marked TFS",
            Misfit::Version => "the version is not 1",
            Misfit::Length => "the length does not match the numbers of blocks and chunks",
        };
        write!(f, "{}, {why}", self.number())
    }
}
