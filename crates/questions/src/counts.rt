ghost use Rattle.std.specs.Prelude.{◌≡◌};
ghost use Rattle.flash.specs.Model.{State, view_of};
ghost use Rattle.scan.specs.Indexes.{stands_in, Knows};
ghost use Rattle.questions.specs.Counts.{Counted};

use crate::lists::count_rows;
use places::count_standing;
use rules::{Standing, limit};
use scan::Index;
use table::used;
use tags::highest_serial;

// What there is on a chip, counted: files, chunks that they use and may use, blank blocks, and the highest serial.
#[derive(Clone, Copy, PartialEq, Eq, Debug)]
pub struct Totals {
    pub files: usize,
    pub used: usize,
    pub limit: usize,
    pub blank: usize,
    pub serial: u32,
}

// Counts what there is.
#[tactic(auto, using(crate::proofs::Counting::used_known, crate::proofs::Counting::serial_known, crate::proofs::Counting::files_known))]
pub fn count_all(index: &Index) -> Totals
    ensures { (s : State) → Knows (view_of s) index.now → Counted s (stands_in index.now) result }
{
    let looks = index.looks();
    Totals {
        files: count_rows(looks),
        used: used(looks),
        limit: limit(index.sizes),
        blank: count_standing(index.stands(), Standing::Blank),
        serial: highest_serial(looks),
    }
}
