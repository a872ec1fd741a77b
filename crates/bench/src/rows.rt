ghost use Rattle.std.specs.Prelude.{◌≡◌, ◌<◌, ◌↔◌, true, false, IsTrue, MatchResult, Ok};
ghost use Rattle.flash.specs.declared.chunks.Chunk.TheVariants.{Blank, Holds};
ghost use Rattle.flash.specs.declared.faults.Fault.TheVariants.{SupplyFailed};
ghost use Rattle.bench.specs.Acts.{due, left_in, Remade};
ghost use Rattle.bench.specs.Rows.{AllBlank, IsRow, FoundRow, Found, Counted};

use crate::benches::BenchChip;
use flash::{Act, Chunk, Fault, Place, Record};
use std::ops::Range;

// Whether all these chunks are blank. One for `image` and `scan` too would take the test with the slice, and so be `all`.
pub(crate) fn all_blank(chunks: &[Chunk]) -> bool
    ensures { IsTrue result ↔ AllBlank chunks.now }
{
    // No `==`: it would compare whole records, for this line alone.
    chunks.iter().all(|chunk| matches!(chunk, Chunk::Blank))
}

impl BenchChip {
    // The row of a chunk, unless the chip is off or has no such place: here and in `erase`, as in `image`, two tests in the chip
    // rules' order; `erase` asks for its block alone, and each chip for its own power.
    #[tactic(auto, using(std::proofs::lemmas::Nat::row_fits))]
    pub(crate) fn row(&self, at: Place) -> Result<usize, Fault>
        ensures { FoundRow self.now at result }
    {
        if !self.on {
            return Err(Fault::Off);
        }
        if !self.sizes.has(at) {
            return Err(Fault::NoSuchPlace);
        }
        Ok(self.sizes.row(at))
    }

    // The rows of a chunk and all later ones of its block. By itself: as an answer of `row`, a range goes through memory
    // with every look, and a mount of a blank chip took twice the time.
    pub(crate) fn rows_from(&self, row: usize, at: Place) -> Range<usize>
        requires { IsRow self.now at row }
        ensures { Found self.now at (Ok result) }
    {
        let end = self.sizes.rows_of(at.block).end;
        row..end
    }

    // Whether the next act is the one that fails.
    pub(crate) fn due(&self) -> bool
        ensures { result ≡ due self.now }
    {
        self.left == 1
    }

    // Counts one act. The one that is due fails, and leaves the chip off.
    pub(crate) fn count(&mut self, act: Act) -> Result<(), Fault>
        ensures after { Counted self.old self.new }
        ensures told { MatchResult result (λ _. due self.old ≡ false) (λ f. (due self.old ≡ true) × (f ≡ SupplyFailed act)) }
    {
        let fails = self.due();
        self.left = self.left.saturating_sub(1);
        self.on = !fails;
        if fails {
            Err(Fault::SupplyFailed(act))
        } else {
            Ok(())
        }
    }

    // What the next act leaves in a blank chunk if it is a program.
    pub(crate) fn filled(&self, chunk: u32, record: &Record) -> Chunk
        ensures { result ≡ left_in self.now chunk Blank (Holds «record».now) }
    {
        let fails = self.due();
        let new = Chunk::Holds(*record);
        self.plan.leaves(fails, chunk as usize, Chunk::Blank, new)
    }

    // Makes every chunk of a block what the next act leaves in it if it is an erase.
    #[tactic(auto, using(crate::proofs::Remaking::begun_more))]
    pub(crate) fn remake(&mut self, block: u32)
        requires { block < self.old.sizes.blocks }
        ensures does { Remade (λ c x. left_in self.old c x Blank) self.old.sizes.chunks block self.old.sizes.chunks self.old.rows.items self.new.rows.items }
        ensures rest { (self.new.sizes ≡ self.old.sizes) × (self.new.plan ≡ self.old.plan) × (self.new.left ≡ self.old.left) × (self.new.on ≡ self.old.on) }
    {
        let fails = self.due();
        let rows = self.sizes.rows_of(block);
        for (c, chunk) in self.rows[rows].iter_mut().enumerate() {
            *chunk = self.plan.leaves(fails, c, *chunk, Chunk::Blank);
        }
    }
}
