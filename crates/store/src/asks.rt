ghost use Rattle.std.specs.Prelude.{◌≡◌, true, false, MatchResult};
ghost use Rattle.flash.specs.Model.{view_of};
ghost use Rattle.rules.specs.Refusals.{size_table};
ghost use Rattle.scan.specs.declared.refusals.Refusal.TheVariants.{Stopped};
ghost use Rattle.scan.specs.Indexes.{stands_in, Knows};
ghost use Rattle.checks.specs.Checks.{Runs};
ghost use Rattle.questions.specs.Counts.{Counted};
ghost use Rattle.questions.specs.Questions.{Answered, OfFile, FindAnswered, SizeAnswered, ReadAnswered, ListAnswered};
ghost use Rattle.store.specs.Stores.{running_table};
ghost use Rattle.store.specs.Stored.{stored};

use crate::stores::Store;
use flash::Chip;
use questions::Totals;
use rules::Row;
use scan::{Index, Refusal};

impl<C: Chip> Store<C> {
    // What is known of the chip, while the store runs.
    pub(crate) fn known(&self) -> Result<&Index, Refusal>
        ensures runs { MatchResult result (λ x. Runs (stored self.now) x.now) (λ e. Unit {0}) }
        ensures known { MatchResult result (λ x. (self.now.running ≡ true) × (x.now ≡ self.now.index) × Knows (view_of (C.Chip.model self.now.chip)) self.now.index) (λ e. (self.now.running ≡ false) × (e ≡ Stopped)) }
    {
        if !self.running {
            return Err(Refusal::Stopped);
        }
        Ok(&self.index)
    }

    // The object of the file that has the name, if there is one.
    pub fn find(&self, name: &[u8]) -> Result<Option<u32>, Refusal>
        ensures { FindAnswered (stored self.now) name.now result }
    {
        questions::find(self.known()?, name)
    }

    // The name of a file.
    pub fn name(&self, object: u32) -> Result<&[u8], Refusal>
        ensures { Answered (size_table (stored self.now) object) result (λ name. OfFile (stored self.now) object (λ f. name.now ≡ f.name)) (Unit {0}) }
    {
        questions::name(self.known()?, object)
    }

    // How many bytes a file has.
    pub fn size(&self, object: u32) -> Result<u32, Refusal>
        ensures { SizeAnswered (stored self.now) object result }
    {
        questions::size(self.known()?, object)
    }

    // Reads the bytes of a file from a position on, as many as the buffer holds or the size allows, and answers their
    // number. The bytes of the buffer beyond them stay. Object, position and buffer are a read's arguments, as in `questions`.
    pub fn read(&self, object: u32, position: u64, buffer: &mut [u8]) -> Result<usize, Refusal>
        ensures { ReadAnswered (stored self.now) object position buffer.old result buffer.new }
    {
        questions::read(self.known()?, &self.chip, object, position, buffer)
    }

    // Writes a row for each file, by rising object number, and answers their number. The rows beyond them stay.
    pub fn list(&self, rows: &mut [Row]) -> Result<usize, Refusal>
        ensures { ListAnswered (stored self.now) rows.old result rows.new }
    {
        questions::list(self.known()?, rows)
    }

    // Counts what there is on the chip.
    pub fn count_all(&self) -> Result<Totals, Refusal>
        ensures { Answered (running_table (stored self.now)) result (λ t. Counted (C.Chip.model self.now.chip) (stands_in self.now.index) t) (Unit {0}) }
    {
        Ok(questions::count_all(self.known()?))
    }
}
