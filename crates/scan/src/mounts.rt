ghost use Rattle.std.specs.Prelude.{◌≡◌, nat_lt};
ghost use Rattle.rules.specs.Mounting.{limit};
ghost use Rattle.rules.specs.Reading.{used};
ghost use Rattle.tags.specs.Bare.{records};
ghost use Rattle.names.specs.Names.{entries_of};
ghost use Rattle.scan.specs.Chips.{chip_of};
ghost use Rattle.scan.specs.Mounts.{Examined, Idle};

use crate::refusals::Refusal;
use crate::tables::Scan;
use flash::Chip;
use names::Names;
use rules::limit;
use table::{load, used};

impl<C: Chip> Scan<'_, C> {
    // Whether some block has load 0.
    fn some_idle(&self) -> bool
        ensures { Idle self.now.rows.now self.now.sizes result }
    {
        let chunks = self.sizes.chunks as usize;
        (0..self.sizes.blocks as usize).any(|block| load(self.rows, chunks, block) == 0)
    }

    // Whether the files use more chunks than they may.
    fn too_large(&self) -> bool
        ensures { result ≡ nat_lt (limit self.now.sizes.blocks self.now.sizes.chunks) (used (records self.now.rows.now)) }
    {
        used(self.rows) > limit(self.sizes)
    }

    // Checks what the chip holds, and notes the names of the files.
    pub(crate) fn examine(&self, names: &mut Names) -> Result<(), Refusal>
        ensures { Examined (chip_of self.now) result self.now.rows.now (entries_of names.new) }
    {
        self.check_rows(names)?;
        if let Some(at) = self.first_clash()? {
            return Err(Refusal::SerialClash(at));
        }
        if names.two_alike() {
            return Err(Refusal::SameNames);
        }
        if self.too_large() {
            return Err(Refusal::FilesTooLarge);
        }
        if !self.some_idle() {
            return Err(Refusal::NoWayOn);
        }
        Ok(())
    }
}
