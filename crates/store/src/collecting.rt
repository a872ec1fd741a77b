ghost use Rattle.std.specs.Prelude.{◌≡◌, false};
ghost use Rattle.rules.specs.Calls.{collect};
ghost use Rattle.rules.specs.Refusals.{refusal};
ghost use Rattle.checks.specs.Checks.{Checked};
ghost use Rattle.store.specs.Stored.{stored};
ghost use Rattle.store.specs.Changes.{Collected, CleanTold};

use crate::stores::Store;
use flash::Chip;
use places::Victim;
use scan::Refusal;

impl<C: Chip> Store<C> {
    // What a collect is refused for.
    fn check_collect(&self) -> Result<(), Refusal>
        ensures { Checked (refusal (stored self.now) collect) result }
    {
        checks::collect(self.known()?)
    }

    // Cleans once. The store is stopped meanwhile, and stays so where the supply fails.
    fn clean(&mut self) -> Result<Option<Victim>, Refusal>
        ensures played { CleanTold (C.Chip.model self.old.chip) self.old.index result (C.Chip.model self.new.chip) self.new.index }
        ensures stopped { (self.new.running ≡ false) × (self.new.held ≡ self.old.held) }
    {
        self.running = false;
        Ok(cleaning::clean(&mut self.chip, &mut self.index)?)
    }

    // Cleans once, and answers the block and the number of copies. There is a block to clean, as was checked.
    pub fn collect(&mut self) -> Result<(usize, usize), Refusal>
        ensures { Collected (stored self.old) result (stored self.new) }
    {
        self.check_collect()?;
        let victim = self.clean()?.ok_or(Refusal::NothingToClean)?;
        self.running = true;
        Ok((victim.block, victim.load))
    }
}
