ghost use Rattle.std.specs.Prelude.{◌≡◌, true, false, MatchResult};
ghost use Rattle.flash.specs.Model.{started, blocks_of};
ghost use Rattle.rules.specs.Mounting.{verdict, mounted};
ghost use Rattle.rules.specs.Runs.{Holds};
ghost use Rattle.scan.specs.Formats.{Formatted};
ghost use Rattle.scan.specs.Mounts.{verdict_of, runs};
ghost use Rattle.store.specs.Stores.{NoneHeld, LeftByMount};
ghost use Rattle.store.specs.Stored.{stored};

use crate::held::none_held;
use crate::stores::Store;
use flash::Chip;
use scan::{Index, Refusal};
use std::alloc::Global;

// No memory for the index: the chip comes back.
#[derive(Drop)]
pub struct Unattached<C> {
    pub chip: C,
}

impl<C: Chip> Store<C> {
    // A stopped store over the chip. This is the only call that takes memory.
    pub fn attach(heap: Global, chip: C) -> Result<Store<C>, Unattached<C>>
        ensures { MatchResult result (λ s. (s.chip ≡ chip) × (s.running ≡ false) × NoneHeld s.held) (λ e. e.chip ≡ chip) }
    {
        let Ok(index) = Index::new(heap) else {
            return Err(Unattached { chip });
        };
        Ok(Store {
            chip,
            index,
            held: none_held(),
            running: false,
        })
    }

    // States a law, and does nothing: while a store runs, what the law of whole runs asks of it holds.
    #[tactic(auto, using(crate::proofs::Lasting::holds_running))]
    pub fn holds(&self)
        ensures { self.now.running ≡ true → ∥ Holds 2048 (stored self.now) ∥₁ }
    {}

    // Ends the store and gives the chip back.
    pub fn release(self) -> C
        ensures { result ≡ self.chip }
    {
        self.chip
    }

    // Restarts the chip and erases each block that is not blank. The store is stopped then, and no file is open.
    pub fn format(&mut self) -> Result<(), Refusal>
        ensures chip { Formatted (C.Chip.model self.old.chip) result (C.Chip.model self.new.chip) }
        ensures stopped { (self.new.running ≡ false) × NoneHeld self.new.held }
    {
        self.running = false;
        self.held = none_held();
        scan::format(&mut self.chip)
    }

    // Restarts the chip, scans it and checks what it holds. Accepted, the store runs; in any case no file is open.
    #[tactic(auto, using(crate::proofs::Mounting::flash_mounted, crate::proofs::Mounting::flash_same, crate::proofs::Running::stands_so, crate::proofs::Running::none_present))]
    pub fn mount(&mut self) -> Result<(), Refusal>
        ensures chip { C.Chip.model self.new.chip ≡ started (C.Chip.model self.old.chip) }
        ensures answers { verdict_of result ≡ verdict (C.Chip.model self.old.chip).n (C.Chip.model self.old.chip).p (blocks_of (C.Chip.model self.old.chip)) }
        ensures runs { (self.new.running ≡ runs result) × NoneHeld self.new.held }
        ensures stands { runs result ≡ true → (stored self.new).flash ≡ mounted (blocks_of (C.Chip.model self.old.chip)) }
        ensures leaves { LeftByMount (stored self.old) result (stored self.new) }
    {
        self.running = false;
        self.held = none_held();
        self.index.mount(&mut self.chip)?;
        self.running = true;
        Ok(())
    }
}
