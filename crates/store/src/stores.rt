ghost use Rattle.std.specs.Prelude.{◌≡◌, true};
ghost use Rattle.flash.specs.Model.{view_of};
ghost use Rattle.scan.specs.Indexes.{Knows};
ghost use Rattle.store.specs.Running.{StandsSo, OpenPresent};

use crate::held::Held;
use flash::Chip;
use scan::Index;

// A chip; while the store runs, what is known of it; and which files are open. A stopped store keeps its index, since attach
// alone takes memory: so `running` stands beside it, and there is no Option. For the same reason `held` is an array.
// No enum: each variant would hold the index anew, and a change of variant would have to move it out of a borrowed store.
#[derive(Drop)]
pub struct Store<C: Chip> {
    pub(crate) chip: C,
    pub(crate) index: Index,
    pub(crate) held: Held,
    pub(crate) running: bool,
    ghost known: { running ≡ true → Knows (view_of (C.Chip.model chip)) index },
    ghost stands: { running ≡ true → ∥ StandsSo (C.Chip.model chip) index ∥₁ },
    ghost present: { running ≡ true → OpenPresent (C.Chip.model chip) held },
}
