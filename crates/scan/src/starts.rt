ghost use Rattle.scan.specs.Starts.{Started};

use crate::refusals::Refusal;
use flash::{Chip, Sizes};
use rules::fits;

// Restarts the chip, and tells its sizes if a store takes them.
pub(crate) fn start<C: Chip>(chip: &mut C) -> Result<Sizes, Refusal>
    ensures { Started (C.Chip.model chip.old) result (C.Chip.model chip.new) }
{
    chip.restart();
    let sizes = chip.sizes();
    if !fits(sizes) {
        return Err(Refusal::BadSizes);
    }
    Ok(sizes)
}
