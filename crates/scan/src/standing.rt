ghost use Rattle.std.specs.Prelude.{Decides, ◌≡◌, length, map};
ghost use Rattle.flash.specs.Model.{blocks_of};
ghost use Rattle.flash.specs.declared.chunks.Look.TheVariants.{Blank};
ghost use Rattle.std.specs.List.{All};
ghost use Rattle.rules.specs.Mounting.{mounted_block};
ghost use Rattle.scan.specs.Chips.{chip_of};

use crate::tables::Scan;
use flash::{Chip, Look};
use rules::{Event, Standing};
use table::move_on;

// Whether these rows all tell of blank chunks. One for the chunks of the chips too would be `Iterator::all` itself.
fn all_blank(rows: &[Look]) -> bool
    ensures { Decides result (All (λ x. x ≡ Blank) rows.now) }
{
    rows.iter().all(|look| *look == Look::Blank)
}

impl<C: Chip> Scan<'_, C> {
    // Mounts every block: it stands blank or closed. By number: after a zip with `iter_mut` a proof knows nothing of the
    // standings that it leaves.
    pub(crate) fn stand(&self, standings: &mut [Standing])
        requires { length standings.old ≡ self.now.sizes.blocks }
        ensures { standings.new ≡ map mounted_block (blocks_of (chip_of self.now)) }
    {
        for (block, standing) in standings.iter_mut().enumerate() {
            let blank = all_blank(&self.rows[self.sizes.rows_of(block as u32)]);
            move_on(standing, Event::Mounted { blank });
        }
    }
}
