ghost use Rattle.std.specs.Prelude.{◌≡◌, ◌<◌, length, None, slice_index_or, MatchOption};
ghost use Rattle.std.specs.Result.{result_map_both};
ghost use Rattle.flash.specs.declared.chunks.Look.TheVariants.{Blank};
ghost use Rattle.scan.specs.Chips.{chip_of};
ghost use Rattle.scan.specs.Tables.{tag_at, PlaceOf, DataOf};

use crate::scans::place_of;
use crate::tables::{Entry, Scan};
use flash::{CHUNK_BYTES, Chip, Fault, Look, Place};

impl<'a, C: Chip> Scan<'a, C> {
    // The record in a row, if what the row tells is one.
    pub(crate) fn entry<'s>(&'s self, row: usize, look: Look) -> Option<Entry<'s, 'a, C>>
        requires there { row < length self.now.rows.now }
        requires told { slice_index_or self.now.rows.now row Blank ≡ look }
        ensures { MatchOption result (tag_at (chip_of self.now) row ≡ None) (λ e. (e.scan.now ≡ self.now) × (e.row ≡ row)) }
    {
        let tag = look.tag()?;
        Some(Entry {
            scan: self,
            row,
            tag,
        })
    }
}

impl<C: Chip> Entry<'_, '_, C> {
    // Where the record stands.
    pub(crate) fn place(&self) -> Place
        ensures { PlaceOf (chip_of self.now.scan.now) self.now.row result }
    {
        place_of(self.row, self.scan.sizes)
    }

    // Reads the record's data bytes, into a buffer: an array as the answer would be moved with every fetch.
    pub(crate) fn read(&self, data: &mut [u8; CHUNK_BYTES]) -> Result<(), Fault>
        ensures { DataOf (chip_of self.now.scan.now) self.now.row self.now.tag (result_map_both (λ _. «data».new) (λ f. f) result) }
    {
        self.scan.chip.fetch(self.place(), data)
    }
}
