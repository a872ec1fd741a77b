ghost use Rattle.std.specs.Prelude.{◌≡◌};
ghost use Rattle.scan.specs.Chips.{chip_of};
ghost use Rattle.scan.specs.Clashes.{Clash, DataAlike, ClashBefore, Clashed};
ghost use Rattle.scan.specs.Tables.{row_of};

use crate::tables::{Entry, Scan};
use flash::{CHUNK_BYTES, Chip, Fault, Place};

impl<C: Chip> Entry<'_, '_, C> {
    // Whether two records have the same data bytes. By itself: in `clashes_with` the buffers were cleared for every pair.
    fn same_data(&self, other: &Entry<'_, '_, C>) -> Result<bool, Fault>
        ensures { DataAlike (row_of (chip_of self.now.scan.now) self.now.row) (row_of (chip_of other.now.scan.now) other.now.row) result }
    {
        let mut first = [0; CHUNK_BYTES];
        let mut second = [0; CHUNK_BYTES];
        self.read(&mut first)?;
        other.read(&mut second)?;
        Ok(first == second)
    }

    // Whether two records with one serial are unlike.
    fn clashes_with(&self, other: &Entry<'_, '_, C>) -> Result<bool, Fault>
        ensures { Clash (row_of (chip_of self.now.scan.now) self.now.row) (row_of (chip_of other.now.scan.now) other.now.row) result }
    {
        if self.tag.serial != other.tag.serial {
            return Ok(false);
        }
        Ok(self.tag != other.tag || !self.same_data(other)?)
    }

    // Whether the record is unlike an earlier one with its serial.
    fn clash_before(&self) -> Result<bool, Fault>
        ensures { ClashBefore (chip_of self.now.scan.now) self.now.row result }
    {
        for (row, look) in self.scan.rows[..self.row].iter().enumerate() {
            let Some(earlier) = self.scan.entry(row, *look) else {
                continue;
            };
            if self.clashes_with(&earlier)? {
                return Ok(true);
            }
        }
        Ok(false)
    }
}

impl<C: Chip> Scan<'_, C> {
    // The first place, in rising place, whose record is unlike an earlier one with its serial.
    pub(crate) fn first_clash(&self) -> Result<Option<Place>, Fault>
        ensures { Clashed (chip_of self.now) result }
    {
        for (row, look) in self.rows.iter().enumerate() {
            let Some(entry) = self.entry(row, *look) else {
                continue;
            };
            if entry.clash_before()? {
                return Ok(Some(entry.place()));
            }
        }
        Ok(None)
    }
}
