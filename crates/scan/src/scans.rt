ghost use Rattle.std.specs.Prelude.{◌≡◌, ◌+◌, ◌*◌, ◌/◌, ◌%◌, ◌<◌, ◌≤◌, true, length, MatchOption};
ghost use Rattle.flash.specs.Reads.{Sized};
ghost use Rattle.scan.specs.Indexes.{looks_in, stands_in};
ghost use Rattle.scan.specs.Scans.{Scanned};

use crate::indexes::Index;
use flash::{Chip, Fault, Look, Place, Sizes};
use rules::Standing;

// The place of a row of the table. Not in `flash` beside `Sizes::row`: open to all it could ask nothing, and would answer an
// Option, for each record of a scan.
pub(crate) fn place_of(row: usize, sizes: Sizes) -> Place
    requires { row < sizes.blocks * sizes.chunks }
    ensures block { result.block ≡ row / sizes.chunks }
    ensures chunk { result.chunk ≡ row % sizes.chunks }
    ensures within { (result.block < sizes.blocks) × (result.chunk < sizes.chunks) }
{
    let chunks = sizes.chunks as usize;
    Place::new((row / chunks) as u32, (row % chunks) as u32)
}

impl Index {
    // What each chunk is, by rising place.
    pub fn looks(&self) -> &[Look]
        ensures { result.now ≡ looks_in self.now }
    {
        &self.rows[0..self.sizes.count()]
    }

    // How each block stands.
    pub fn stands(&self) -> &[Standing]
        ensures value { result.now ≡ stands_in self.now }
        ensures few { length result.now ≤ self.now.sizes.blocks }
    {
        &self.standings[0..self.sizes.blocks as usize]
    }

    // The place of a row, if it tells of a chunk.
    pub fn place(&self, row: usize) -> Option<Place>
        ensures { MatchOption result (self.now.sizes.blocks * self.now.sizes.chunks ≤ row) (λ q. (row < self.now.sizes.blocks * self.now.sizes.chunks) × (q.block ≡ row / self.now.sizes.chunks) × (q.chunk ≡ row % self.now.sizes.chunks)) }
    {
        if row >= self.sizes.count() {
            return None;
        }
        Some(place_of(row, self.sizes))
    }
}

// Looks at every chunk, in rising place, and notes what it is.
pub(crate) fn scan_rows<C: Chip>(chip: &C, sizes: Sizes, rows: &mut [Look]) -> Result<(), Fault>
    requires sizes { Sized (C.Chip.model chip.now) sizes }
    requires on { (C.Chip.model chip.now).on ≡ true }
    requires rows { length rows.old ≡ sizes.blocks * sizes.chunks }
    ensures { Scanned (C.Chip.model chip.now) result rows.new }
{
    for (row, look) in rows.iter_mut().enumerate() {
        *look = chip.look(place_of(row, sizes))?;
    }
    Ok(())
}
