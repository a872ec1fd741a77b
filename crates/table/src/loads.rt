ghost use Rattle.std.specs.Prelude.{◌≡◌, ℕ, ◌*◌, ◌<◌, ◌||◌, length, nat_eq};
ghost use Rattle.rules.specs.Lists.{any};
ghost use Rattle.rules.specs.Places.{load};
ghost use Rattle.tags.specs.Bare.{bare_tag, records, bares};
ghost use Rattle.table.specs.Cuts.{CutFrom, loads_in, LoadsRow};
ghost use Rattle.table.specs.Loads.{load_at};
ghost use Rattle.table.specs.Rows.{blocks_of};

use crate::counts::{count_once, first_passes, has_serial};
use crate::wanting::wanted;
use flash::{Look, Tag};

// A block cut out of the table: its rows, and those before and after it.
#[derive(Clone, Copy)]
struct BlockOf<'a> {
    all: &'a [Look],
    before: &'a [Look],
    within: &'a [Look],
    after: &'a [Look],
}

impl BlockOf<'_> {
    // Whether a record with this serial stands in another block.
    fn elsewhere(&self, serial: u32) -> bool
        ensures { result ≡ (any (λ x. nat_eq x.tag.serial serial) (records self.now.before.now) || any (λ x. nat_eq x.tag.serial serial) (records self.now.after.now)) }
    {
        has_serial(self.before, serial) || has_serial(self.after, serial)
    }

    // Whether a record of the block is wanted, and stands in no other block.
    fn loads(&self, tag: &Tag) -> bool
        ensures { result ≡ loads_in self.now (bare_tag tag.now) }
    {
        wanted(self.all, tag) && !self.elsewhere(tag.serial)
    }

    // The same of the record of a row, if no earlier row of the block tells of its serial.
    fn loads_row(&self, row: usize) -> bool
        ensures { LoadsRow self.now row result }
    {
        let Some(look) = self.within.get(row) else {
            return false;
        };
        first_passes(&self.within[..row], look, &|tag| self.loads(&tag))
    }
}

// A block of the table, if the table is long enough. The looks, the chunks a block and the block meet in this file alone:
// with a struct for them a caller would write `Table::new(looks, chunks).load(block)` for `load(looks, chunks, block)`.
fn block_of(looks: &[Look], chunks: usize, block: usize) -> Option<BlockOf<'_>>
    ensures { CutFrom looks.now chunks block result }
{
    let start = block.checked_mul(chunks)?;
    let (before, rest) = looks.split_at_checked(start)?;
    let (within, after) = rest.split_at_checked(chunks)?;
    Some(BlockOf {
        all: looks,
        before,
        within,
        after,
    })
}

// The load of a block: its wanted records that stand in no other block, each serial once.
pub fn load(looks: &[Look], chunks: usize, block: usize) -> usize
    ensures { (n : ℕ) → length looks.now ≡ n * chunks → block < n → result ≡ load (blocks_of chunks n (bares looks.now)) block }
{
    block_of(looks, chunks, block).map_or(0, |rows| count_once(rows.within, |tag| rows.loads(&tag)))
}

// Whether a chunk of a block is one of those that make its load.
pub fn makes_load(looks: &[Look], chunks: usize, block: usize, chunk: usize) -> bool
    ensures { (n : ℕ) → length looks.now ≡ n * chunks → block < n → chunk < chunks → result ≡ load_at (blocks_of chunks n (bares looks.now)) block chunk }
{
    block_of(looks, chunks, block).is_some_and(|rows| rows.loads_row(chunk))
}
