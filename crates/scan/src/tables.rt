ghost use Rattle.std.specs.Prelude.{◌≡◌, ◌<◌, true, length, Some};
ghost use Rattle.rules.specs.Mounting.{sizes_fit};
ghost use Rattle.scan.specs.Scans.{AllWhole};
ghost use Rattle.scan.specs.Tables.{TableOf, tag_at};

use flash::{Chip, Look, Sizes, Tag};

// What a scan found: a chip that is on, its sizes, which a store takes, and what a look told of each chunk.
#[derive(Drop)]
pub(crate) struct Scan<'a, C: Chip> {
    pub(crate) chip: &'a C,
    pub(crate) sizes: Sizes,
    pub(crate) rows: &'a [Look],
    ghost table: { TableOf (C.Chip.model chip.now) sizes rows.now },
    ghost fit: { sizes_fit sizes.blocks sizes.chunks ≡ true },
    ghost whole: { AllWhole (C.Chip.model chip.now) },
}

// A record that a scan found: its row, and its four numbers.
#[derive(Drop)]
pub(crate) struct Entry<'s, 'a, C: Chip> {
    pub(crate) scan: &'s Scan<'a, C>,
    pub(crate) row: usize,
    pub(crate) tag: Tag,
    ghost there: { row < length scan.now.rows.now },
    ghost told: { tag_at (C.Chip.model scan.now.chip.now) row ≡ Some tag },
}
