ghost use Rattle.std.specs.Prelude.{◌≡◌, IfOk};
ghost use Rattle.flash.specs.Model.{started, blocks_of};
ghost use Rattle.rules.specs.Mounting.{verdict};
ghost use Rattle.scan.specs.Mounts.{verdict_of};
ghost use Rattle.scan.specs.Indexes.{Mounted};

use crate::indexes::Index;
use crate::refusals::Refusal;
use crate::scans::scan_rows;
use crate::starts::start;
use crate::tables::Scan;
use flash::{Chip, Look, Sizes};
use names::Names;
use rules::{MOST_BLOCKS, MOST_CHUNKS, Standing};
use std::alloc::{AllocError, Global};

impl Index {
    // Takes the memory. Nothing is known yet.
    pub fn new(heap: Global) -> Result<Index, AllocError>
        ensures { IfOk result (λ x. (x.sizes.blocks ≡ 0) × (x.sizes.chunks ≡ 0)) }
    {
        let rows = vec![in heap; Look::Blank; MOST_CHUNKS]?;
        let standings = vec![in heap; Standing::Blank; MOST_BLOCKS as usize]?;
        let names = Names::new(heap)?;
        let sizes = Sizes {
            blocks: 0,
            chunks: 0,
        };
        Ok(Index {
            sizes,
            rows,
            standings,
            names,
        })
    }

    // Restarts the chip, checks its sizes, scans it and checks what it holds. Accepted, all that is known is of this chip;
    // refused, the standings stay as they were.
    pub fn mount<C: Chip>(&mut self, chip: &mut C) -> Result<(), Refusal>
        ensures chip { C.Chip.model chip.new ≡ started (C.Chip.model chip.old) }
        ensures answers { verdict_of result ≡ verdict (C.Chip.model chip.old).n (C.Chip.model chip.old).p (blocks_of (C.Chip.model chip.old)) }
        ensures leaves { Mounted (C.Chip.model chip.new) self.old result self.new }
    {
        let sizes = start(chip)?;
        self.sizes = sizes;
        let (count, blocks) = (sizes.count(), sizes.blocks as usize);
        scan_rows(chip, sizes, &mut self.rows[0..count])?;
        let scan = Scan {
            chip,
            sizes,
            rows: &self.rows[0..count],
        };
        scan.examine(&mut self.names)?;
        scan.stand(&mut self.standings[0..blocks]);
        Ok(())
    }
}
