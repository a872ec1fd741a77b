ghost use Rattle.std.specs.Prelude.{◌≡◌};
ghost use Rattle.flash.specs.Model.{started};
ghost use Rattle.flash.specs.Writes.{Programmed, Erased};
ghost use Rattle.bench.specs.Acts.{ByPlan, ProgramActs, EraseActs, Restarted};
ghost use Rattle.bench.specs.Benches.{state_of};

use crate::benches::BenchChip;
use crate::rows::all_blank;
use flash::{Act, CHUNK_BYTES, Chip, Chunk, Fault, Look, Place, Purpose, Record, Sizes};
use std::ops::Range;

impl Chip for BenchChip {
    ghost model = { state_of };

    fn sizes(&self) -> Sizes {
        self.sizes
    }

    fn look(&self, at: Place) -> Result<Look, Fault> {
        let row = self.row(at)?;
        Ok(self.rows[row].look())
    }

    fn fetch(&self, at: Place, buffer: &mut [u8; CHUNK_BYTES]) -> Result<(), Fault> {
        let row = self.row(at)?;
        let Chunk::Holds(record) = &self.rows[row] else {
            return Err(Fault::NoRecord);
        };
        *buffer = record.bytes;
        Ok(())
    }

    fn program(&mut self, purpose: Purpose, at: Place, record: &Record) -> Result<(), Fault>
        ensures rules { Programmed (state_of self.old) purpose at «record».now result (state_of self.new) }
        ensures plan { ByPlan self.old result self.new (ProgramActs self.old at «record».now self.new) }
    {
        let row = self.row(at)?;
        let Range { start, end } = self.rows_from(row, at);
        if !all_blank(&self.rows[start..end]) {
            return Err(Fault::NotBlank);
        }
        self.rows[start] = self.filled(at.chunk, record);
        self.count(purpose.at(at))
    }

    #[tactic(auto, using(crate::proofs::Acting::erased))]
    fn erase(&mut self, block: u32) -> Result<(), Fault>
        ensures rules { Erased (state_of self.old) block result (state_of self.new) }
        ensures plan { ByPlan self.old result self.new (EraseActs self.old block self.new) }
    {
        if !self.on {
            return Err(Fault::Off);
        }
        if block >= self.sizes.blocks {
            return Err(Fault::NoSuchPlace);
        }
        self.remake(block);
        self.count(Act::Erasing(block))
    }

    fn restart(&mut self)
        ensures rules { state_of self.new ≡ started (state_of self.old) }
        ensures plan { Restarted self.old self.new }
    {
        self.on = true;
    }
}
