ghost use Rattle.std.specs.Prelude.{◌≡◌, ◌*◌, ◌<◌, vec_len, vec_items};
ghost use Rattle.flash.specs.Model.{started};
ghost use Rattle.flash.specs.Writes.{Programmed, Erased};
ghost use Rattle.bench.specs.Benches.{state_of};
ghost use Rattle.replays.specs.Devices.{BenchOf, BenchTwins, Planned, RowSet};

use crate::benches::Bench;
use bench::{BenchChip, Plan};
use flash::{Chip, Chunk, Fault, Place, Purpose, Record, Sizes};
use std::alloc::{AllocError, Global};

// What is left of a plan after a call that this was answered.
fn after(plan: Plan, answer: Result<(), Fault>) -> Plan {
    match answer {
        Ok(()) | Err(Fault::SupplyFailed(_)) => Plan {
            fails: plan.fails.saturating_sub(1),
            ..plan
        },
        Err(_) => plan,
    }
}

// A bench chip of these rows, with this power, whose plan counts from now on.
pub(crate) fn of_rows(rows: Vec<Chunk>, sizes: Sizes, plan: Plan, on: bool) -> Bench
    requires { vec_len rows ≡ sizes.blocks * sizes.chunks }
    ensures { BenchOf (vec_items rows) sizes plan on result }
{
    let mut chip = match BenchChip::new(rows, sizes, plan) {
        Ok(chip) => chip,
        Err(unmade) => unmade.chip,
    };
    if on {
        chip.restart();
    }
    Bench { chip, plan }
}

impl Bench {
    // The same chip with another plan.
    pub(crate) fn planned(self, plan: Plan) -> Bench
        ensures { Planned self plan result }
    {
        let Bench { chip, .. } = self;
        let (on, sizes) = (chip.is_on(), chip.sizes());
        of_rows(chip.into_rows(), sizes, plan, on)
    }

    // The same chip with this in a chunk.
    pub(crate) fn with_chunk(self, at: Place, chunk: Chunk) -> Bench
        requires { (at.block < self.chip.sizes.blocks) × (at.chunk < self.chip.sizes.chunks) }
        ensures { RowSet self at chunk result }
    {
        let Bench { chip, plan } = self;
        let (on, sizes) = (chip.is_on(), chip.sizes());
        let mut rows = chip.into_rows();
        rows[sizes.row(at)] = chunk;
        of_rows(rows, sizes, plan, on)
    }

    // The same chip, and a copy of it that is on.
    pub(crate) fn twins(self, heap: Global) -> (Bench, Result<Bench, AllocError>)
        ensures { BenchTwins self result }
    {
        let Bench { chip, plan } = self;
        let (on, sizes) = (chip.is_on(), chip.sizes());
        let rows = chip.into_rows();
        let copy = Vec::from_slice(heap, &rows);
        let bench = of_rows(rows, sizes, plan, on);
        match copy {
            Ok(rows) => (bench, Ok(of_rows(rows, sizes, plan, true))),
            Err(error) => (bench, Err(error)),
        }
    }

    pub(crate) fn program(
        &mut self,
        purpose: Purpose,
        at: Place,
        record: &Record,
    ) -> Result<(), Fault>
        ensures { Programmed (state_of self.old.chip) purpose at «record».now result (state_of self.new.chip) }
    {
        let answer = self.chip.program(purpose, at, record);
        self.plan = after(self.plan, answer);
        answer
    }

    pub(crate) fn erase(&mut self, block: u32) -> Result<(), Fault>
        ensures { Erased (state_of self.old.chip) block result (state_of self.new.chip) }
    {
        let answer = self.chip.erase(block);
        self.plan = after(self.plan, answer);
        answer
    }

    pub(crate) fn restart(&mut self)
        ensures { state_of self.new.chip ≡ started (state_of self.old.chip) }
    {
        self.chip.restart();
    }
}
