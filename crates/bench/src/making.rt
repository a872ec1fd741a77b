ghost use Rattle.std.specs.Prelude.{◌≡◌};
ghost use Rattle.bench.specs.Benches.{Made};

use crate::benches::BenchChip;
use crate::plans::Plan;
use flash::{Chunk, Misfit, Sizes, Unmade};

impl BenchChip {
    // A chip of these rows, off; refused where their number is not blocks × chunks.
    pub fn new(rows: Vec<Chunk>, sizes: Sizes, plan: Plan) -> Result<BenchChip, Unmade<BenchChip>>
        ensures { Made rows sizes plan result }
    {
        if rows.len() == sizes.count() {
            return Ok(BenchChip {
                rows,
                sizes,
                on: false,
                plan,
                left: plan.fails,
            });
        }
        let chip = BenchChip {
            rows,
            sizes: Sizes {
                blocks: 0,
                chunks: 0,
            },
            on: true,
            plan,
            left: plan.fails,
        };
        Err(Unmade {
            chip,
            why: Misfit::Length,
        })
    }

    // The rows, as the calls have left them.
    pub fn into_rows(self) -> Vec<Chunk>
        ensures { result ≡ self.rows }
    {
        self.rows
    }

    // Not of `Chip`: the trait has the chip's rules alone, and would ask one method more of whoever writes a chip.
    pub fn is_on(&self) -> bool
        ensures { result ≡ self.now.on }
    {
        self.on
    }
}
