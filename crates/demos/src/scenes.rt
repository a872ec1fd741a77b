ghost use Rattle.std.specs.Prelude.{map, string_bytes};
ghost use Rattle.bench.specs.Benches.{state_of};
ghost use Rattle.store.specs.Making.{call_told};
ghost use Rattle.demos.specs.Demos.{Plays};

use crate::telling::call_lines;
use bench::BenchChip;
use runs::{Answer, Call, run};
use std::alloc::Global;
use store::Store;
use texts::stops::Stop;

// Makes calls on a store over the chip, and tells each with its answer.
pub(crate) fn play(
    heap: Global,
    out: &mut String,
    chip: BenchChip,
    calls: &[Call<'_>],
) -> Result<Store<BenchChip>, Stop>
    ensures { Plays (state_of chip) (map call_told calls.now) (string_bytes out.old) result (string_bytes out.new) }
{
    let Ok(mut store) = Store::attach(heap, chip) else {
        return Err(Stop::Memory);
    };
    let mut answers = vec![in heap; Answer::Granted; calls.len()]?;
    run(&mut store, calls, &mut answers)?;
    call_lines(out, calls, &answers)?;
    Ok(store)
}
