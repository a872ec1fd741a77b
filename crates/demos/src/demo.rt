ghost use Rattle.std.specs.Prelude.{◌≡◌, MatchResult, string_bytes};
ghost use Rattle.bench.specs.Benches.{state_of};
ghost use Rattle.image.specs.Blanks.{BlankChip};
ghost use Rattle.texts.specs.declared.stops.Stop.TheVariants.{Memory};
ghost use Rattle.demos.specs.Demos.{Demonstrated, NotTold};

use crate::filing::all_lines;
use crate::scenes::play;
use crate::story;
use bench::{BenchChip, Plan};
use flash::{Chip, Chunk, Sizes};
use lines::chunks::chip_lines;
use std::alloc::Global;
use store::Object;
use texts::stops::Stop;

// A blank chip of three blocks of four, off.
fn blank_chip(heap: Global, plan: Plan) -> Result<BenchChip, Stop>
    ensures { MatchResult result (λ s. BlankChip 3 4 (state_of s)) (λ e. e ≡ Memory) }
{
    let rows = vec![in heap; Chunk::Blank; 12]?;
    let sizes = Sizes {
        blocks: 3,
        chunks: 4,
    };
    Ok(BenchChip::new(rows, sizes, plan)?)
}

// A store at work while the supply of its chip fails in a cleaning, and the files afterwards.
pub fn demo(heap: Global) -> Result<String, Stop>
    ensures { MatchResult result (λ v. Demonstrated (string_bytes v)) NotTold }
{
    let file = Object::try_from(257)?;
    let mut out = String::new(heap);
    out.push_str(story::BEGINS)?;
    let chip = blank_chip(heap, story::PLAN)?;
    let store = play(heap, &mut out, chip, &story::first(file))?;
    out.push_str(story::FAILS)?;
    let mut chip = store.release();
    chip.restart();
    chip_lines(&mut out, &chip)?;
    out.push_str(story::GOES_ON)?;
    let store = play(heap, &mut out, chip, &story::second(file))?;
    out.push_str(story::ENDS)?;
    all_lines(heap, &mut out, &store)?;
    Ok(out)
}
