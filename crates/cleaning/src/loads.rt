ghost use Rattle.std.specs.Prelude.{◌≡◌, ◌<◌};
ghost use Rattle.flash.specs.Model.{State, blocks_of};
ghost use Rattle.table.specs.Loads.{load_at};
ghost use Rattle.writing.specs.Writing.{Tells};
ghost use Rattle.cleaning.specs.Steps.{MarksLoad};

use rules::MOST_CHUNKS;
use scan::Index;
use table::makes_load;

// Whether a chunk is one of those that make the load of its block.
#[tactic(auto, using(crate::proofs::Marks::marked, crate::proofs::Marks::looks_long, crate::proofs::Marks::unmarked))]
fn is_marked(index: &Index, block: usize, chunk: usize) -> bool
    ensures { (s : State) → Tells s index.now → block < s.n → result ≡ load_at (blocks_of s) block chunk }
{
    let chunks = index.sizes.chunks as usize;
    chunk < chunks && makes_load(index.looks(), chunks, block, chunk)
}

// Which chunks make the load of a block. This is settled before the first of them is copied, since a copy is one more
// record that stands elsewhere.
#[tactic(auto, using(crate::proofs::Marks::all_marked))]
pub(crate) fn mark_load(index: &Index, block: usize) -> [bool; MOST_CHUNKS]
    ensures { MarksLoad index.now block result }
{
    let mut marks = [false; MOST_CHUNKS];
    for (chunk, mark) in marks.iter_mut().enumerate() {
        *mark = is_marked(index, block, chunk);
    }
    marks
}
