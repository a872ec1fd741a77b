ghost use Rattle.std.specs.Prelude.{◌≡◌, not, ◌&&◌, nat_le};
ghost use Rattle.rules.specs.Calls.{long_of};
ghost use Rattle.rules.specs.Lists.{is_there};
ghost use Rattle.rules.specs.Mounting.{limit as most_used};
ghost use Rattle.rules.specs.Reading.{chunk, files, used_by};
ghost use Rattle.rules.specs.Refusals.{Store, recs, no_serial};
ghost use Rattle.checks.specs.Checks.{Runs};

use rules::limit;
use scan::Index;
use table::used;
use tags::highest_serial;

// What an index tells of the chip that it knows, as the checks ask for it.

// Whether a record has the highest serial.
#[tactic(auto, using(crate::proofs::Known::serial_told))]
pub(crate) fn no_serial(index: &Index) -> bool
    ensures { (st : Store) → Runs st index.now → result ≡ no_serial (recs st) }
{
    highest_serial(index.looks()) == u32::MAX
}

// Whether the files use all the chunks that they may.
#[tactic(auto, using(crate::proofs::Known::used_told))]
pub(crate) fn no_room(index: &Index) -> bool
    ensures { (st : Store) → Runs st index.now → result ≡ nat_le (most_used st.n st.p) (used_by (files (recs st))) }
{
    used(index.looks()) >= limit(index.sizes)
}

// Whether an object has a chunk of this number.
#[tactic(auto, using(crate::proofs::Known::chunk_told))]
fn has_chunk(index: &Index, object: u32, number: u32) -> bool
    ensures { (st : Store) → Runs st index.now → result ≡ is_there (chunk (recs st) object number) }
{
    reading::chunk(index.looks(), object, number).is_some()
}

// Whether a chunk put at this number would be one too many.
pub(crate) fn no_room_for(index: &Index, object: u32, number: u32) -> bool
    ensures { (st : Store) → Runs st index.now → result ≡ (not (is_there (chunk (recs st) object number)) && nat_le (most_used st.n st.p) (used_by (files (recs st)))) }
{
    !has_chunk(index, object, number) && no_room(index)
}

// How many chunks the file of an object is long, or 0 where there is none.
#[tactic(auto, using(crate::proofs::Known::long_told))]
pub(crate) fn length_of(index: &Index, object: u32) -> u32
    ensures { (st : Store) → Runs st index.now → result ≡ long_of (files (recs st) object) }
{
    reading::length(index.looks(), object).unwrap_or(0)
}
