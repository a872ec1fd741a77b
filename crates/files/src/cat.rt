ghost use Rattle.std.specs.Prelude.{◌≡◌, MatchResult};
ghost use Rattle.questions.specs.Questions.{Answered};
ghost use Rattle.rules.specs.Calls.{find};
ghost use Rattle.rules.specs.Reading.{files};
ghost use Rattle.rules.specs.Refusals.{recs};
ghost use Rattle.store.specs.Stored.{stored};
ghost use Rattle.files.specs.Answers.{NotAnswered};
ghost use Rattle.files.specs.Cat.{name_table, cat_table, PartAnswered, IsPart};

use image::ImageChip;
use opening::opened;
use scan::Refusal;
use std::alloc::Global;
use store::Store;
use texts::stops::Stop;

// The object of the file of a name.
fn object_of(store: &Store<ImageChip>, name: &[u8]) -> Result<u32, Refusal>
    ensures { Answered (name_table (stored store.now) name.now) result (λ o. find (files (recs (stored store.now))) name.now ≡ Some o) (Unit {0}) }
{
    store.find(name)?.ok_or(Refusal::NotPresent)
}

// The bytes of a file from a position on: all of them, or at most so many.
#[tactic(auto, using(crate::proofs::Parts::part_read))]
fn part_of(
    heap: Global,
    store: &Store<ImageChip>,
    object: u32,
    from: u64,
    count: Option<u64>,
) -> Result<Vec<u8>, Stop>
    ensures { PartAnswered (stored store.now) object from count result }
{
    let left = u64::from(store.size(object)?).saturating_sub(from);
    let room = left.min(count.unwrap_or(left)) as usize;
    let mut part = vec![in heap; 0; room]?;
    store.read(object, from, &mut part)?;
    Ok(part)
}

// The bytes of the file of a name, from a position on: all of them, or at most so many.
#[tactic(auto, using(crate::proofs::Answering::files_same, crate::proofs::Answering::refused_so, crate::proofs::Finding::found_object))]
pub fn cat(
    heap: Global,
    bytes: Vec<u8>,
    name: &[u8],
    from: u64,
    count: Option<u64>,
) -> Result<Vec<u8>, Stop>
    ensures { MatchResult result (λ v. IsPart bytes.items name.now from count v.items) (λ why. NotAnswered bytes.items (cat_table bytes.items name.now) why) }
{
    let store = opened(heap, bytes)?;
    let object = object_of(&store, name)?;
    part_of(heap, &store, object, from, count)
}
