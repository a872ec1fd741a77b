ghost use Rattle.std.specs.Prelude.{◌≡◌, Some};
ghost use Rattle.questions.specs.Questions.{Answered};
ghost use Rattle.rules.specs.Calls.{find};
ghost use Rattle.rules.specs.Reading.{files};
ghost use Rattle.rules.specs.Refusals.{recs};
ghost use Rattle.store.specs.Stored.{stored};
ghost use Rattle.files.specs.Cat.{name_table};

use image::ImageChip;
use scan::Refusal;
use store::Store;

// The object of the file of a name.
pub(crate) fn object_of(store: &Store<ImageChip>, name: &[u8]) -> Result<u32, Refusal>
    ensures { Answered (name_table (stored store.now) name.now) result (λ o. find (files (recs (stored store.now))) name.now ≡ Some o) (Unit {0}) }
{
    store.find(name)?.ok_or(Refusal::NotPresent)
}
