ghost use Rattle.std.specs.Prelude.{◌≡◌, true, false, ◌&&◌, MatchResult};
ghost use Rattle.rules.specs.Lists.{within, is_there};
ghost use Rattle.rules.specs.Reading.{files};
ghost use Rattle.rules.specs.Refusals.{recs};
ghost use Rattle.rules.specs.Runs.{Holds};
ghost use Rattle.scan.specs.declared.refusals.Refusal.TheVariants.{BadObject};
ghost use Rattle.store.specs.Stored.{stored};
ghost use Rattle.edits.specs.Puts.{IsLowest, AllTaken};
ghost use Rattle.edits.specs.Creating.{Makes};

use cleaning::Counts;
use image::ImageChip;
use rules::{FIRST_OBJECT, LAST_OBJECT};
use scan::Refusal;
use store::Store;

// Whether an object has a file.
fn has_file(store: &Store<ImageChip>, object: u32) -> bool
    requires { (stored store.now).running ≡ true }
    ensures { result ≡ (within 257 511 object && is_there (files (recs (stored store.now)) object)) }
{
    store.name(object).is_ok()
}

// The lowest object number that has no file.
fn free_object(store: &Store<ImageChip>) -> Result<u32, Refusal>
    requires { (stored store.now).running ≡ true }
    ensures { MatchResult result (λ o. IsLowest (files (recs (stored store.now))) o) (λ e. (e ≡ BadObject) × AllTaken (files (recs (stored store.now)))) }
{
    for object in FIRST_OBJECT..LAST_OBJECT + 1 {
        if !has_file(store, object) {
            return Ok(object);
        }
    }
    Err(Refusal::BadObject)
}

// The object of the file of a name, which is created where it is not there; and what that cost.
pub(crate) fn object_for(
    store: &mut Store<ImageChip>,
    name: &[u8],
) -> Result<(u32, Counts), Refusal>
    requires holds { Holds 2048 (stored store.old) }
    requires runs { (stored store.old).running ≡ true }
    ensures { Makes (stored store.old) name.now result (stored store.new) }
{
    if let Some(object) = store.find(name)? {
        return Ok((object, Counts::default()));
    }
    let object = free_object(store)?;
    let counts = store.create(object, name)?;
    Ok((object, counts))
}
