ghost use Rattle.std.specs.Prelude.{◌≡◌, ℕ, true, List, length};
ghost use Rattle.rules.specs.Calls.{create, put, cut, rename};
ghost use Rattle.rules.specs.Reading.{present};
ghost use Rattle.rules.specs.Refusals.{Store, recs, is_open, refusal};
ghost use Rattle.checks.specs.Checks.{Runs, Checked};

use crate::rows::{is_count, is_number, refuse_if};
use crate::telling::{length_of, no_room, no_room_for, no_serial};
use rules::{LAST_NUMBER, is_name, is_object};
use scan::{Index, Refusal};

// Each row of a call's table of refusals is a line, by rising number; 15 is not checked here. Whether the file is open, the
// caller tells.

// What a create is refused for.
#[tactic(auto, using(crate::proofs::Known::present_told, crate::proofs::Known::taken_told, crate::proofs::Room::on_create))]
pub fn create(index: &Index, object: u32, name: &[u8]) -> Result<(), Refusal>
    ensures { (st : Store) → Runs st index.now → Checked (refusal st (create object name.now)) result }
{
    refuse_if(!is_object(object), Refusal::BadObject)?;
    refuse_if(!is_name(name), Refusal::BadName)?;
    refuse_if(index.names.is_there(object), Refusal::AlreadyPresent)?;
    refuse_if(index.names.taken(object, name), Refusal::NameTaken)?;
    refuse_if(no_serial(index), Refusal::NoSerial)?;
    refuse_if(no_room(index), Refusal::NoRoom)
}

// What a put of so many bytes is refused for.
pub fn put(index: &Index, object: u32, open: bool, number: u32, count: usize) -> Result<(), Refusal>
    ensures { (st : Store) (bytes : List ℕ) → Runs st index.now → is_open st object ≡ «open» → length bytes ≡ count → («open» ≡ true → present (recs st) object ≡ true) → Checked (refusal st (put object number bytes)) result }
{
    refuse_if(!is_number(number), Refusal::BadNumber)?;
    refuse_if(!is_count(count), Refusal::BadCount)?;
    refuse_if(!open, Refusal::NotOpen)?;
    refuse_if(no_serial(index), Refusal::NoSerial)?;
    refuse_if(no_room_for(index, object, number), Refusal::NoRoom)
}

// What a cut is refused for.
pub fn cut(index: &Index, object: u32, open: bool, length: u32) -> Result<(), Refusal>
    ensures { (st : Store) → Runs st index.now → is_open st object ≡ «open» → Checked (refusal st (cut object length)) result }
{
    refuse_if(length > LAST_NUMBER, Refusal::BadNumber)?;
    refuse_if(!open, Refusal::NotOpen)?;
    refuse_if(length_of(index, object) <= length, Refusal::NotShorter)?;
    refuse_if(no_serial(index), Refusal::NoSerial)
}

// What a rename is refused for.
#[tactic(auto, using(crate::proofs::Known::present_told, crate::proofs::Known::taken_told))]
pub fn rename(index: &Index, object: u32, open: bool, name: &[u8]) -> Result<(), Refusal>
    ensures { (st : Store) → Runs st index.now → is_open st object ≡ «open» → Checked (refusal st (rename object name.now)) result }
{
    refuse_if(!is_object(object), Refusal::BadObject)?;
    refuse_if(!is_name(name), Refusal::BadName)?;
    refuse_if(!index.names.is_there(object), Refusal::NotPresent)?;
    refuse_if(index.names.taken(object, name), Refusal::NameTaken)?;
    refuse_if(open, Refusal::IsOpen)?;
    refuse_if(no_serial(index), Refusal::NoSerial)
}
