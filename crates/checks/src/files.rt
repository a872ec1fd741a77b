ghost use Rattle.std.specs.Prelude.{◌≡◌};
ghost use Rattle.rules.specs.Calls.{delete, opens};
ghost use Rattle.rules.specs.Refusals.{Store, is_open, refusal};
ghost use Rattle.checks.specs.Checks.{Runs, Checked};

use crate::rows::refuse_if;
use crate::telling::no_serial;
use rules::is_object;
use scan::{Index, Refusal};

// An open and a delete ask the same of a file.

// What an open is refused for.
#[tactic(auto, using(crate::proofs::Known::present_told))]
pub fn open(index: &Index, object: u32, open: bool) -> Result<(), Refusal>
    ensures { (st : Store) → Runs st index.now → is_open st object ≡ «open» → Checked (refusal st (opens object)) result }
{
    refuse_if(!is_object(object), Refusal::BadObject)?;
    refuse_if(!index.names.is_there(object), Refusal::NotPresent)?;
    refuse_if(open, Refusal::IsOpen)
}

// What a delete is refused for.
pub fn delete(index: &Index, object: u32, open: bool) -> Result<(), Refusal>
    ensures { (st : Store) → Runs st index.now → is_open st object ≡ «open» → Checked (refusal st (delete object)) result }
{
    self::open(index, object, open)?;
    refuse_if(no_serial(index), Refusal::NoSerial)
}
