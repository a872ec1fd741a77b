ghost use Rattle.rules.specs.Runs.{Holds};
ghost use Rattle.store.specs.Stored.{stored};
ghost use Rattle.store.specs.Making.{call_told};
ghost use Rattle.runs.specs.Runs.{MadeRightly};

use flash::Chip;
use store::{Answer, Call, Store};

// Makes one call. Of a store that stands as between the calls of a run, the law holds of that call.
#[tactic(auto, using(crate::proofs::Steps::made_rightly))]
pub fn make<C: Chip>(store: &mut Store<C>, call: &Call) -> Answer
    ensures { Holds 2048 (stored store.old) → MadeRightly (stored store.old) (call_told call.now) result (stored store.new) }
{
    store.make(call)
}
