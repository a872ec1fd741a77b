ghost use Rattle.std.specs.Prelude.{map};
ghost use Rattle.store.specs.Stored.{stored};
ghost use Rattle.store.specs.Making.{call_told};
ghost use Rattle.runs.specs.Runs.{Ran};

use flash::Chip;
use scan::Refusal;
use store::{Answer, Call, Store};

// Mounts the store and, where mount accepts, makes the calls of the list, one after the other, and writes the answer of each
// into its row: as many calls as there are rows. Answers how many calls were made.
pub fn run<C: Chip>(
    store: &mut Store<C>,
    calls: &[Call],
    answers: &mut [Answer],
) -> Result<usize, Refusal>
    ensures { Ran (stored store.old) (map call_told calls.now) answers.old result (stored store.new) answers.new }
{
    store.mount()?;
    let count = calls.len().min(answers.len());
    for (at, call) in calls[..count].iter().enumerate() {
        answers[at] = store.make(call);
    }
    Ok(count)
}
