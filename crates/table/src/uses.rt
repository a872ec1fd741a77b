ghost use Rattle.std.specs.Prelude.{◌≡◌};
ghost use Rattle.rules.specs.Reading.{used};
ghost use Rattle.tags.specs.Bare.{records};

use crate::counts::count_once;
use crate::wanting::in_file;
use flash::Look;

// How many chunks the files use: the records that are in a file, each serial once.
#[tactic(auto, unfolding(rules::specs::Reading::used))]
pub fn used(looks: &[Look]) -> usize
    ensures { result ≡ used (records looks.now) }
{
    count_once(looks, |tag| in_file(looks, &tag))
}
