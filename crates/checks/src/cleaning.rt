ghost use Rattle.std.specs.Prelude.{◌≡◌};
ghost use Rattle.rules.specs.Calls.{collect};
ghost use Rattle.rules.specs.Lists.{any};
ghost use Rattle.rules.specs.Places.{load, is_blank_s};
ghost use Rattle.rules.specs.Refusals.{Store, some_light, refusal};
ghost use Rattle.places.specs.Places.{Told};
ghost use Rattle.scan.specs.Indexes.{stands_in};
ghost use Rattle.checks.specs.Checks.{Runs, Checked};

use crate::rows::refuse_if;
use places::{count_standing, to_clean};
use rules::Standing;
use scan::{Index, Refusal};

// Whether a block is blank.
#[tactic(auto, using(crate::proofs::Light::some_counted))]
fn some_blank(index: &Index) -> bool
    ensures { result ≡ any is_blank_s (stands_in index.now) }
{
    count_standing(index.stands(), Standing::Blank) > 0
}

// Whether a closed block has a load below that of a full one. There is one exactly if the block to clean is such.
#[tactic(auto, using(crate::proofs::Light::light_told))]
fn some_light(index: &Index) -> bool
    ensures { (st : Store) → Runs st index.now → Told st.flash index.now → result ≡ some_light (load st.flash.blocks) st.p 0 st.flash.stand }
{
    to_clean(index).is_some_and(|victim| victim.load < index.sizes.chunks as usize)
}

// What a collect is refused for. The index tells how the blocks stand, too.
pub fn collect(index: &Index) -> Result<(), Refusal>
    ensures { (st : Store) → Runs st index.now → Told st.flash index.now → Checked (refusal st collect) result }
{
    refuse_if(
        some_blank(index) && !some_light(index),
        Refusal::NothingToClean,
    )
}
