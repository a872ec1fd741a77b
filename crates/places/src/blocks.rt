ghost use Rattle.std.specs.Prelude.{◌≡◌, length, position};
ghost use Rattle.rules.specs.Lists.{count};
ghost use Rattle.places.specs.Places.{Below, stands_as, is_blank_l};

use flash::Look;
use rules::Standing;

// The first block that stands so.
pub(crate) fn first_standing(standings: &[Standing], wanted: Standing) -> Option<usize>
    ensures value { result ≡ position (stands_as wanted) standings.now }
    ensures within { Below (length standings.now) result }
{
    standings.iter().position(|standing| *standing == wanted)
}

// How many blocks stand so.
#[tactic(auto, using(crate::proofs::Firsts::counted))]
pub fn count_standing(standings: &[Standing], wanted: Standing) -> usize
    ensures { result ≡ count (stands_as wanted) standings.now }
{
    standings
        .iter()
        .filter(|standing| **standing == wanted)
        .count()
}

// The first blank chunk of some rows.
pub(crate) fn first_blank(rows: &[Look]) -> Option<usize>
    ensures value { result ≡ position is_blank_l rows.now }
    ensures within { Below (length rows.now) result }
{
    rows.iter().position(|look| *look == Look::Blank)
}
