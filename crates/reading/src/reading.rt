ghost use Rattle.std.specs.Prelude.{◌≡◌};
ghost use Rattle.rules.specs.Reading.{header, present, hidden, chunk};
ghost use Rattle.tags.specs.Bare.{bare_tag, records};
ghost use Rattle.tags.specs.Finds.{record_of, InPlace};

use flash::{Look, Tag};
use tags::{Found, any, data_of, head_of, hides, kind_of, newest};

// The reading rule. Each takes the looks and the object, as the rules' words do: in a struct of both each contract would
// take them out again, and a caller that asks for every object would make one for each.

// The newest header of a present file: the newest head, if that is a header and not a marker.
#[tactic(auto, unfolding(rules::specs::Reading::header, rules::specs::Records::kind))]
pub fn header(looks: &[Look], object: u32) -> Option<Found>
    ensures value { record_of result ≡ header (records looks.now) object }
    ensures place { InPlace looks.now result }
{
    newest(looks, |tag| head_of(object, &tag)).filter(|head| kind_of(&head.tag).is_header())
}

// Whether the object is a present file.
#[tactic(auto, unfolding(rules::specs::Reading::present))]
pub fn present(looks: &[Look], object: u32) -> bool
    ensures { result ≡ present (records looks.now) object }
{
    header(looks, object).is_some()
}

// Whether some record hides this one.
#[tactic(auto, unfolding(rules::specs::Reading::hidden))]
pub fn hidden(looks: &[Look], tag: &Tag) -> bool
    ensures { result ≡ hidden (records looks.now) (bare_tag tag.now) }
{
    any(looks, |other| hides(&other, tag))
}

// A chunk of a file, unless it is missing: the newest data record of its number, unless that is hidden.
#[tactic(auto, unfolding(rules::specs::Reading::chunk, rules::specs::Reading::hidden))]
pub fn chunk(looks: &[Look], object: u32, number: u32) -> Option<Found>
    ensures value { record_of result ≡ chunk (records looks.now) object number }
    ensures place { InPlace looks.now result }
{
    newest(looks, |tag| data_of(object, number, &tag)).filter(|found| !hidden(looks, &found.tag))
}
