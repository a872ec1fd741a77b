ghost use Rattle.std.specs.Prelude.{◌≡◌, ◌&&◌, ◌||◌, nat_lt};
ghost use Rattle.rules.specs.Records.{newer, same_object, kind_by, is_marker, is_cut};
ghost use Rattle.rules.specs.Reading.{head_of, data_of, hides};
ghost use Rattle.tags.specs.Bare.{bare_tag};

use crate::kinds::{kind_of, object_of};
use flash::Tag;

// What the rules say of one or two records, by their tags.

// a is newer than b.
pub fn newer(a: &Tag, b: &Tag) -> bool
    ensures { result ≡ newer (bare_tag a.now) (bare_tag b.now) }
{
    b.serial < a.serial
}

// Both belong to one object.
pub fn same_object(a: &Tag, b: &Tag) -> bool
    ensures { result ≡ same_object (bare_tag a.now) (bare_tag b.now) }
{
    object_of(a) == object_of(b)
}

// A header or marker of the object.
#[tactic(auto, unfolding(rules::specs::Reading::head_of, rules::specs::Records::kind))]
pub fn head_of(object: u32, tag: &Tag) -> bool
    ensures { result ≡ head_of object (bare_tag tag.now) }
{
    let kind = kind_of(tag);
    object_of(tag) == object && (kind.is_header() || kind.is_marker())
}

// A data record of the object with this chunk number.
#[tactic(auto, unfolding(rules::specs::Reading::data_of, rules::specs::Records::kind))]
pub fn data_of(object: u32, number: u32, tag: &Tag) -> bool
    ensures { result ≡ data_of object number (bare_tag tag.now) }
{
    object_of(tag) == object && kind_of(tag).is_data() && tag.first == number
}

// A marker reaches every chunk number, a cut header those above its length.
fn reaches(h: &Tag, number: u32) -> bool
    ensures { result ≡ (is_marker (kind_by h.now.first) || (is_cut (kind_by h.now.first) && nat_lt h.now.third number)) }
{
    let kind = kind_of(h);
    kind.is_marker() || kind.is_cut() && h.third < number
}

// h hides d: an older data record of its object that h reaches.
#[tactic(auto, unfolding(rules::specs::Reading::hides, rules::specs::Records::kind))]
pub fn hides(h: &Tag, d: &Tag) -> bool
    ensures { result ≡ hides (bare_tag h.now) (bare_tag d.now) }
{
    kind_of(d).is_data() && same_object(h, d) && newer(h, d) && reaches(h, d.first)
}
