ghost use Rattle.std.specs.Prelude.{◌≡◌};
ghost use Rattle.rules.specs.Reading.{topped, replaced, outmarked, has_older, hides_some, in_file, wanted};
ghost use Rattle.tags.specs.Bare.{bare_tag, records};

use flash::{Look, Tag};
use reading::{hidden, present};
use rules::Kind;
use tags::{any, data_of, head_of, hides, kind_of, newer, object_of, same_object};

// Which records are in a file, and which are wanted. Each takes the looks and a record, as the rules' words do: in a
// struct of both each contract would take them out again, and each call would make one anew.

// Whether a newer header or marker of its object stands.
#[tactic(auto, unfolding(rules::specs::Reading::topped))]
fn topped(looks: &[Look], tag: &Tag) -> bool
    ensures { result ≡ topped (records looks.now) (bare_tag tag.now) }
{
    any(
        looks,
        |other| head_of(object_of(tag), &other) && newer(&other, tag),
    )
}

// Whether a newer data record of its object and chunk number stands.
#[tactic(auto, unfolding(rules::specs::Reading::replaced))]
fn replaced(looks: &[Look], tag: &Tag) -> bool
    ensures { result ≡ replaced (records looks.now) (bare_tag tag.now) }
{
    any(
        looks,
        |other| data_of(object_of(tag), tag.first, &other) && newer(&other, tag),
    )
}

// Whether a newer marker of its object stands.
#[tactic(auto, unfolding(rules::specs::Reading::outmarked, rules::specs::Records::kind))]
fn outmarked(looks: &[Look], tag: &Tag) -> bool
    ensures { result ≡ outmarked (records looks.now) (bare_tag tag.now) }
{
    any(
        looks,
        |other| kind_of(&other).is_marker() && same_object(&other, tag) && newer(&other, tag),
    )
}

// Whether an older record of its object stands.
#[tactic(auto, unfolding(rules::specs::Reading::has_older))]
fn has_older(looks: &[Look], tag: &Tag) -> bool
    ensures { result ≡ has_older (records looks.now) (bare_tag tag.now) }
{
    any(
        looks,
        |other| same_object(&other, tag) && newer(tag, &other),
    )
}

// Whether a data record that it hides stands.
#[tactic(auto, unfolding(rules::specs::Reading::hides_some))]
fn hides_some(looks: &[Look], tag: &Tag) -> bool
    ensures { result ≡ hides_some (records looks.now) (bare_tag tag.now) }
{
    any(looks, |other| hides(tag, &other))
}

// Whether the record is a present file's newest header, or a chunk of a present file.
#[tactic(auto, unfolding(rules::specs::Reading::in_file, rules::specs::Records::kind))]
pub fn in_file(looks: &[Look], tag: &Tag) -> bool
    ensures { result ≡ in_file (records looks.now) (bare_tag tag.now) }
{
    match kind_of(tag) {
        Kind::Data => present(looks, object_of(tag))
            && !hidden(looks, tag)
            && !replaced(looks, tag),
        Kind::Header | Kind::CutHeader => !topped(looks, tag),
        Kind::Marker | Kind::Other => false,
    }
}

// Whether the record has to be kept: also a cut header while a data record that it hides stands, and the newest marker
// of an object while an older record of it stands.
#[tactic(auto, unfolding(rules::specs::Reading::wanted, rules::specs::Reading::in_file, rules::specs::Records::kind))]
pub fn wanted(looks: &[Look], tag: &Tag) -> bool
    ensures { result ≡ wanted (records looks.now) (bare_tag tag.now) }
{
    match kind_of(tag) {
        Kind::CutHeader => in_file(looks, tag) || hides_some(looks, tag),
        Kind::Marker => !outmarked(looks, tag) && has_older(looks, tag),
        Kind::Data | Kind::Header | Kind::Other => in_file(looks, tag),
    }
}
