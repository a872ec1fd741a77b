ghost use Rattle.std.specs.Prelude.{◌≡◌};
ghost use Rattle.rules.specs.Records.{kind_by, object as object_of};
ghost use Rattle.tags.specs.Bare.{bare_tag};

use flash::Tag;
use rules::{CUT_HEADER, HEADER, Kind, LAST_NUMBER, MARKER, OBJECT_BASE};

// What a record with this tag is; a data record's first number is its chunk number. A function by name: a From would have to
// stand in `rules`, whose type Kind is, and would say no more.
#[tactic(auto, unfolding(rules::specs::Records::kind_by))]
pub fn kind_of(tag: &Tag) -> Kind
    ensures { result ≡ kind_by tag.now.first }
{
    // As a range pattern of the match, this test makes every search more than twice as slow.
    if (1..=LAST_NUMBER).contains(&tag.first) {
        return Kind::Data;
    }
    match tag.first {
        HEADER => Kind::Header,
        CUT_HEADER => Kind::CutHeader,
        MARKER => Kind::Marker,
        _ => Kind::Other,
    }
}

// The object that a record with this tag belongs to. One of no kind belongs to 0, as the rules' word has it, and so may a
// data record: with None for the first, `same_object` would tell apart two that the rules take as one.
#[tactic(auto, unfolding(rules::specs::Records::object, rules::specs::Records::kind))]
pub fn object_of(tag: &Tag) -> u32
    ensures { result ≡ object_of (bare_tag tag.now) }
{
    match kind_of(tag) {
        Kind::Data => tag.second,
        Kind::Header | Kind::CutHeader | Kind::Marker => tag.second.saturating_sub(OBJECT_BASE),
        Kind::Other => 0,
    }
}
