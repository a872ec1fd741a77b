ghost use Rattle.std.specs.Prelude.{◌≡◌, Bool};
ghost use Rattle.std.specs.Iterator.{ActsAs};
ghost use Rattle.flash.specs.declared.chunks.Record.{Record};
ghost use Rattle.rules.specs.Reading.{newest};
ghost use Rattle.tags.specs.Bare.{bare_tag, records};
ghost use Rattle.tags.specs.Finds.{record_of, InPlace};
ghost use Rattle.tags.specs.Steps.{found_in, newer_of};

use crate::tags::newer;
use flash::{Look, Tag};

// A record that was found: the first place at which it stands, and its tag.
#[derive(Clone, Copy)]
pub struct Found {
    pub place: usize,
    pub tag: Tag,
}

impl Found {
    // The record that a look at this place tells of.
    fn at(place: usize, look: &Look) -> Option<Found>
        ensures { result ≡ found_in place look.now }
    {
        look.tag().map(|tag| Found { place, tag })
    }

    // The later one if it is newer.
    fn or_newer(self, later: Found) -> Found
        ensures { result ≡ newer_of self later }
    {
        if newer(&later.tag, &self.tag) {
            later
        } else {
            self
        }
    }
}

// The newest of the records that pass the test.
pub fn newest<F: Fn(Tag) -> bool>(looks: &[Look], test: F) -> Option<Found>
    requires { F.IsAlwaysCallable test }
    ensures value { (p : Record → Bool) → ActsAs F.FnMut test (λ t. p (bare_tag t)) → record_of result ≡ newest p (records looks.now) }
    ensures place { (p : Record → Bool) → ActsAs F.FnMut test (λ t. p (bare_tag t)) → InPlace looks.now result }
{
    looks
        .iter()
        .enumerate()
        .filter_map(|(place, look)| Found::at(place, look))
        .filter(|found| test(found.tag))
        .reduce(Found::or_newer)
}
