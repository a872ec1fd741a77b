ghost use Rattle.std.specs.Prelude.{◌≡◌, Bool, length, nat_eq};
ghost use Rattle.std.specs.Iterator.{ActsAs};
ghost use Rattle.flash.specs.declared.chunks.Record.{Record};
ghost use Rattle.rules.specs.Lists.{any, keep};
ghost use Rattle.rules.specs.Reading.{once};
ghost use Rattle.tags.specs.Bare.{bare_tag, records};
ghost use Rattle.table.specs.Steps.{first_of};

use flash::{Look, Tag};
use tags::any;

// Whether a record with this serial stands.
pub(crate) fn has_serial(looks: &[Look], serial: u32) -> bool
    ensures { result ≡ any (λ x. nat_eq x.tag.serial serial) (records looks.now) }
{
    any(looks, |tag| tag.serial == serial)
}

// Whether the look tells of a record that passes, and whose serial no earlier look tells of.
pub(crate) fn first_passes<F: Fn(Tag) -> bool>(earlier: &[Look], look: &Look, test: &F) -> bool
    requires { F.IsAlwaysCallable test.now }
    ensures { (p : Record → Bool) → ActsAs F.FnMut test.now (λ t. p (bare_tag t)) → result ≡ first_of p (records earlier.now) look.now }
{
    look.tag()
        .is_some_and(|tag| test(tag) && !has_serial(earlier, tag.serial))
}

// How many records pass, each serial once, at its first place.
pub(crate) fn count_once<F: Fn(Tag) -> bool>(looks: &[Look], test: F) -> usize
    requires { F.IsAlwaysCallable test }
    ensures { (p : Record → Bool) → ActsAs F.FnMut test (λ t. p (bare_tag t)) → result ≡ length (keep p (once (records looks.now))) }
{
    looks
        .iter()
        .enumerate()
        .filter(|(place, look)| first_passes(&looks[..*place], look, &test))
        .count()
}
