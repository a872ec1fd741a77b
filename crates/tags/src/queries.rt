ghost use Rattle.std.specs.Prelude.{◌≡◌, ℕ, Bool};
ghost use Rattle.std.specs.Iterator.{ActsAs};
ghost use Rattle.flash.specs.declared.chunks.Record.{Record};
ghost use Rattle.rules.specs.Lists.{any, largest};
ghost use Rattle.tags.specs.Bare.{bare_tag, records};

use flash::{Look, Tag};

// The searches take a closure over a record's tag: for every p that it computes of the records, with the data left out,
// they answer what the rules' word says of p.

// Whether some record passes the test.
pub fn any<F: Fn(Tag) -> bool>(looks: &[Look], test: F) -> bool
    requires { F.IsAlwaysCallable test }
    ensures { (p : Record → Bool) → ActsAs F.FnMut test (λ t. p (bare_tag t)) → result ≡ any p (records looks.now) }
{
    looks.iter().filter_map(Look::tag).any(test)
}

// The largest number that a record has, or 0.
pub(crate) fn largest<F: Fn(Tag) -> u32>(looks: &[Look], number: F) -> u32
    requires { F.IsAlwaysCallable number }
    ensures { (f : Record → ℕ) → ActsAs F.FnMut number (λ t. f (bare_tag t)) → result ≡ largest f (records looks.now) }
{
    let tags = looks.iter().filter_map(Look::tag);
    tags.map(number).max().unwrap_or(0)
}

// The highest serial that stands, or 0.
pub fn highest_serial(looks: &[Look]) -> u32
    ensures { result ≡ largest (λ x. x.tag.serial) (records looks.now) }
{
    largest(looks, |tag| tag.serial)
}
