ghost use Rattle.std.specs.Prelude.{◌≡◌, ◌+◌, ◌-◌, ◌<◌, cond, vec_len, Some, None};
ghost use Rattle.rules.specs.Lists.{within};

use crate::name::Name;
use rules::{FIRST_OBJECT, is_object};

// The name of every present file: 255 entries, one for each object from 257 to 511.
#[derive(Drop)]
pub struct Names {
    pub(crate) entries: Vec<Option<Name>>,
    ghost all: { vec_len entries ≡ 255 },
}

// The place of an object's entry.
pub(crate) fn place_of(object: u32) -> Option<usize>
    ensures { result ≡ cond (within 257 511 object) (Some (object - 257)) None }
{
    is_object(object).then(|| (object - FIRST_OBJECT) as usize)
}

// The object of the entry at a place.
pub(crate) fn object_at(place: usize) -> u32
    requires { place < 255 }
    ensures { result ≡ 257 + place }
{
    FIRST_OBJECT + place as u32
}
