#![tactic(auto, unfolding(crate::specs::Names::name_at))]

ghost use Rattle.std.specs.Prelude.{◌≡◌, length, IfOk, None, Some, MatchBool};
ghost use Rattle.rules.specs.Lists.{within};
ghost use Rattle.names.specs.Names.{name_from, entries_of, Empty, Noted};

use crate::entries::{Names, place_of};
use crate::name::Name;
use rules::{CHUNK_BYTES, OBJECTS};
use std::alloc::{AllocError, Global};

impl Names {
    // A table with no name in it.
    pub fn new(heap: Global) -> Result<Names, AllocError>
        ensures { IfOk result (λ t. Empty (entries_of t)) }
    {
        let entries = vec![in heap; None; OBJECTS]?;
        Ok(Names { entries })
    }

    // Takes every name out.
    pub fn clear(&mut self)
        ensures { Empty (entries_of self.new) }
    {
        self.entries.fill(None);
    }

    // An object has this name now, or none.
    fn set(&mut self, object: u32, name: Option<Name>)
        ensures { Noted (entries_of self.old) object name (entries_of self.new) }
    {
        if let Some(place) = place_of(object) {
            self.entries[place] = name;
        }
    }

    // An object has the name now that its header's data begins with.
    pub fn note(&mut self, object: u32, data: &[u8; CHUNK_BYTES])
        ensures { Noted (entries_of self.old) object (name_from «data».now) (entries_of self.new) }
    {
        self.set(object, Name::of_header(data));
    }

    // An object has no name now.
    pub fn forget(&mut self, object: u32)
        ensures { Noted (entries_of self.old) object None (entries_of self.new) }
    {
        self.set(object, None);
    }

    // An object has this name now; a name that is empty or over 40 bytes changes nothing.
    pub fn put(&mut self, object: u32, name: &[u8])
        ensures { MatchBool (within 1 40 (length name.now)) (Noted (entries_of self.old) object (Some name.now) (entries_of self.new)) (entries_of self.new ≡ entries_of self.old) }
    {
        if let Some(name) = Name::new(name) {
            self.set(object, Some(name));
        }
    }
}
