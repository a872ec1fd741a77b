#![tactic(auto, unfolding(crate::specs::Names::name_at))]

ghost use Rattle.std.specs.Prelude.{◌≡◌, ◌≢◌, ℕ, ◌+◌, ◌<◌, List, Decides};
ghost use Rattle.std.specs.Option.{option_map};
ghost use Rattle.rules.specs.Calls.{find};
ghost use Rattle.rules.specs.Lists.{is_there};
ghost use Rattle.rules.specs.Mounting.{two_named};
ghost use Rattle.rules.specs.Reading.{Files, name_taken};
ghost use Rattle.names.specs.Names.{name_at, entries_of, Lowest, Taken, Alike, Mirrors};

use crate::entries::{Names, object_at, place_of};
use crate::name::Name;

impl Names {
    // The name of an object.
    fn get(&self, object: u32) -> Option<&Name>
        ensures { option_map (λ x. x.now) result ≡ name_at (entries_of self.now) object }
    {
        self.entries[place_of(object)?].as_ref()
    }

    // Whether an object has a name, that is, its file is present.
    pub fn is_there(&self, object: u32) -> bool
        ensures { result ≡ is_there (name_at (entries_of self.now) object) }
    {
        self.get(object).is_some()
    }

    // The name of an object, if it has one.
    pub fn name(&self, object: u32) -> Option<&[u8]>
        ensures { option_map (λ x. x.now) result ≡ name_at (entries_of self.now) object }
    {
        self.get(object).map(Name::as_slice)
    }

    // The lowest object that has the name.
    pub fn find(&self, name: &[u8]) -> Option<u32>
        ensures lowest { Lowest (entries_of self.now) name.now 257 result }
        ensures files { (fs : Files) → Mirrors (entries_of self.now) fs → result ≡ find fs name.now }
    {
        self.entries
            .iter()
            .position(|entry| has(entry, name))
            .map(object_at)
    }

    // Whether an object other than this one has the name.
    pub fn taken(&self, object: u32, name: &[u8]) -> bool
        ensures other { Decides result (Taken (entries_of self.now) object name.now) }
        ensures files { (fs : Files) → Mirrors (entries_of self.now) fs → result ≡ name_taken fs object name.now }
    {
        let mut entries = self.entries.iter().enumerate();
        entries.any(|(place, entry)| is_other(place, object) && has(entry, name))
    }

    // Whether two objects have one name.
    pub fn two_alike(&self) -> bool
        ensures alike { Decides result (Alike (entries_of self.now)) }
        ensures files { (fs : Files) → Mirrors (entries_of self.now) fs → result ≡ two_named fs }
    {
        let mut entries = self.entries.iter().enumerate();
        entries.any(|(place, entry)| self.is_repeated(place, entry))
    }

    // Whether a later object has the name that is this one's entry.
    fn is_repeated(&self, place: usize, entry: &Option<Name>) -> bool
        requires { place < 255 }
        ensures { Decides result ((name : List ℕ) × (entry.now ≡ Some name) × (k : ℕ) × (257 + place < k) × (name_at (entries_of self.now) k ≡ Some name)) }
    {
        let Some(name) = entry else {
            return false;
        };
        let name = name.as_slice();
        self.entries[place + 1..]
            .iter()
            .any(|later| has(later, name))
    }
}

// Whether an entry is this name.
fn has(entry: &Option<Name>, name: &[u8]) -> bool
    ensures { Decides result (entry.now ≡ Some name.now) }
{
    entry.as_ref().is_some_and(|kept| kept.as_slice() == name)
}

// Whether an entry is of another object than this one.
fn is_other(place: usize, object: u32) -> bool
    requires { place < 255 }
    ensures { Decides result (257 + place ≢ object) }
{
    object_at(place) != object
}
