ghost use Rattle.std.specs.Prelude.{◌≡◌, nat_lt, slice_index, replicate};
ghost use Rattle.tags.specs.Bare.{records};
ghost use Rattle.reading.specs.Hiders.{hides_above, hider_at, raised, Noted, CarriedOn, shown_by};
ghost use Rattle.reading.specs.Tells.{Tells};

use flash::{Look, Tag};
use rules::{Kind, LAST_NUMBER};
use std::mem;
use tags::{kind_of, object_of};

// The chunk numbers and 0.
pub(crate) const NUMBERS: usize = LAST_NUMBER as usize + 1;

// What hides the chunks of an object, by chunk number: the largest serial of a record that hides there.
#[derive(Drop)]
pub(crate) struct Hiders {
    pub(crate) object: u32,
    pub(crate) serials: [u32; NUMBERS],
}

impl Hiders {
    // Takes up what hides the chunks of the object, among the records that the looks tell of. In place: an answer of 4 KB
    // would be copied.
    pub(crate) fn tell(&mut self, looks: &[Look])
        requires { self.old.serials ≡ replicate 1001 0 }
        ensures object { self.new.object ≡ self.old.object }
        ensures tells { Tells (records looks.now) self.new }
    {
        for tag in looks.iter().filter_map(Look::tag) {
            self.note(&tag);
        }
        self.carry();
    }

    // The chunk number above which the record hides chunks of the object.
    fn hides_above(&self, tag: &Tag) -> Option<u32>
        ensures { result ≡ hides_above self.now.object tag.now }
    {
        if object_of(tag) != self.object {
            return None;
        }
        match kind_of(tag) {
            Kind::Marker => Some(0),
            Kind::CutHeader => Some(tag.third),
            Kind::Data | Kind::Header | Kind::Other => None,
        }
    }

    // Notes a record at the chunk number above which it hides.
    fn note(&mut self, tag: &Tag)
        ensures object { self.new.object ≡ self.old.object }
        ensures noted { Noted (λ k. hider_at self.old.object k tag.now) self.old.serials self.new.serials }
    {
        if let Some(above) = self.hides_above(tag) {
            self.raise(above as usize, tag.serial);
        }
    }

    // Raises the serial at a chunk number where it is less, if there is such a number. By index, since a proof knows
    // no serial after `get_mut`.
    fn raise(&mut self, number: usize, serial: u32)
        ensures object { self.new.object ≡ self.old.object }
        ensures raised { self.new.serials ≡ raised self.old.serials number serial }
    {
        if number < NUMBERS {
            self.serials[number] = self.serials[number].max(serial);
        }
    }

    // Carries each on to all higher numbers: a number gets the largest of those noted below it.
    fn carry(&mut self)
        ensures object { self.new.object ≡ self.old.object }
        ensures carried { CarriedOn self.old.serials self.new.serials }
    {
        let mut most = 0;
        for serial in self.serials.iter_mut() {
            most = most.max(mem::replace(serial, most));
        }
    }

    // Whether what hides at the chunk number of this data record is newer than it.
    fn hide(&self, tag: &Tag) -> bool
        ensures { result ≡ nat_lt tag.now.serial (slice_index self.now.serials tag.now.first) }
    {
        self.serials
            .get(tag.first as usize)
            .is_some_and(|serial| tag.serial < *serial)
    }

    // The chunk number of a data record of the object that is not hidden.
    pub(crate) fn shown_number(&self, tag: &Tag) -> Option<u32>
        ensures { result ≡ shown_by self.now.serials self.now.object tag.now }
    {
        let shown = object_of(tag) == self.object && kind_of(tag).is_data() && !self.hide(tag);
        shown.then_some(tag.first)
    }
}
