ghost use Rattle.std.specs.Prelude.{◌≡◌, true, false};
ghost use Rattle.names.specs.Names.{entries_of, Mirrors};
ghost use Rattle.rules.specs.Calls.{next, record_of};
ghost use Rattle.rules.specs.Reading.{files};
ghost use Rattle.rules.specs.Refusals.{Store as RulesStore, recs, is_open, no_serial, refusal};
ghost use Rattle.rules.specs.Right.{accepted};
ghost use Rattle.checks.specs.Checks.{Checked};
ghost use Rattle.store.specs.Stored.{stored};
ghost use Rattle.store.specs.Changes.{Changed, AddTold};
ghost use Rattle.store.specs.Asked.{asked};

use crate::held::is_held;
use crate::stores::Store;
use cleaning::Counts;
use flash::{Chip, Record};
use names::Names;
use scan::Refusal;
use tags::highest_serial;

// One of the five changes, with its arguments.
#[derive(Clone, Copy)]
pub(crate) enum Change<'a> {
    Create {
        object: u32,
        name: &'a [u8],
    },
    Put {
        object: u32,
        number: u32,
        bytes: &'a [u8],
    },
    Cut {
        object: u32,
        length: u32,
    },
    Rename {
        object: u32,
        name: &'a [u8],
    },
    Delete {
        object: u32,
    },
}

// The names of the files follow a change.
fn follow(names: &mut Names, change: &Change<'_>)
    ensures { (st : RulesStore) → refusal st (asked change.now) ≡ 0 → Mirrors (entries_of names.old) (files (recs st)) → Mirrors (entries_of names.new) (accepted (files (recs st)) (asked change.now)) }
{
    match *change {
        Change::Create { object, name } => names.put(object, name),
        Change::Rename { object, name } => names.put(object, name),
        Change::Delete { object } => names.forget(object),
        Change::Put { .. } | Change::Cut { .. } => {}
    }
}

impl<C: Chip> Store<C> {
    // Whether the file of an object is open.
    pub(crate) fn is_open(&self, object: u32) -> bool
        ensures { result ≡ is_open (stored self.now) object }
    {
        is_held(&self.held, object)
    }

    // The serial of the record that a change adds: one above the highest that stands.
    #[tactic(auto, using(crate::proofs::Serials::next_told))]
    fn next_serial(&self) -> u32
        ensures { self.now.running ≡ true → no_serial (recs (stored self.now)) ≡ false → result ≡ next (recs (stored self.now)) }
    {
        highest_serial(self.index.looks()).saturating_add(1)
    }

    // What a change is refused for.
    fn check(&self, change: &Change<'_>) -> Result<(), Refusal>
        ensures { Checked (refusal (stored self.now) (asked change.now)) result }
    {
        let index = self.known()?;
        match *change {
            Change::Create { object, name } => checks::create(index, object, name),
            Change::Put {
                object,
                number,
                bytes,
            } => { checks::put(index, object, self.is_open(object), number, bytes.len()) }
            Change::Cut { object, length } => checks::cut(
                index,
                object,
                self.is_open(object),
                length,
            ),
            Change::Rename { object, name } => checks::rename(
                index,
                object,
                self.is_open(object),
                name,
            ),
            Change::Delete { object } => checks::delete(index, object, self.is_open(object)),
        }
    }

    // The record of a change that is not refused.
    fn draft(&self, change: &Change<'_>) -> Record
        ensures { refusal (stored self.now) (asked change.now) ≡ 0 → result ≡ record_of 2048 (recs (stored self.now)) (asked change.now) }
    {
        let serial = self.next_serial();
        match *change {
            Change::Create { object, name } => drafts::create(object, name, serial),
            Change::Put {
                object,
                number,
                bytes,
            } => drafts::put(object, number, bytes, serial),
            Change::Cut { object, length } => {
                let name = self.index.names.name(object).unwrap_or_default();
                drafts::cut(object, length, name, serial)
            }
            Change::Rename { object, name } => {
                let length = reading::length(self.index.looks(), object).unwrap_or(0);
                drafts::rename(object, name, length, serial)
            }
            Change::Delete { object } => drafts::delete(object, serial),
        }
    }

    // Adds a record. The store is stopped meanwhile, and stays so where the supply fails.
    fn add(&mut self, record: &Record) -> Result<Counts, Refusal>
        ensures played { AddTold (C.Chip.model self.old.chip) self.old.index «record».now result (C.Chip.model self.new.chip) self.new.index }
        ensures stopped { (self.new.running ≡ false) × (self.new.held ≡ self.old.held) }
    {
        self.running = false;
        Ok(cleaning::add(&mut self.chip, &mut self.index, record)?)
    }

    // Makes a change: it is checked, its record is added, and the names follow.
    pub(crate) fn change(&mut self, change: &Change<'_>) -> Result<Counts, Refusal>
        ensures { Changed (stored self.old) (asked change.now) result (stored self.new) }
    {
        self.check(change)?;
        let record = self.draft(change);
        let counts = self.add(&record)?;
        follow(&mut self.index.names, change);
        self.running = true;
        Ok(counts)
    }
}
