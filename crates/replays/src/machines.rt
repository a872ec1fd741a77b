ghost use Rattle.std.specs.Prelude.{◌≡◌};
ghost use Rattle.replays.specs.Machines.{seen, ChipTaken};

use crate::devices::Device;
use std::alloc::Global;
use std::mem;
use store::{Store, Ticket};

// A store on a chip, with the tickets of its open files.
pub struct Stored {
    pub(crate) store: Store<Device>,
    pub(crate) tickets: Vec<Ticket>,
}

// What a script works on. Since a ticket must go back to its store, a machine has to be ended.
pub enum Machine {
    Empty,
    Chip(Device),
    Stored(Stored),
}

impl Stored {
    // Closes every file, ends the store and gives its chip back.
    pub(crate) fn release(self) -> Device
        ensures { seen result ≡ seen self.store.chip }
    {
        let Stored {
            mut store,
            mut tickets,
        } = self;
        while let Some(ticket) = tickets.pop() {
            let _ = store.close(ticket);
        }
        tickets.destroy_empty();
        store.release()
    }
}

impl Machine {
    pub fn new() -> Machine
        ensures { result ≡ Machine.Empty }
    {
        Machine::Empty
    }

    // Closes every file, and lets the chip go.
    pub fn end(self) {
        match self {
            Machine::Empty | Machine::Chip(_) => {}
            Machine::Stored(stored) => drop(stored.release()),
        }
    }

    // Ends what was there, and goes on with this.
    pub(crate) fn set(&mut self, next: Machine)
        ensures { self.new ≡ next }
    {
        mem::replace(self, next).end();
    }

    // Takes the chip out, if it is in no store.
    pub(crate) fn take_chip(&mut self) -> Option<Device>
        ensures { ChipTaken self.old result self.new }
    {
        match mem::replace(self, Machine::Empty) {
            Machine::Chip(device) => Some(device),
            other => {
                self.set(other);
                None
            }
        }
    }
}
