ghost use Rattle.rules.specs.Calls.{create, put, cut, rename, delete};
ghost use Rattle.store.specs.Stored.{stored};
ghost use Rattle.store.specs.Changes.{Changed};

use crate::change::Change;
use crate::stores::Store;
use crate::tickets::Ticket;
use cleaning::Counts;
use flash::Chip;
use scan::Refusal;

impl<C: Chip> Store<C> {
    // A file of this name and of length 0.
    pub fn create(&mut self, object: u32, name: &[u8]) -> Result<Counts, Refusal>
        ensures { Changed (stored self.old) (create object name.now) result (stored self.new) }
    {
        self.change(&Change::Create { object, name })
    }

    // The bytes of a chunk of an open file; the file is that long at least.
    pub fn put(&mut self, ticket: &Ticket, number: u32, bytes: &[u8]) -> Result<Counts, Refusal>
        ensures { Changed (stored self.old) (put ticket.now.object number bytes.now) result (stored self.new) }
    {
        let object = ticket.object();
        self.change(&Change::Put {
            object,
            number,
            bytes,
        })
    }

    // An open file as long as this, which is shorter; its chunks above are gone.
    pub fn cut(&mut self, ticket: &Ticket, length: u32) -> Result<Counts, Refusal>
        ensures { Changed (stored self.old) (cut ticket.now.object length) result (stored self.new) }
    {
        let object = ticket.object();
        self.change(&Change::Cut { object, length })
    }

    // Another name for a file that is not open.
    pub fn rename(&mut self, object: u32, name: &[u8]) -> Result<Counts, Refusal>
        ensures { Changed (stored self.old) (rename object name.now) result (stored self.new) }
    {
        self.change(&Change::Rename { object, name })
    }

    // No file.
    pub fn delete(&mut self, object: u32) -> Result<Counts, Refusal>
        ensures { Changed (stored self.old) (delete object) result (stored self.new) }
    {
        self.change(&Change::Delete { object })
    }
}
