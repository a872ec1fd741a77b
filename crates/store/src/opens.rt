ghost use Rattle.std.specs.Prelude.{◌≡◌, true};
ghost use Rattle.rules.specs.Calls.{opens};
ghost use Rattle.rules.specs.Lists.{within};
ghost use Rattle.rules.specs.Machine.{opening, with_opened};
ghost use Rattle.rules.specs.Reading.{present};
ghost use Rattle.rules.specs.Refusals.{recs, refusal};
ghost use Rattle.checks.specs.Checks.{Checked};
ghost use Rattle.store.specs.Stored.{stored};
ghost use Rattle.store.specs.Opening.{Opened, Closed};

use crate::held::{hold, is_held};
use crate::stores::Store;
use crate::tickets::Ticket;
use flash::Chip;
use scan::Refusal;

impl<C: Chip> Store<C> {
    // What an open is refused for.
    fn check_open(&self, object: u32) -> Result<(), Refusal>
        ensures { Checked (refusal (stored self.now) (opens object)) result }
    {
        checks::open(self.known()?, object, self.is_open(object))
    }

    // The file of an object is open now.
    #[tactic(auto, using(crate::proofs::Opening::opened_present, crate::proofs::Opening::opened_so))]
    fn mark_open(&mut self, object: u32)
        requires real { within 257 511 object ≡ true }
        requires there { present (recs (stored self.old)) object ≡ true }
        ensures { stored self.new ≡ with_opened (stored self.old) (opening object (stored self.old).opened) }
    {
        hold(&mut self.held, object, true);
    }

    // Opens a file, and hands out the ticket for it.
    #[tactic(auto, using(crate::proofs::Opening::opens_clear))]
    pub fn open(&mut self, object: u32) -> Result<Ticket, Refusal>
        ensures { Opened (stored self.old) object result (stored self.new) }
    {
        self.check_open(object)?;
        self.mark_open(object);
        Ok(Ticket::new(object))
    }

    // Closes an open file, of a stopped store too, and takes its ticket back.
    pub fn close(&mut self, ticket: Ticket) -> Result<(), Refusal>
        ensures { Closed (stored self.old) ticket.object result (stored self.new) }
    {
        let object = ticket.spend();
        if !is_held(&self.held, object) {
            return Err(Refusal::NotOpen);
        }
        hold(&mut self.held, object, false);
        Ok(())
    }
}
