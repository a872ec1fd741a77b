ghost use Rattle.std.specs.Prelude.{◌≡◌};
ghost use Rattle.rules.specs.Calls.{put, cut, opens, closes};
ghost use Rattle.store.specs.Changes.{Changed};
ghost use Rattle.store.specs.Making.{Granted, Makes, call_told, counted_as, collected_as, granted_as};
ghost use Rattle.store.specs.Stored.{stored};

use crate::objects::Object;
use crate::stores::Store;
use cleaning::Counts;
use flash::Chip;
use scan::Refusal;

// One of the nine calls, with its arguments.
#[derive(Clone, Copy, PartialEq, Eq, Debug)]
pub enum Call<'a> {
    Create {
        object: u32,
        name: &'a [u8],
    },
    Put {
        file: Object,
        number: u32,
        bytes: &'a [u8],
    },
    Cut {
        file: Object,
        length: u32,
    },
    Rename {
        object: u32,
        name: &'a [u8],
    },
    Delete {
        object: u32,
    },
    Open {
        object: u32,
    },
    Close {
        file: Object,
    },
    Collect,
    Mount,
}

// What a call answers: a change its counts; a collect the block and the number of copies; open, close and mount nothing
// more.
#[derive(Clone, Copy, PartialEq, Eq, Debug)]
pub enum Answer {
    Counted(Counts),
    Collected { block: usize, copies: usize },
    Granted,
    Refused(Refusal),
}

// The answer of a change.
fn counted(outcome: Result<Counts, Refusal>) -> Answer
    ensures { result ≡ counted_as outcome }
{
    match outcome {
        Ok(counts) => Answer::Counted(counts),
        Err(refusal) => Answer::Refused(refusal),
    }
}

// The answer of a collect.
fn collected(outcome: Result<(usize, usize), Refusal>) -> Answer
    ensures { result ≡ collected_as outcome }
{
    match outcome {
        Ok((block, copies)) => Answer::Collected { block, copies },
        Err(refusal) => Answer::Refused(refusal),
    }
}

// The answer of an open, a close or a mount.
fn granted(outcome: Result<(), Refusal>) -> Answer
    ensures { result ≡ granted_as outcome }
{
    match outcome {
        Ok(()) => Answer::Granted,
        Err(refusal) => Answer::Refused(refusal),
    }
}

impl<C: Chip> Store<C> {
    // A put, with a ticket made for it.
    fn put_to(&mut self, file: Object, number: u32, bytes: &[u8]) -> Result<Counts, Refusal>
        ensures { Changed (stored self.old) (put file.number number bytes.now) result (stored self.new) }
    {
        let ticket = file.ticket();
        let outcome = self.put(&ticket, number, bytes);
        ticket.spend();
        outcome
    }

    // A cut, with a ticket made for it.
    fn cut_to(&mut self, file: Object, length: u32) -> Result<Counts, Refusal>
        ensures { Changed (stored self.old) (cut file.number length) result (stored self.new) }
    {
        let ticket = file.ticket();
        let outcome = self.cut(&ticket, length);
        ticket.spend();
        outcome
    }

    // An open whose ticket is spent. The file stays open.
    fn open_only(&mut self, object: u32) -> Result<(), Refusal>
        ensures { Granted (stored self.old) (opens object) result (stored self.new) }
    {
        self.open(object)?.spend();
        Ok(())
    }

    // Makes a call, with a ticket made for it where it wants one.
    pub fn make(&mut self, call: &Call<'_>) -> Answer
        ensures { Makes (stored self.old) (call_told call.now) result (stored self.new) }
    {
        match *call {
            Call::Create { object, name } => counted(self.create(object, name)),
            Call::Put {
                file,
                number,
                bytes,
            } => counted(self.put_to(file, number, bytes)),
            Call::Cut { file, length } => counted(self.cut_to(file, length)),
            Call::Rename { object, name } => counted(self.rename(object, name)),
            Call::Delete { object } => counted(self.delete(object)),
            Call::Open { object } => granted(self.open_only(object)),
            Call::Close { file } => granted(self.close(file.ticket())),
            Call::Collect => collected(self.collect()),
            Call::Mount => granted(self.mount()),
        }
    }
}
