ghost use Rattle.std.specs.Prelude.{◌≡◌, ◌≤◌, IfOk, length};
ghost use Rattle.rules.specs.Calls.{padded, put, cut};
ghost use Rattle.scripts.specs.Bytes.{bytes_in};
ghost use Rattle.store.specs.Stored.{stored};
ghost use Rattle.replays.specs.Devices.{device_state};
ghost use Rattle.replays.specs.Calls.{RecordMade, LookTold, FetchTold, done_of, refused_of, counted_of, ChipAnswered, ChangeTold, OpenTold, CloseTold, CollectTold, MountTold, FormatTold, PlaceOf, holds, WithTicket, ChangeAnswered, FindTold, SizeTold, ListTold, ReadTold, AskAnswered};

use crate::answers::{Answer, Misuse};
use crate::devices::Device;
use crate::machines::Stored;
use cleaning::Counts;
use flash::{CHUNK_BYTES, Chip, Fault, Place, Purpose, Record, Tag};
use rules::Row;
use scan::Refusal;
use scripts::{Ask, Change, ChipCall, Data};
use std::alloc::{AllocError, Global};
use store::Ticket;

// What the buffer of a read or a fetch holds before.
const BEFORE: u8 = 0xAA;

// Data that begin with these bytes, and end in zeros.
fn padded(bytes: &[u8]) -> [u8; CHUNK_BYTES]
    ensures { length bytes.now ≤ 2048 → result ≡ padded 2048 bytes.now }
{
    let count = bytes.len().min(CHUNK_BYTES);
    let mut filled = [0; CHUNK_BYTES];
    filled[..count].copy_from_slice(&bytes[..count]);
    filled
}

// A record of these numbers and data; none where there are more data than fit.
pub(crate) fn record(heap: Global, tag: Tag, data: Data<'_>) -> Result<Option<Record>, AllocError>
    ensures { IfOk result (RecordMade tag (bytes_in «data».entry)) }
{
    let given = data.bytes(heap)?;
    if given.len() > CHUNK_BYTES {
        return Ok(None);
    }
    let bytes = padded(&given);
    Ok(Some(Record { tag, bytes }))
}

fn done(answer: Result<(), Fault>) -> Answer
    ensures { result ≡ done_of answer }
{
    match answer {
        Ok(()) => Answer::Done,
        Err(fault) => Answer::Refused(Refusal::Chip(fault)),
    }
}

impl Device {
    fn told(&self, at: Place) -> Answer
        ensures { LookTold (device_state self.now) at result }
    {
        match self.look(at) {
            Ok(look) => Answer::Look(look),
            Err(fault) => Answer::Refused(Refusal::Chip(fault)),
        }
    }

    fn fetched(&self, at: Place) -> Answer
        ensures { FetchTold (device_state self.now) at result }
    {
        let mut buffer = [BEFORE; CHUNK_BYTES];
        match self.fetch(at, &mut buffer) {
            Ok(()) => Answer::Fetched(buffer),
            Err(fault) => Answer::Refused(Refusal::Chip(fault)),
        }
    }

    // What a call of the chip is answered.
    pub(crate) fn answer(&mut self, heap: Global, call: ChipCall<'_>) -> Result<Answer, AllocError>
        ensures { IfOk result (λ a. ChipAnswered (device_state self.old) call.entry a (device_state self.new)) }
    {
        match call {
            ChipCall::Sizes => Ok(Answer::Sizes(self.sizes())),
            ChipCall::Look(at) => Ok(self.told(at)),
            ChipCall::Fetch(at) => Ok(self.fetched(at)),
            ChipCall::Program { at, tag, data } => match record(heap, tag, data)? {
                Some(record) => Ok(done(self.program(Purpose::Adding, at, &record))),
                None => Ok(Answer::Misuse(Misuse::TooLong)),
            },
            ChipCall::Erase { block } => Ok(done(self.erase(block))),
            ChipCall::Restart => {
                self.restart();
                Ok(Answer::Done)
            }
        }
    }
}

fn counted(answer: Result<Counts, Refusal>) -> Answer
    ensures { result ≡ counted_of answer }
{
    match answer {
        Ok(counts) => Answer::Counts(counts),
        Err(refusal) => Answer::Refused(refusal),
    }
}

fn refused(answer: Result<(), Refusal>) -> Answer
    ensures { result ≡ refused_of answer }
{
    match answer {
        Ok(()) => Answer::Done,
        Err(refusal) => Answer::Refused(refusal),
    }
}

// Where a ticket for a file is.
fn place_of(tickets: &[Ticket], object: u32) -> Option<usize>
    ensures { PlaceOf tickets.now object result }
{
    tickets.iter().position(|ticket| ticket.object() == object)
}

impl Stored {
    pub(crate) fn format(&mut self) -> Answer
        ensures { FormatTold (device_state self.old.store.chip) result (device_state self.new.store.chip) }
    {
        refused(self.store.format())
    }

    pub(crate) fn mount(&mut self) -> Answer
        ensures { MountTold (device_state self.old.store.chip) result (device_state self.new.store.chip) }
    {
        refused(self.store.mount())
    }

    pub(crate) fn collect(&mut self) -> Answer
        ensures { CollectTold (stored self.old.store) result (stored self.new.store) }
    {
        match self.store.collect() {
            Ok((block, copies)) => Answer::Cleaned { block, copies },
            Err(refusal) => Answer::Refused(refusal),
        }
    }

    // Opens a file and keeps the ticket.
    fn open(&mut self, object: u32) -> Result<Answer, AllocError>
        ensures { IfOk result (λ a. OpenTold (stored self.old.store) object a (stored self.new.store)) }
    {
        match self.store.open(object) {
            Ok(ticket) => {
                if let Err(failed) = self.tickets.push(ticket) {
                    let _ = self.store.close(failed.value);
                    return Err(AllocError);
                }
                Ok(Answer::Number(object))
            }
            Err(refusal) => Ok(Answer::Refused(refusal)),
        }
    }

    // Closes a file with the ticket that is held for it.
    fn close(&mut self, object: u32) -> Answer
        ensures { WithTicket (holds self.old.tickets.items object) (CloseTold (stored self.old.store) object) (stored self.old.store) result (stored self.new.store) }
    {
        match place_of(&self.tickets, object) {
            Some(at) => refused(self.store.close(self.tickets.swap_remove(at))),
            None => Answer::Misuse(Misuse::NoTicket),
        }
    }

    fn put(&mut self, object: u32, number: u32, bytes: &[u8]) -> Answer
        ensures { WithTicket (holds self.old.tickets.items object) (ChangeTold (stored self.old.store) (put object number bytes.now)) (stored self.old.store) result (stored self.new.store) }
    {
        match place_of(&self.tickets, object) {
            Some(at) => counted(self.store.put(&self.tickets[at], number, bytes)),
            None => Answer::Misuse(Misuse::NoTicket),
        }
    }

    fn cut(&mut self, object: u32, length: u32) -> Answer
        ensures { WithTicket (holds self.old.tickets.items object) (ChangeTold (stored self.old.store) (cut object length)) (stored self.old.store) result (stored self.new.store) }
    {
        match place_of(&self.tickets, object) {
            Some(at) => counted(self.store.cut(&self.tickets[at], length)),
            None => Answer::Misuse(Misuse::NoTicket),
        }
    }

    // What a change, an open or a close is answered.
    pub(crate) fn change(&mut self, heap: Global, change: Change<'_>) -> Result<Answer, AllocError>
        ensures { IfOk result (λ a. ChangeAnswered self.old.tickets.items (stored self.old.store) change.entry a (stored self.new.store)) }
    {
        match change {
            Change::Create { object, name } => Ok(counted(
                self.store.create(object, &name.bytes(heap)?),
            )),
            Change::Rename { object, name } => Ok(counted(
                self.store.rename(object, &name.bytes(heap)?),
            )),
            Change::Delete { object } => Ok(counted(self.store.delete(object))),
            Change::Open { object } => self.open(object),
            Change::Close { object } => Ok(self.close(object)),
            Change::Put {
                object,
                number,
                bytes,
            } => Ok(self.put(object, number, &bytes.bytes(heap)?)),
            Change::Cut { object, length } => Ok(self.cut(object, length)),
        }
    }

    fn find(&self, name: &[u8]) -> Answer
        ensures { FindTold (stored self.now.store) name.now result }
    {
        match self.store.find(name) {
            Ok(found) => Answer::Found(found),
            Err(refusal) => Answer::Refused(refusal),
        }
    }

    fn size(&self, object: u32) -> Answer
        ensures { SizeTold (stored self.now.store) object result }
    {
        match self.store.size(object) {
            Ok(size) => Answer::Number(size),
            Err(refusal) => Answer::Refused(refusal),
        }
    }

    fn list(&self, heap: Global, rows: u32) -> Result<Answer, AllocError>
        ensures { IfOk result (ListTold (stored self.now.store) rows) }
    {
        let mut rows = vec![in heap; Row::default(); rows as usize]?;
        match self.store.list(&mut rows) {
            Ok(count) => {
                rows.truncate(count);
                Ok(Answer::Rows(rows))
            }
            Err(refusal) => Ok(Answer::Refused(refusal)),
        }
    }

    fn read(
        &self,
        heap: Global,
        object: u32,
        position: u64,
        length: u32,
    ) -> Result<Answer, AllocError>
        ensures { IfOk result (ReadTold (stored self.now.store) object position length) }
    {
        let mut buffer = vec![in heap; BEFORE; length as usize]?;
        match self.store.read(object, position, &mut buffer) {
            Ok(count) => Ok(Answer::Read { count, buffer }),
            Err(refusal) => Ok(Answer::Refused(refusal)),
        }
    }

    // What a question is answered.
    pub(crate) fn ask(&self, heap: Global, ask: Ask<'_>) -> Result<Answer, AllocError>
        ensures { IfOk result (AskAnswered (stored self.now.store) ask.entry) }
    {
        match ask {
            Ask::Find { name } => Ok(self.find(&name.bytes(heap)?)),
            Ask::Size { object } => Ok(self.size(object)),
            Ask::List { rows } => self.list(heap, rows),
            Ask::Read {
                object,
                position,
                length,
            } => self.read(heap, object, position, length),
        }
    }
}
