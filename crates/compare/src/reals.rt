use crate::calls::{Answer, Call};
use crate::plains::is_question;
use crate::rooms::{MOST_ROWS, Room};
use crate::values::{answer_of, text_of, value};
use cleaning::Counts;
use flash::{Chip, Fault};
use naive::Name;
use scan::Refusal;
use std::alloc::Global;
use store::{Store, Ticket};

// The proved store, with the tickets that it has handed out.
pub struct Real<C: Chip> {
    store: Store<C>,
    tickets: Vec<Ticket>,
    // whether it is called by values, which need no tickets
    by_value: bool,
}

// A refusal in the plain store's words.
pub fn told(why: Refusal) -> naive::Refusal {
    match why {
        Refusal::Chip(Fault::SupplyFailed(act)) => naive::Refusal::Failed(act),
        Refusal::BadRecord(at) => naive::Refusal::At(10, at),
        Refusal::SerialClash(at) => naive::Refusal::At(11, at),
        _ => naive::Refusal::Number(why.number()),
    }
}

fn done(answer: Result<(), Refusal>) -> Answer {
    match answer {
        Ok(()) => Answer::Done,
        Err(why) => Answer::Refused(told(why)),
    }
}

fn cost(answer: Result<Counts, Refusal>) -> Answer {
    match answer {
        Ok(counts) => Answer::Cost {
            programs: counts.programs as u64,
            erases: counts.erases as u64,
        },
        Err(why) => Answer::Refused(told(why)),
    }
}

fn count(answer: Result<usize, Refusal>) -> Answer {
    match answer {
        Ok(count) => Answer::Count(count as u64),
        Err(why) => Answer::Refused(told(why)),
    }
}

impl<C: Chip> Real<C> {
    pub fn new(heap: Global, store: Store<C>, by_value: bool) -> Real<C> {
        Real {
            store,
            tickets: Vec::new(heap),
            by_value,
        }
    }

    // Gives every ticket back, and then the chip.
    pub fn finish(self) -> C {
        let Real {
            mut store,
            mut tickets,
            by_value: _,
        } = self;
        while let Some(ticket) = tickets.pop() {
            let _ = store.close(ticket);
        }
        tickets.destroy_empty();
        store.release()
    }

    // Where a ticket of an object is.
    fn position(&self, object: u32) -> Option<usize> {
        for (i, ticket) in self.tickets.iter().enumerate() {
            if ticket.object() == object {
                return Some(i);
            }
        }
        None
    }

    fn put(&mut self, object: u32, chunk: u32, bytes: &[u8]) -> Answer {
        let Some(at) = self.position(object) else {
            return Answer::NoTicket;
        };
        match self.tickets.get(at) {
            Some(ticket) => cost(self.store.put(ticket, chunk, bytes)),
            None => Answer::NoTicket,
        }
    }

    fn cut(&mut self, object: u32, length: u32) -> Answer {
        let Some(at) = self.position(object) else {
            return Answer::NoTicket;
        };
        match self.tickets.get(at) {
            Some(ticket) => cost(self.store.cut(ticket, length)),
            None => Answer::NoTicket,
        }
    }

    fn open(&mut self, object: u32) -> Answer {
        let ticket = match self.store.open(object) {
            Ok(ticket) => ticket,
            Err(why) => return Answer::Refused(told(why)),
        };
        match self.tickets.push(ticket) {
            Ok(()) => Answer::Done,
            Err(failed) => {
                let _ = self.store.close(failed.value);
                Answer::Refused(naive::Refusal::Memory)
            }
        }
    }

    fn close(&mut self, object: u32) -> Answer {
        let Some(at) = self.position(object) else {
            return Answer::NoTicket;
        };
        if at >= self.tickets.len() {
            return Answer::NoTicket;
        }
        let ticket = self.tickets.swap_remove(at);
        done(self.store.close(ticket))
    }

    // Cleans once.
    fn collect(&mut self) -> Answer {
        match self.store.collect() {
            Ok((block, copies)) => Answer::Cleaned {
                block: block as u64,
                copies: copies as u64,
            },
            Err(why) => Answer::Refused(told(why)),
        }
    }

    // Makes a call by its value.
    fn change_by_value(&mut self, heap: Global, call: &Call) -> Result<Answer, naive::Refusal> {
        let bytes = text_of(call).bytes(heap)?;
        Ok(match value(call, &bytes) {
            Some(value) => answer_of(self.store.make(&value)),
            None => Answer::NoTicket,
        })
    }

    fn change(&mut self, heap: Global, call: &Call) -> Result<Answer, naive::Refusal> {
        Ok(match *call {
            Call::Format => done(self.store.format()),
            Call::Mount => done(self.store.mount()),
            Call::Collect => self.collect(),
            Call::Create { object, name } => cost(self.store.create(object, &name.bytes(heap)?)),
            Call::Put {
                object,
                chunk,
                bytes,
            } => self.put(object, chunk, &bytes.bytes(heap)?),
            Call::Cut { object, length } => self.cut(object, length),
            Call::Rename { object, name } => cost(self.store.rename(object, &name.bytes(heap)?)),
            Call::Delete { object } => cost(self.store.delete(object)),
            Call::Open { object } => self.open(object),
            Call::Close { object } => self.close(object),
            Call::Find { .. }
            | Call::Name { .. }
            | Call::Size { .. }
            | Call::Read { .. }
            | Call::List { .. } => Answer::Done,
        })
    }

    // The rows as the plain store has them.
    fn list(&self, most: usize, room: &mut Room) -> Answer {
        let mut rows = [rules::Row {
            object: 77,
            length: 88,
            size: 99,
        }; MOST_ROWS];
        let answer = match rows.get_mut(..most) {
            Some(rows) => self.store.list(rows),
            None => self.store.list(&mut []),
        };
        for (to, from) in room.rows.iter_mut().zip(&rows) {
            to.object = from.object;
            to.length = from.length;
            to.size = from.size as u64;
        }
        count(answer)
    }

    fn ask(&self, heap: Global, call: &Call, room: &mut Room) -> Result<Answer, naive::Refusal> {
        Ok(match *call {
            Call::Find { name } => match self.store.find(&name.bytes(heap)?) {
                Ok(object) => Answer::Object(object),
                Err(why) => Answer::Refused(told(why)),
            },
            Call::Name { object } => match self.store.name(object) {
                Ok(name) => Name::new(name).map_or(Answer::NoTicket, Answer::Name),
                Err(why) => Answer::Refused(told(why)),
            },
            Call::Size { object } => match self.store.size(object) {
                Ok(size) => Answer::Size(size as u64),
                Err(why) => Answer::Refused(told(why)),
            },
            Call::Read {
                object,
                position,
                room: most,
            } => {
                let buffer = room.bytes_mut(most);
                count(self.store.read(object, position, buffer))
            }
            Call::List { rows } => self.list(rows, room),
            _ => Answer::Done,
        })
    }

    // What a call answers.
    pub fn make(&mut self, heap: Global, call: &Call, room: &mut Room) -> Answer {
        let answer = if is_question(call) {
            self.ask(heap, call, room)
        } else if self.by_value && !matches!(call, Call::Format) {
            self.change_by_value(heap, call)
        } else {
            self.change(heap, call)
        };
        match answer {
            Ok(answer) => answer,
            Err(why) => Answer::Refused(why),
        }
    }
}
