use crate::calls::{Answer, Call};
use crate::rooms::Room;
use naive::{Cost, PlainStore, Refusal};
use std::alloc::Global;

// The plain store's answers.

fn done(told: Result<(), Refusal>) -> Answer {
    match told {
        Ok(()) => Answer::Done,
        Err(why) => Answer::Refused(why),
    }
}

fn cost(told: Result<Cost, Refusal>) -> Answer {
    match told {
        Ok(cost) => Answer::Cost {
            programs: cost.programs as u64,
            erases: cost.erases as u64,
        },
        Err(why) => Answer::Refused(why),
    }
}

fn count(told: Result<u64, Refusal>) -> Answer {
    match told {
        Ok(count) => Answer::Count(count),
        Err(why) => Answer::Refused(why),
    }
}

// The calls that may change something.
pub fn change(heap: Global, store: &mut PlainStore, call: &Call) -> Result<Answer, Refusal> {
    Ok(match *call {
        Call::Format => done(store.format()),
        Call::Mount => done(store.mount()),
        Call::Collect => match store.collect() {
            Ok((block, copies)) => Answer::Cleaned {
                block: block as u64,
                copies: copies as u64,
            },
            Err(why) => Answer::Refused(why),
        },
        Call::Create { object, name } => cost(store.create(object, &name.bytes(heap)?)),
        Call::Put {
            object,
            chunk,
            bytes,
        } => cost(store.put(object, chunk, &bytes.bytes(heap)?)),
        Call::Cut { object, length } => cost(store.cut(object, length)),
        Call::Rename { object, name } => cost(store.rename(object, &name.bytes(heap)?)),
        Call::Delete { object } => cost(store.delete(object)),
        Call::Open { object } => done(store.open(object)),
        Call::Close { object } => done(store.close(object)),
        Call::Find { .. }
        | Call::Name { .. }
        | Call::Size { .. }
        | Call::Read { .. }
        | Call::List { .. } => Answer::Done,
    })
}

// The questions.
pub fn ask(
    heap: Global,
    store: &PlainStore,
    call: &Call,
    room: &mut Room,
) -> Result<Answer, Refusal> {
    Ok(match *call {
        Call::Find { name } => Answer::Object(store.find(&name.bytes(heap)?)?),
        Call::Name { object } => Answer::Name(store.name(object)?),
        Call::Size { object } => Answer::Size(store.size(object)?),
        Call::Read {
            object,
            position,
            room: most,
        } => {
            let buffer = room.bytes_mut(most);
            count(store.read(object, position, buffer))
        }
        Call::List { rows } => {
            let rows = room.rows_mut(rows);
            Answer::Count(store.list(rows)? as u64)
        }
        _ => Answer::Done,
    })
}

pub fn is_question(call: &Call) -> bool {
    matches!(
        call,
        Call::Find { .. }
            | Call::Name { .. }
            | Call::Size { .. }
            | Call::Read { .. }
            | Call::List { .. }
    )
}

// What a call answers.
pub fn make(heap: Global, store: &mut PlainStore, call: &Call, room: &mut Room) -> Answer {
    let answer = if is_question(call) {
        ask(heap, store, call, room)
    } else {
        change(heap, store, call)
    };
    match answer {
        Ok(answer) => answer,
        Err(why) => Answer::Refused(why),
    }
}
