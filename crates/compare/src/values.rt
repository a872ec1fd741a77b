use crate::calls::{Answer, Call, Text};
use crate::reals::told;
use store::Object;

// The calls as values that the proved store takes.

const NO_TEXT: Text = Text { length: 0, seed: 0 };

// The name or the bytes of a call.
pub fn text_of(call: &Call) -> Text {
    match *call {
        Call::Create { name, .. } | Call::Rename { name, .. } => name,
        Call::Put { bytes, .. } => bytes,
        _ => NO_TEXT,
    }
}

// The call as a value, with its name or bytes; there is none for a ticket of no object.
pub fn value<'a>(call: &Call, bytes: &'a [u8]) -> Option<store::Call<'a>> {
    Some(match *call {
        Call::Mount => store::Call::Mount,
        Call::Collect => store::Call::Collect,
        Call::Create { object, .. } => store::Call::Create {
            object,
            name: bytes,
        },
        Call::Rename { object, .. } => store::Call::Rename {
            object,
            name: bytes,
        },
        Call::Delete { object } => store::Call::Delete { object },
        Call::Open { object } => store::Call::Open { object },
        Call::Put { object, chunk, .. } => store::Call::Put {
            file: Object::try_from(object).ok()?,
            number: chunk,
            bytes,
        },
        Call::Cut { object, length } => store::Call::Cut {
            file: Object::try_from(object).ok()?,
            length,
        },
        Call::Close { object } => store::Call::Close {
            file: Object::try_from(object).ok()?,
        },
        _ => return None,
    })
}

pub fn answer_of(answer: store::Answer) -> Answer {
    match answer {
        store::Answer::Counted(counts) => Answer::Cost {
            programs: counts.programs as u64,
            erases: counts.erases as u64,
        },
        store::Answer::Collected { block, copies } => Answer::Cleaned {
            block: block as u64,
            copies: copies as u64,
        },
        store::Answer::Granted => Answer::Done,
        store::Answer::Refused(why) => Answer::Refused(told(why)),
    }
}
