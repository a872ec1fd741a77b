use naive::{Name, Refusal};
use std::alloc::{AllocError, Global};

// Bytes that follow from two numbers.
#[derive(Clone, Copy, PartialEq, Eq, Debug)]
pub struct Text {
    pub length: u32,
    pub seed: u8,
}

// A call with its arguments. Files and tickets go by their object numbers.
#[derive(Clone, Copy, Debug)]
pub enum Call {
    Format,
    Mount,
    Collect,
    Create {
        object: u32,
        name: Text,
    },
    Put {
        object: u32,
        chunk: u32,
        bytes: Text,
    },
    Cut {
        object: u32,
        length: u32,
    },
    Rename {
        object: u32,
        name: Text,
    },
    Delete {
        object: u32,
    },
    Open {
        object: u32,
    },
    Close {
        object: u32,
    },
    Find {
        name: Text,
    },
    Name {
        object: u32,
    },
    Size {
        object: u32,
    },
    Read {
        object: u32,
        position: u64,
        room: usize,
    },
    List {
        rows: usize,
    },
}

// What a call answers, in words that both stores have.
#[derive(Clone, Copy, PartialEq, Eq, Debug)]
pub enum Answer {
    Done,
    // the call takes a ticket, and none is at hand: nothing was called
    NoTicket,
    Cost { programs: u64, erases: u64 },
    Cleaned { block: u64, copies: u64 },
    Object(Option<u32>),
    Name(Name),
    Size(u64),
    // of bytes read, or of rows
    Count(u64),
    Refused(Refusal),
}

impl Text {
    pub fn bytes(self, heap: Global) -> Result<Vec<u8>, AllocError> {
        let mut bytes = Vec::new(heap);
        let mut byte = self.seed;
        for _ in 0..self.length {
            bytes.push(byte)?;
            byte = byte.wrapping_add(7);
        }
        Ok(bytes)
    }
}

impl Answer {
    // The number of the refusal, and 0 of what is not refused.
    pub fn number(self) -> u32 {
        match self {
            Answer::Refused(Refusal::Number(number) | Refusal::At(number, _)) => number,
            Answer::Refused(Refusal::Failed(_)) => 7,
            _ => 0,
        }
    }

    // Whether a list was too short to be worked with, or the rules named no next step: never the same as an answer.
    pub fn is_odd(self) -> bool {
        matches!(self, Answer::Refused(Refusal::Memory | Refusal::Stuck))
    }
}
