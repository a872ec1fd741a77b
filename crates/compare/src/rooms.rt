use naive::Row;
use std::alloc::{AllocError, Global};

// What a read or a list of each store writes into: a buffer of bytes, and rows.
#[derive(Drop)]
pub struct Room {
    pub bytes: Vec<u8>,
    pub rows: Vec<Row>,
}

// What stands in a room before a call.
const BYTE: u8 = 0xA5;

const ROW: Row = Row {
    object: 77,
    length: 88,
    size: 99,
};

pub const MOST_BYTES: usize = 9000;

pub const MOST_ROWS: usize = 8;

impl Room {
    pub fn new(heap: Global) -> Result<Room, AllocError> {
        Ok(Room {
            bytes: vec![in heap; BYTE; MOST_BYTES]?,
            rows: vec![in heap; ROW; MOST_ROWS]?,
        })
    }

    pub fn clean(&mut self) {
        for byte in self.bytes.iter_mut() {
            *byte = BYTE;
        }
        for row in self.rows.iter_mut() {
            *row = ROW;
        }
    }

    // The first so many bytes.
    pub fn bytes_mut(&mut self, count: usize) -> &mut [u8] {
        self.bytes
            .as_mut_slice()
            .get_mut(..count)
            .unwrap_or(&mut [])
    }

    // The first so many rows.
    pub fn rows_mut(&mut self, count: usize) -> &mut [Row] {
        self.rows.as_mut_slice().get_mut(..count).unwrap_or(&mut [])
    }

    // Whether both hold the same, also beyond what a call wrote.
    pub fn is_like(&self, other: &Room) -> bool {
        self.bytes.as_slice() == other.bytes.as_slice()
            && self.rows.as_slice() == other.rows.as_slice()
    }
}
