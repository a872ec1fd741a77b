ghost use Rattle.std.specs.Prelude.{◌≡◌, ◌+◌, ◌≤◌, ◌↔◌, IsTrue, length};
ghost use Rattle.flash.specs.Chunks.{look_of, Whole, WholeChunk};
ghost use Rattle.image.specs.Format.{le32, data_of, chunk_of};
ghost use Rattle.image.specs.Codes.{code_of};
ghost use Rattle.image.specs.Places.{AllBlank};

use flash::{CHUNK_BYTES, Look, Record, Tag};

// How many bytes each chunk takes, and where in a chunk the data begins.
pub(crate) const CHUNK: usize = 2065;

const DATA: usize = 17;

// The state bytes of a blank chunk and of one that holds a record.
pub(crate) const BLANK: u8 = 0xFF;

pub(crate) const RECORD: u8 = 1;

// What the bytes of a chunk say.
pub(crate) fn look_at(chunk: &[u8; CHUNK]) -> Look
    ensures tells { result ≡ look_of (chunk_of chunk.now) }
    ensures whole { WholeChunk (chunk_of chunk.now) }
{
    let (numbers, _) = chunk[1..DATA].as_chunks();
    match chunk[0] {
        BLANK => Look::Blank,
        RECORD => Look::Record(Tag {
            first: u32::from_le_bytes(numbers[0]),
            second: u32::from_le_bytes(numbers[1]),
            third: u32::from_le_bytes(numbers[2]),
            serial: u32::from_le_bytes(numbers[3]),
        }),
        _ => Look::Damaged,
    }
}

// Copies the data bytes of a chunk.
#[tactic(auto, using(crate::proofs::Coded::all_data))]
pub(crate) fn copy_data(chunk: &[u8; CHUNK], buffer: &mut [u8; CHUNK_BYTES])
    ensures { buffer.new ≡ data_of chunk.now }
{
    buffer.copy_from_slice(&chunk[DATA..CHUNK]);
}

// Makes the bytes of a chunk those of a record, in place.
pub(crate) fn write(record: &Record, chunk: &mut [u8])
    requires { length chunk.old ≡ 2065 }
    ensures value { chunk.new ≡ code_of «record».now }
    ensures whole { Whole «record».now }
{
    let Record { tag, bytes } = record;
    let Tag {
        first,
        second,
        third,
        serial,
    } = *tag;
    let numbers = [
        first.to_le_bytes(),
        second.to_le_bytes(),
        third.to_le_bytes(),
        serial.to_le_bytes(),
    ];
    chunk[0] = RECORD;
    chunk[1..DATA].copy_from_slice(numbers.as_flattened());
    chunk[DATA..CHUNK].copy_from_slice(bytes);
}

// Whether all these chunks are blank. One for `bench` and `scan` too would take the test with the slice, and so be `all`.
pub(crate) fn all_blank(chunks: &[[u8; CHUNK]]) -> bool
    ensures { IsTrue result ↔ AllBlank chunks.now }
{
    chunks.iter().all(|chunk| chunk[0] == BLANK)
}
