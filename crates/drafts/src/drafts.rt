ghost use Rattle.std.specs.Prelude.{◌≡◌, ◌+◌};
ghost use Rattle.rules.specs.Calls.{create, put, cut, rename, delete, name_of, long_of, name_bytes, record_by};
ghost use Rattle.rules.specs.Reading.{Files};
ghost use Rattle.drafts.specs.Drafts.{IsObject, IsName, IsPut};

use crate::filling::{name_bytes, padded};
use flash::{Record, Tag};
use rules::{CHUNK_BYTES, CUT_HEADER, HEADER, MARKER, OBJECT_BASE};

// The four numbers of a header or a marker.
fn head_tag(kind: u32, object: u32, length: u32, serial: u32) -> Tag
    ensures { IsObject object → result ≡ record { first = kind; second = 0x10000000 + object; third = length; serial = serial } }
{
    Tag {
        first: kind,
        second: OBJECT_BASE.saturating_add(object),
        third: length,
        serial,
    }
}

// A header of this kind.
fn header(kind: u32, object: u32, length: u32, name: &[u8], serial: u32) -> Record
    ensures { IsObject object → IsName name.now → result ≡ record { tag = record { first = kind; second = 0x10000000 + object; third = length; serial = serial }; bytes = name_bytes 2048 name.now } }
{
    Record {
        tag: head_tag(kind, object, length, serial),
        bytes: name_bytes(name),
    }
}

// A cut header of length 0 with the name.
pub fn create(object: u32, name: &[u8], serial: u32) -> Record
    ensures { (fs : Files) → IsObject object → IsName name.now → result ≡ record_by 2048 serial fs (create object name.now) }
{
    header(CUT_HEADER, object, 0, name, serial)
}

// A data chunk with the bytes and their count.
pub fn put(object: u32, number: u32, bytes: &[u8], serial: u32) -> Record
    ensures { (fs : Files) → IsPut bytes.now → result ≡ record_by 2048 serial fs (put object number bytes.now) }
{
    Record {
        tag: Tag {
            first: number,
            second: object,
            third: bytes.len().min(CHUNK_BYTES) as u32,
            serial,
        },
        bytes: padded(bytes),
    }
}

// A cut header of this length with the present name.
pub fn cut(object: u32, length: u32, name: &[u8], serial: u32) -> Record
    ensures { (fs : Files) → IsObject object → IsName name.now → name.now ≡ name_of (fs object) → result ≡ record_by 2048 serial fs (cut object length) }
{
    header(CUT_HEADER, object, length, name, serial)
}

// A header with the new name and the present length.
pub fn rename(object: u32, name: &[u8], length: u32, serial: u32) -> Record
    ensures { (fs : Files) → IsObject object → IsName name.now → length ≡ long_of (fs object) → result ≡ record_by 2048 serial fs (rename object name.now) }
{
    header(HEADER, object, length, name, serial)
}

// A marker.
pub fn delete(object: u32, serial: u32) -> Record
    ensures { (fs : Files) → IsObject object → result ≡ record_by 2048 serial fs (delete object) }
{
    Record {
        tag: head_tag(MARKER, object, 0, serial),
        bytes: padded(&[]),
    }
}
