ghost use Rattle.std.specs.Prelude.{◌≡◌};
ghost use Rattle.rules.specs.Reading.{highest_chunk, chunk};
ghost use Rattle.tags.specs.Bare.{records};
ghost use Rattle.reading.specs.Sizes.{length_of, last_count, size_at, size_of};

use crate::hiders::{Hiders, NUMBERS};
use crate::reading::{chunk, header};
use flash::Look;
use rules::CHUNK_BYTES;

// How many bytes a full chunk has.
const BYTES: u32 = CHUNK_BYTES as u32;

// The highest chunk number of the object that is not missing, or 0.
pub fn highest_chunk(looks: &[Look], object: u32) -> u32
    ensures { result ≡ highest_chunk (records looks.now) object }
{
    let mut hiders = Hiders {
        object,
        serials: [0; NUMBERS],
    };
    hiders.tell(looks);
    let tags = looks.iter().filter_map(Look::tag);
    tags.filter_map(|tag| hiders.shown_number(&tag))
        .max()
        .unwrap_or(0)
}

// How many chunks the file is long.
pub fn length(looks: &[Look], object: u32) -> Option<u32>
    ensures { result ≡ length_of (records looks.now) object }
{
    let head = header(looks, object)?;
    Some(head.tag.third.max(highest_chunk(looks, object)))
}

// How many bytes the file of an object has, if it is so many chunks long: the last chunk counts as full where it is
// missing.
pub fn size_by(looks: &[Look], object: u32, chunks: u32) -> u64
    ensures { result ≡ size_at chunks (last_count (chunk (records looks.now) object chunks)) }
{
    if chunks == 0 {
        return 0;
    }
    let last = chunk(looks, object, chunks).map_or(BYTES, |found| found.tag.third);
    u64::from(chunks - 1) * u64::from(BYTES) + u64::from(last)
}

// How many bytes the file has: the last chunk counts as full where it is missing.
pub fn size(looks: &[Look], object: u32) -> Option<u64>
    ensures { result ≡ size_of (records looks.now) object }
{
    length(looks, object).map(|chunks| size_by(looks, object, chunks))
}
