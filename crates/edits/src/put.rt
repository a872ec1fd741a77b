ghost use Rattle.std.specs.Prelude.{MatchResult};
ghost use Rattle.edits.specs.Puts.{IsPut, NotPut};

use crate::creating::object_for;
use crate::edited::{Edited, both};
use crate::progress::Progress;
use crate::refilling::write;
use opening::opened;
use std::alloc::Global;
use texts::stops::Stop;

// The image with the file of a name holding these bytes and no others; where there is none, it is created.
pub fn put<P: Progress>(
    heap: Global,
    bytes: Vec<u8>,
    name: &[u8],
    content: &[u8],
    progress: &mut P,
) -> Result<Edited, Stop>
    ensures { MatchResult result (λ e. IsPut bytes.items name.now content.now e) (λ why. NotPut bytes.items name.now content.now why) }
{
    let mut store = opened(heap, bytes)?;
    let (object, made) = object_for(&mut store, name)?;
    let written = write(&mut store, object, content, progress)?;
    Ok(Edited::of(store, both(made, written)))
}
