ghost use Rattle.std.specs.Prelude.{◌≡◌, ◌≤◌, true};
ghost use Rattle.rules.specs.Calls.{opens};
ghost use Rattle.rules.specs.Refusals.{refusal};
ghost use Rattle.rules.specs.Runs.{Holds};
ghost use Rattle.store.specs.Stored.{stored};
ghost use Rattle.edits.specs.Writing.{Spares, Trims, Fills, Refills, Writes};

use crate::edited::both;
use crate::progress::Progress;
use cleaning::Counts;
use flash::CHUNK_BYTES;
use image::ImageChip;
use scan::Refusal;
use store::{Store, Ticket};

// A file that is short enough already costs nothing.
#[tactic(auto, using(crate::proofs::Trimming::is_25))]
fn spared(refusal: Refusal) -> Result<Counts, Refusal>
    ensures { Spares refusal result }
{
    match refusal {
        Refusal::NotShorter => Ok(Counts::default()),
        other => Err(other),
    }
}

// Makes an open file no longer than this.
fn trim(store: &mut Store<ImageChip>, ticket: &Ticket, length: u32) -> Result<Counts, Refusal>
    requires holds { Holds 2048 (stored store.old) }
    requires runs { (stored store.old).running ≡ true }
    requires lent { (stored store.old).opened ticket.now.object ≡ true }
    requires few { length ≤ 1000 }
    ensures { Trims (stored store.old) ticket.now.object length result (stored store.new) }
{
    match store.cut(ticket, length) {
        Ok(counts) => Ok(counts),
        Err(refusal) => spared(refusal),
    }
}

// Puts the chunks of these bytes to an open file, from chunk 1 on; answers how many they are, and what they cost.
fn fill<P: Progress>(
    store: &mut Store<ImageChip>,
    ticket: &Ticket,
    content: &[u8],
    progress: &mut P,
) -> Result<(u32, Counts), Refusal>
    requires holds { Holds 2048 (stored store.old) }
    requires runs { (stored store.old).running ≡ true }
    requires lent { (stored store.old).opened ticket.now.object ≡ true }
    ensures { Fills (stored store.old) ticket.now.object content.now result (stored store.new) }
{
    let of = content.len().div_ceil(CHUNK_BYTES);
    let mut number = 0;
    let mut counts = Counts::default();
    let mut rest = content;
    while !rest.is_empty() {
        let (chunk, more) = rest.split_at(rest.len().min(CHUNK_BYTES));
        number += 1;
        counts = both(counts, store.put(ticket, number, chunk)?);
        rest = more;
        progress.chunk(number as usize, of);
    }
    Ok((number, counts))
}

// Makes these bytes the whole of an open file.
fn refill<P: Progress>(
    store: &mut Store<ImageChip>,
    ticket: &Ticket,
    content: &[u8],
    progress: &mut P,
) -> Result<Counts, Refusal>
    requires holds { Holds 2048 (stored store.old) }
    requires runs { (stored store.old).running ≡ true }
    requires lent { (stored store.old).opened ticket.now.object ≡ true }
    ensures { Refills (stored store.old) ticket.now.object content.now result (stored store.new) }
{
    let (length, filled) = fill(store, ticket, content, progress)?;
    let trimmed = trim(store, ticket, length)?;
    Ok(both(filled, trimmed))
}

// Opens a file, makes these bytes the whole of it, and closes it whatever came of that.
pub(crate) fn write<P: Progress>(
    store: &mut Store<ImageChip>,
    object: u32,
    content: &[u8],
    progress: &mut P,
) -> Result<Counts, Refusal>
    requires holds { Holds 2048 (stored store.old) }
    requires runs { (stored store.old).running ≡ true }
    requires free { refusal (stored store.old) (opens object) ≡ 0 }
    ensures { Writes (stored store.old) object content.now result (stored store.new) }
{
    let ticket = store.open(object)?;
    let outcome = refill(store, &ticket, content, progress);
    store.close(ticket)?;
    outcome
}
