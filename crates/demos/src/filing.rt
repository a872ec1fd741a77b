ghost use Rattle.std.specs.Prelude.{◌≡◌, true, All, IfErr, IfOk};
ghost use Rattle.files.specs.Listing.{IsFile};
ghost use Rattle.rules.specs.Calls.{rows};
ghost use Rattle.rules.specs.Reading.{files};
ghost use Rattle.rules.specs.Refusals.{recs};
ghost use Rattle.store.specs.Stored.{stored};
ghost use Rattle.texts.specs.declared.stops.Stop.TheVariants.{Memory};
ghost use Rattle.texts.specs.Texts.{Adds};
ghost use Rattle.demos.specs.Demos.{NotTold, all_lines};
ghost use Rattle.demos.specs.Telling.{file_line, file_lines};

use crate::telling::quoted;
use bench::BenchChip;
use rules::{CHUNK_BYTES, Row};
use std::alloc::Global;
use store::Store;
use texts::stops::Stop;

// The line of a file of the store, with its first bytes.
fn file_line(out: &mut String, store: &Store<BenchChip>, row: &Row) -> Result<(), Stop>
    requires { IsFile (stored store.now) row.now }
    ensures line { Adds out.old (file_line (files (recs (stored store.now))) row.now) result out.new }
    ensures memory { IfErr result (λ e. e ≡ Memory) }
{
    let Row {
        object,
        length,
        size,
    } = *row;
    write!(out, "file {object} ")?;
    quoted(out, store.name(object)?)?;
    write!(out, ", length {length}, {size} bytes: ")?;
    let mut bytes = [0; CHUNK_BYTES];
    let count = store.read(object, 0, &mut bytes)?;
    quoted(out, &bytes[..count])?;
    Ok(writeln!(out)?)
}

// The lines of some files of the store.
fn some_lines(out: &mut String, store: &Store<BenchChip>, rows: &[Row]) -> Result<(), Stop>
    requires { All (IsFile (stored store.now)) rows.now }
    ensures lines { Adds out.old (file_lines (files (recs (stored store.now))) rows.now) result out.new }
    ensures memory { IfErr result (λ e. e ≡ Memory) }
{
    for row in rows {
        file_line(out, store, row)?;
    }
    Ok(())
}

// A row for each file of the store.
fn rows_of(heap: Global, store: &Store<BenchChip>) -> Result<Vec<Row>, Stop>
    ensures runs { IfOk result (λ v. (stored store.now).running ≡ true) }
    ensures rows { IfOk result (λ v. v.items ≡ rows (files (recs (stored store.now)))) }
    ensures refused { IfErr result NotTold }
{
    let mut rows = vec![in heap; Row::default(); store.count_all()?.files]?;
    store.list(&mut rows)?;
    Ok(rows)
}

// A line for each file of the store, by rising object number.
pub(crate) fn all_lines(
    heap: Global,
    out: &mut String,
    store: &Store<BenchChip>,
) -> Result<(), Stop>
    ensures lines { Adds out.old (all_lines (stored store.now)) result out.new }
    ensures refused { IfErr result NotTold }
{
    let rows = rows_of(heap, store)?;
    some_lines(out, store, &rows)
}
