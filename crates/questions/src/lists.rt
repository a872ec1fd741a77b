ghost use Rattle.std.specs.Prelude.{◌≡◌, ◌≤◌, ◌++◌, length, drop};
ghost use Rattle.rules.specs.Calls.{objects};
ghost use Rattle.rules.specs.Lists.{within};
ghost use Rattle.tags.specs.Bare.{records};
ghost use Rattle.reading.specs.Sizes.{length_of, size_of};
ghost use Rattle.questions.specs.Lists.{narrowed, size_answer, row_by, table_rows};

use flash::Look;
use reading::{length, present, size, size_by};
use rules::{FIRST_OBJECT, LAST_OBJECT, Row, is_object};
use scan::Refusal;

// Each takes the looks and, of one file, the object, as `reading` does: a list would make a struct of both for each object.

// A number of bytes in 32 bits; no file that keeps the rules has more.
fn narrow(bytes: u64) -> u32
    ensures { result ≡ narrowed bytes }
{
    u32::try_from(bytes).unwrap_or(u32::MAX)
}

// How many bytes the file of an object has; 16 or 20 where there is no such file.
pub(crate) fn size_of(looks: &[Look], object: u32) -> Result<u32, Refusal>
    ensures { result ≡ size_answer (within 257 511 object) (size_of (records looks.now) object) }
{
    if !is_object(object) {
        return Err(Refusal::BadObject);
    }
    size(looks, object).map(narrow).ok_or(Refusal::NotPresent)
}

// How many files there are.
pub(crate) fn count_rows(looks: &[Look]) -> usize
    ensures { result ≡ length (table_rows (records looks.now) objects) }
{
    (FIRST_OBJECT..=LAST_OBJECT)
        .filter(|object| present(looks, *object))
        .count()
}

// The row of an object, if it is a file.
fn row_of(looks: &[Look], object: u32) -> Option<Row>
    ensures { result ≡ row_by object (length_of (records looks.now) object) (size_of (records looks.now) object) }
{
    let length = length(looks, object)?;
    Some(Row {
        object,
        length,
        size: narrow(size_by(looks, object, length)),
    })
}

// Writes a row for each file, by rising object number. The rows beyond them stay.
pub(crate) fn list_into(looks: &[Look], rows: &mut [Row])
    requires { length (table_rows (records looks.now) objects) ≤ length rows.old }
    ensures { rows.new ≡ table_rows (records looks.now) objects ++ drop (length (table_rows (records looks.now) objects)) rows.old }
{
    let files = (FIRST_OBJECT..=LAST_OBJECT).filter_map(|object| row_of(looks, object));
    // Tried: `files.zip(rows.iter_mut())`, but after it a proof knows nothing of what the rows' iterator lent.
    for (at, row) in files.enumerate() {
        rows[at] = row;
    }
}
