ghost use Rattle.std.specs.Prelude.{◌≡◌, true, All, IfErr, IfOk, MatchResult, Some, string_bytes};
ghost use Rattle.opening.specs.Opening.{NotOpened};
ghost use Rattle.rules.specs.Calls.{rows};
ghost use Rattle.rules.specs.Reading.{files};
ghost use Rattle.rules.specs.Refusals.{recs};
ghost use Rattle.store.specs.Stored.{stored};
ghost use Rattle.texts.specs.declared.stops.Stop.TheVariants.{Memory};
ghost use Rattle.texts.specs.Texts.{Adds};
ghost use Rattle.files.specs.Listing.{is_plain, byte_text, name_text, numbers_text, row_line, file_line, lines_text, IsFile, IsListed};

use image::ImageChip;
use opening::opened;
use rules::Row;
use std::alloc::{AllocError, Global};
use std::fmt;
use store::Store;
use texts::stops::Stop;

// Whether a byte of a name is shown as it is: printable ASCII, but no backslash.
fn is_plain(byte: u8) -> bool
    ensures { result ≡ is_plain byte }
{
    (b' '..=b'~').contains(&byte) && byte != b'\\'
}

// A byte of a name.
#[tactic(auto, using(std::proofs::lemmas::Fmt::hex_byte))]
fn show_byte(out: &mut String, byte: u8) -> Result<(), AllocError>
    ensures { Adds out.old (byte_text byte) result out.new }
{
    if is_plain(byte) {
        out.push(char::from(byte))
    } else {
        write!(out, "\\x{byte:02x}")
    }
}

fn show_name(out: &mut String, name: &[u8]) -> Result<(), AllocError>
    ensures { Adds out.old (name_text name.now) result out.new }
{
    for byte in name {
        show_byte(out, *byte)?;
    }
    Ok(())
}

// The numbers in the line of a file, in columns.
#[derive(Clone, Copy)]
struct Numbers(Row);

impl fmt::Display for Numbers {
    ghost output = { λ x. Some (numbers_text x.0) };

    #[tactic(auto, using(crate::proofs::Columns::aligned))]
    fn fmt<W: fmt::Write>(&self, f: &mut fmt::Formatter<W>) -> fmt::Result {
        let Row {
            object,
            length,
            size,
        } = self.0;
        write!(f, "{object} {size:>7} {length:>4}")
    }
}

// The line of a file.
fn row_line(out: &mut String, row: &Row, name: &[u8]) -> Result<(), AllocError>
    ensures { Adds out.old (row_line row.now name.now) result out.new }
{
    write!(out, "{} ", Numbers(*row))?;
    show_name(out, name)?;
    writeln!(out)
}

// The line of a file of the store.
#[tactic(auto, using(crate::proofs::Listing::never_zero))]
fn file_line(out: &mut String, store: &Store<ImageChip>, row: &Row) -> Result<(), Stop>
    requires { IsFile (stored store.now) row.now }
    ensures line { Adds out.old (file_line (files (recs (stored store.now))) row.now) result out.new }
    ensures memory { IfErr result (λ e. e ≡ Memory) }
{
    let name = store.name(row.object)?;
    Ok(row_line(out, row, name)?)
}

// The lines of some files of the store.
fn file_lines(out: &mut String, store: &Store<ImageChip>, rows: &[Row]) -> Result<(), Stop>
    requires { All (IsFile (stored store.now)) rows.now }
    ensures lines { Adds out.old (lines_text (files (recs (stored store.now))) rows.now) result out.new }
    ensures memory { IfErr result (λ e. e ≡ Memory) }
{
    for row in rows {
        file_line(out, store, row)?;
    }
    Ok(())
}

// A row for each file of the store, which runs.
#[tactic(auto, using(crate::proofs::Listing::rows_filled, crate::proofs::Listing::never_zero))]
fn rows_of(heap: Global, store: &Store<ImageChip>) -> Result<Vec<Row>, Stop>
    requires { (stored store.now).running ≡ true }
    ensures rows { IfOk result (λ v. v.items ≡ rows (files (recs (stored store.now)))) }
    ensures memory { IfErr result (λ e. e ≡ Memory) }
{
    let mut rows = vec![in heap; Row::default(); store.count_all()?.files]?;
    store.list(&mut rows)?;
    Ok(rows)
}

// A line for each file of an image, by rising object number.
#[tactic(auto, using(crate::proofs::Answering::files_same, crate::proofs::Listing::rows_are_files))]
pub fn ls(heap: Global, bytes: Vec<u8>) -> Result<String, Stop>
    ensures { MatchResult result (λ v. IsListed bytes.items (string_bytes v)) (λ why. NotOpened bytes.items why) }
{
    let store = opened(heap, bytes)?;
    let mut out = String::new(heap);
    file_lines(&mut out, &store, &rows_of(heap, &store)?)?;
    Ok(out)
}
