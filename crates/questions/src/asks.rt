ghost use Rattle.std.specs.Prelude.{◌≡◌};
ghost use Rattle.flash.specs.Model.{State, view_of};
ghost use Rattle.rules.specs.Refusals.{size_table};
ghost use Rattle.scan.specs.Indexes.{Knows};
ghost use Rattle.questions.specs.Questions.{asked, Answered, OfFile, FindAnswered, SizeAnswered, ReadAnswered, ListAnswered};

use crate::lists::{count_rows, list_into, size_of};
use crate::reads::read_from;
use flash::Chip;
use rules::{Row, is_name, is_object};
use scan::{Index, Refusal};

// The object of the file that has the name, if there is one.
pub fn find(index: &Index, name: &[u8]) -> Result<Option<u32>, Refusal>
    ensures { (s : State) → Knows (view_of s) index.now → FindAnswered (asked s) name.now result }
{
    if !is_name(name) {
        return Err(Refusal::BadName);
    }
    Ok(index.names.find(name))
}

// The name of a file.
#[tactic(auto, using(crate::proofs::Asking::same_name, crate::proofs::Asking::present_if))]
pub fn name(index: &Index, object: u32) -> Result<&[u8], Refusal>
    ensures { (s : State) → Knows (view_of s) index.now → Answered (size_table (asked s) object) result (λ name. OfFile (asked s) object (λ f. name.now ≡ f.name)) (Unit {0}) }
{
    if !is_object(object) {
        return Err(Refusal::BadObject);
    }
    index.names.name(object).ok_or(Refusal::NotPresent)
}

// How many bytes a file has.
#[tactic(auto, using(crate::proofs::Asking::size_told))]
pub fn size(index: &Index, object: u32) -> Result<u32, Refusal>
    ensures { (s : State) → Knows (view_of s) index.now → SizeAnswered (asked s) object result }
{
    size_of(index.looks(), object)
}

// Reads the bytes of a file from a position on, as many as the buffer holds or the size allows, and answers their
// number. The bytes of the buffer beyond them stay. Object, position and buffer are a read's arguments: a struct of the
// three would be made for one call and taken apart in it.
#[tactic(auto, using(crate::proofs::Knowing::readable))]
pub fn read<C: Chip>(
    index: &Index,
    chip: &C,
    object: u32,
    position: u64,
    buffer: &mut [u8],
) -> Result<usize, Refusal>
    ensures { Knows (view_of (C.Chip.model chip.now)) index.now → ReadAnswered (asked (C.Chip.model chip.now)) object position buffer.old result buffer.new }
{
    let size = size(index, object)?;
    Ok(read_from(chip, index, object, size, position, buffer)?)
}

// Writes a row for each file, by rising object number, and answers their number. The rows beyond them stay.
#[tactic(auto, using(crate::proofs::Knowing::rows_told))]
pub fn list(index: &Index, rows: &mut [Row]) -> Result<usize, Refusal>
    ensures { (s : State) → Knows (view_of s) index.now → ListAnswered (asked s) rows.old result rows.new }
{
    let looks = index.looks();
    let count = count_rows(looks);
    if rows.len() < count {
        return Err(Refusal::FewRows);
    }
    list_into(looks, rows);
    Ok(count)
}
