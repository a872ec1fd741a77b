ghost use Rattle.std.specs.Prelude.{◌≡◌, Some, map};
ghost use Rattle.lines.specs.Bytes.{letter_of, letters_text};
ghost use Rattle.store.specs.Making.{call_told};
ghost use Rattle.texts.specs.Texts.{Adds};
ghost use Rattle.demos.specs.Telling.{quoted, answer_text, call_text, call_line, call_lines};

use runs::{Answer, Call};
use std::alloc::AllocError;
use std::fmt;

// A byte as a letter, or a dot where it is none.
fn letter(byte: u8) -> char
    ensures { result ≡ letter_of byte }
{
    if (b' '..=b'~').contains(&byte) {
        char::from(byte)
    } else {
        '.'
    }
}

fn letters(out: &mut String, bytes: &[u8]) -> Result<(), AllocError>
    ensures { Adds out.old (letters_text bytes.now) result out.new }
{
    out.extend(bytes.iter().map(|byte| letter(*byte)))
}

// A name, or other bytes, as letters.
pub(crate) fn quoted(out: &mut String, bytes: &[u8]) -> Result<(), AllocError>
    ensures { Adds out.old (quoted bytes.now) result out.new }
{
    out.push('"')?;
    letters(out, bytes)?;
    out.push('"')
}

// What a call answered.
#[derive(Clone, Copy)]
struct Told(Answer);

impl fmt::Display for Told {
    ghost output = { λ x. Some (answer_text x.0) };

    fn fmt<W: fmt::Write>(&self, f: &mut fmt::Formatter<W>) -> fmt::Result {
        match self.0 {
            Answer::Counted(counts) => write!(
                f,
                "{} programmed, {} erased",
                counts.programs, counts.erases
            ),
            Answer::Collected { block, copies } => write!(
                f,
                "block {block} cleaned, {copies} copied"
            ),
            Answer::Granted => write!(f, "granted"),
            Answer::Refused(refusal) => write!(f, "refused: {refusal}"),
        }
    }
}

// A call with its arguments.
fn call_text(out: &mut String, call: &Call<'_>) -> Result<(), AllocError>
    ensures { Adds out.old (call_text (call_told call.now)) result out.new }
{
    match *call {
        Call::Create { object, name } => {
            write!(out, "create {object} ")?;
            quoted(out, name)
        }
        Call::Put {
            file,
            number,
            bytes,
        } => write!(
            out,
            "put {} chunk {number}, {} bytes",
            file.number(),
            bytes.len()
        ),
        Call::Cut { file, length } => write!(out, "cut {} to {length}", file.number()),
        Call::Rename { object, name } => {
            write!(out, "rename {object} to ")?;
            quoted(out, name)
        }
        Call::Delete { object } => write!(out, "delete {object}"),
        Call::Open { object } => write!(out, "open {object}"),
        Call::Close { file } => write!(out, "close {}", file.number()),
        Call::Collect => write!(out, "collect"),
        Call::Mount => write!(out, "mount"),
    }
}

fn call_line(out: &mut String, call: &Call<'_>, answer: &Answer) -> Result<(), AllocError>
    ensures { Adds out.old (call_line (call_told call.now) answer.now) result out.new }
{
    call_text(out, call)?;
    writeln!(out, ": {}", Told(*answer))
}

// A line for each call with its answer.
pub(crate) fn call_lines(
    out: &mut String,
    calls: &[Call<'_>],
    answers: &[Answer],
) -> Result<(), AllocError>
    ensures { Adds out.old (call_lines (map call_told calls.now) answers.now) result out.new }
{
    for (call, answer) in calls.iter().zip(answers) {
        call_line(out, call, answer)?;
    }
    Ok(())
}
