ghost use Rattle.std.specs.Prelude.{◌≡◌};
ghost use Rattle.texts.specs.Texts.{Adds};
ghost use Rattle.lines.specs.Bytes.{hexes_text, letter_of, letters_text, data_text};

use flash::CHUNK_BYTES;
use std::alloc::AllocError;

fn hexes(out: &mut String, bytes: &[u8]) -> Result<(), AllocError>
    ensures { Adds out.old (hexes_text bytes.now) result out.new }
{
    for byte in bytes {
        write!(out, " {byte:02x}")?;
    }
    Ok(())
}

// A byte as a letter, or a dot where it is none.
fn letter(byte: u8) -> char
    ensures { result ≡ letter_of byte }
{
    if (b' '..=b'~').contains(&byte) {
        char::from(byte)
    } else {
        '.'
    }
}

fn letters(out: &mut String, bytes: &[u8]) -> Result<(), AllocError>
    ensures { Adds out.old (letters_text bytes.now) result out.new }
{
    out.extend(bytes.iter().map(|byte| letter(*byte)))
}

// The first bytes of a record's data.
pub fn data(out: &mut String, bytes: &[u8; CHUNK_BYTES]) -> Result<(), AllocError>
    ensures { Adds out.old (data_text bytes.now) result out.new }
{
    let first = &bytes[..16];
    write!(out, ", data")?;
    hexes(out, first)?;
    write!(out, " |")?;
    letters(out, first)?;
    write!(out, "|")
}
