ghost use Rattle.std.specs.Prelude.{◌≡◌, Some};
ghost use Rattle.replays.specs.Answers.{carried_text, refused_text, misuse_text, look_text, row_text, rows_text, hexes_text, bytes_text, Adds, answer_text};

use cleaning::Counts;
use flash::{Act, CHUNK_BYTES, Fault, Look, Misfit, Sizes};
use rules::Row;
use scan::Refusal;
use scripts::Misread;
use std::alloc::AllocError;
use std::fmt;

// Why a call cannot be made at all.
#[derive(Clone, Copy)]
pub enum Misuse {
    NoChip,
    NoBench,
    NoStore,
    NoTicket,
    NoFile,
    NoImage,
    TooLong,
}

// What a line is answered.
#[derive(Drop)]
pub enum Answer {
    Done,
    // what a change took
    Counts(Counts),
    Cleaned { block: usize, copies: usize },
    Found(Option<u32>),
    Number(u32),
    Rows(Vec<Row>),
    Read { count: usize, buffer: Vec<u8> },
    Sizes(Sizes),
    Look(Look),
    Fetched([u8; CHUNK_BYTES]),
    // the lines of all chunks
    Chunks(String),
    Refused(Refusal),
    Unmade(Misfit),
    Misuse(Misuse),
    Misread(Misread),
}

// What a refusal carries, each value behind a blank.
#[derive(Clone, Copy)]
struct Carried(Refusal);

impl fmt::Display for Carried {
    ghost output = { λ x. Some (carried_text x.0) };

    fn fmt<W: fmt::Write>(&self, f: &mut fmt::Formatter<W>) -> fmt::Result {
        match self.0 {
            Refusal::Chip(Fault::SupplyFailed(Act::Adding(at))) => write!(
                f,
                " adding {} {}",
                at.block, at.chunk
            ),
            Refusal::Chip(Fault::SupplyFailed(Act::Copying(at))) => write!(
                f,
                " copying {} {}",
                at.block, at.chunk
            ),
            Refusal::Chip(Fault::SupplyFailed(Act::Erasing(block))) => write!(
                f,
                " erasing {block}"
            ),
            Refusal::BadRecord(at) | Refusal::SerialClash(at) => write!(
                f,
                " {} {}",
                at.block, at.chunk
            ),
            _ => Ok(()),
        }
    }
}

impl fmt::Display for Misuse {
    ghost output = { λ x. Some (misuse_text x) };

    fn fmt<W: fmt::Write>(&self, f: &mut fmt::Formatter<W>) -> fmt::Result {
        match self {
            Misuse::NoChip => write!(f, "no chip"),
            Misuse::NoBench => write!(f, "no bench chip"),
            Misuse::NoStore => write!(f, "no store"),
            Misuse::NoTicket => write!(f, "no ticket"),
            Misuse::NoFile => write!(f, "no file"),
            Misuse::NoImage => write!(f, "no image"),
            Misuse::TooLong => write!(f, "too long"),
        }
    }
}

fn refused(out: &mut String, refusal: Refusal) -> Result<(), AllocError>
    ensures { Adds out.old (refused_text refusal) result out.new }
{
    write!(out, "refused {}{}", refusal.number(), Carried(refusal))
}

fn look(out: &mut String, look: Look) -> Result<(), AllocError>
    ensures { Adds out.old (look_text look) result out.new }
{
    match look {
        Look::Blank => write!(out, "ok blank"),
        Look::Damaged => write!(out, "ok damaged"),
        Look::Record(tag) => write!(
            out,
            "ok {} {} {} {}",
            tag.first, tag.second, tag.third, tag.serial
        ),
    }
}

fn hexes(out: &mut String, bytes: &[u8]) -> Result<(), AllocError>
    ensures { Adds out.old (hexes_text bytes.now) result out.new }
{
    for byte in bytes {
        write!(out, "{byte:02x}")?;
    }
    Ok(())
}

// Bytes in hexadecimal, none as -.
fn bytes(out: &mut String, bytes: &[u8]) -> Result<(), AllocError>
    ensures { Adds out.old (bytes_text bytes.now) result out.new }
{
    if bytes.is_empty() {
        return write!(out, "-");
    }
    hexes(out, bytes)
}

fn rows(out: &mut String, rows: &[Row]) -> Result<(), AllocError>
    ensures { Adds out.old (rows_text rows.now) result out.new }
{
    for row in rows {
        write!(out, " {},{},{}", row.object, row.length, row.size)?;
    }
    Ok(())
}

impl Answer {
    // Adds the answer to a text, with no end of line.
    pub fn tell(&self, out: &mut String) -> Result<(), AllocError>
        ensures { Adds out.old (answer_text self.now) result out.new }
    {
        match self {
            Answer::Done => write!(out, "ok"),
            Answer::Counts(counts) => write!(out, "ok {} {}", counts.programs, counts.erases),
            Answer::Cleaned { block, copies } => write!(out, "ok {block} {copies}"),
            Answer::Found(None) => write!(out, "ok none"),
            Answer::Found(Some(number)) | Answer::Number(number) => write!(out, "ok {number}"),
            Answer::Rows(listed) => {
                write!(out, "ok {}", listed.len())?;
                rows(out, listed)
            }
            Answer::Read { count, buffer } => {
                write!(out, "ok {count} ")?;
                bytes(out, buffer)
            }
            Answer::Sizes(sizes) => write!(out, "ok {} {}", sizes.blocks, sizes.chunks),
            Answer::Look(told) => look(out, *told),
            Answer::Fetched(buffer) => {
                write!(out, "ok ")?;
                bytes(out, buffer)
            }
            Answer::Chunks(lines) => write!(out, "{lines}ok"),
            Answer::Refused(refusal) => refused(out, *refusal),
            Answer::Unmade(misfit) => write!(out, "refused {}", misfit.number()),
            Answer::Misuse(misuse) => write!(out, "{misuse}"),
            Answer::Misread(misread) => write!(out, "{misread}"),
        }
    }
}
