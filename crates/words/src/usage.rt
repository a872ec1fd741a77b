ghost use Rattle.std.specs.Prelude.{◌≡◌, IfErr, IfOk, Some, string_bytes};
ghost use Rattle.texts.specs.declared.stops.Stop.TheVariants.{Memory};
ghost use Rattle.texts.specs.Texts.{Adds};
ghost use Rattle.words.specs.Usage.{synopsis_text, purpose_text, usage_of, usages_text, usage_text, misuse_text};

use crate::naming::Name;
use crate::parsing::Misuse;
use scan::Refusal;
use std::alloc::{AllocError, Global};
use std::fmt;
use texts::stops::Stop;

impl Name {
    // Each command has two texts, and a `Display` of `Name` could write but one of them: so both are functions.

    // The name with its operands.
    fn synopsis(self) -> &'static str
        ensures { result.now ≡ synopsis_text self }
    {
        match self {
            Name::New => "tfs new FILE N P",
            Name::Put => "tfs put FILE NAME SOURCE",
            Name::Get => "tfs get FILE NAME DEST",
            Name::Ls => "tfs ls FILE",
            Name::Cat => "tfs cat FILE NAME [FROM [COUNT]]",
            Name::Cut => "tfs cut FILE NAME LENGTH",
            Name::Mv => "tfs mv FILE NAME NEW",
            Name::Rm => "tfs rm FILE NAME",
            Name::Info => "tfs info FILE",
            Name::Dump => "tfs dump FILE",
            Name::Collect => "tfs collect FILE",
            Name::Format => "tfs format FILE",
            Name::Replay => "tfs replay [FILE]",
            Name::Demo => "tfs demo",
            Name::Help => "tfs help [COMMAND]",
        }
    }

    // What the command does.
    fn purpose(self) -> &'static str
        ensures { result.now ≡ purpose_text self }
    {
        match self {
            Name::New =>
                "writes the image of a blank chip of N blocks with P chunks each to a new file",
            Name::Put =>
                "writes the bytes of SOURCE into an image as the file NAME, in place of what it held; - is standard input",
            Name::Get =>
                "writes the bytes of the file NAME in an image to the new file DEST; - is standard output",
            Name::Ls =>
                "prints a line for each file in an image: object number, size in bytes, length in chunks, name",
            Name::Cat =>
                "prints the bytes of the file NAME in an image, from position FROM on, at most COUNT",
            Name::Cut => "cuts the file NAME in an image to its first LENGTH chunks of 2,048 bytes",
            Name::Mv => "gives the file NAME in an image the name NEW",
            Name::Rm => "removes the file NAME from an image",
            Name::Info => "prints the sizes of the chip in an image file, and what is on it in all",
            Name::Dump => "prints what each chunk of the chip in an image file is",
            Name::Collect =>
                "cleans one block of the chip in an image: copies what is wanted of it, and erases it",
            Name::Format => "erases all files in an image",
            Name::Replay =>
                "makes the calls in FILE, one on each line, and prints each answer; with no FILE, or -, those on standard input",
            Name::Demo => "shows a flash chip at work while its supply fails",
            Name::Help => "prints what this command is for, or every command",
        }
    }
}

// A command in the help.
#[derive(Clone, Copy)]
struct Usage(Name);

impl fmt::Display for Usage {
    ghost output = { λ x. Some (usage_of x.0) };

    fn fmt<W: fmt::Write>(&self, f: &mut fmt::Formatter<W>) -> fmt::Result {
        writeln!(f, "{}\n    {}", self.0.synopsis(), self.0.purpose())
    }
}

// The usage of each command, one after the other.
fn usages(out: &mut String, commands: &[Name]) -> Result<(), AllocError>
    ensures { Adds out.old (usages_text commands.now) result out.new }
{
    for command in commands {
        write!(out, "{}", Usage(*command))?;
    }
    Ok(())
}

// What every command is for, in the order in which one needs them.
pub fn help(heap: Global) -> Result<String, Stop>
    ensures text { IfOk result (λ v. string_bytes v ≡ usage_text) }
    ensures memory { IfErr result (λ e. e ≡ Memory) }
{
    let mut out = String::new(heap);
    usages(
        &mut out,
        &[
            Name::New,
            Name::Put,
            Name::Get,
            Name::Ls,
            Name::Cat,
            Name::Cut,
            Name::Mv,
            Name::Rm,
            Name::Info,
            Name::Dump,
            Name::Collect,
            Name::Format,
            Name::Replay,
            Name::Demo,
            Name::Help,
        ],
    )?;
    Ok(out)
}

// What one command is for.
pub fn about(heap: Global, command: Name) -> Result<String, Stop>
    ensures text { IfOk result (λ v. string_bytes v ≡ usage_of command) }
    ensures memory { IfErr result (λ e. e ≡ Memory) }
{
    Ok(format!(in heap; "{}", Usage(command))?)
}

impl fmt::Display for Misuse<'_> {
    ghost output = { λ x. Some (misuse_text x) };

    fn fmt<W: fmt::Write>(&self, f: &mut fmt::Formatter<W>) -> fmt::Result {
        match self {
            Misuse::Unknown(word) => write!(f, "no command '{word}', see tfs help"),
            Misuse::Operands(name) => write!(f, "wrong number of words, write {}", name.synopsis()),
            Misuse::NotANumber(word) => write!(f, "'{word}' is not a number"),
            Misuse::Sizes => write!(f, "refused: {}", Refusal::BadSizes),
        }
    }
}
