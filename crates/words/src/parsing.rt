ghost use Rattle.words.specs.Parsing.{texts_of, NumeralBy, SizesBy, Parsed};

use crate::naming::Name;
use crate::numbers::number;
use crate::streams::Stream;
use flash::Sizes;
use rules::fits;

// A command with its operands.
#[derive(Clone, Copy, PartialEq, Eq, Debug)]
pub enum Command<'a> {
    // an image has a byte for the number of blocks and one for that of chunks, so these are no `Sizes`
    New {
        file: &'a str,
        blocks: u8,
        chunks: u8,
    },
    Put {
        file: &'a str,
        name: &'a str,
        source: Stream<'a>,
    },
    Get {
        file: &'a str,
        name: &'a str,
        dest: Stream<'a>,
    },
    Ls {
        file: &'a str,
    },
    Cat {
        file: &'a str,
        name: &'a str,
        from: u32,
        count: Option<u32>,
    },
    Cut {
        file: &'a str,
        name: &'a str,
        length: u32,
    },
    Mv {
        file: &'a str,
        name: &'a str,
        new: &'a str,
    },
    Rm {
        file: &'a str,
        name: &'a str,
    },
    Info {
        file: &'a str,
    },
    Dump {
        file: &'a str,
    },
    Collect {
        file: &'a str,
    },
    Format {
        file: &'a str,
    },
    Replay {
        script: Stream<'a>,
    },
    Demo,
    Help,
    About {
        command: Name,
    },
}

// Why words are no command.
#[derive(Clone, Copy, PartialEq, Eq, Debug)]
pub enum Misuse<'a> {
    Unknown(&'a str),
    Operands(Name),
    NotANumber(&'a str),
    Sizes,
}

// The number that a word writes.
fn numeral<'a>(word: &'a str) -> Result<u32, Misuse<'a>>
    ensures { NumeralBy word.now result }
{
    number(word).ok_or(Misuse::NotANumber(word))
}

// The sizes that two words write, of a chip that a store can mount.
fn sizes_of<'a>(blocks: &'a str, chunks: &'a str) -> Result<Sizes, Misuse<'a>>
    ensures { SizesBy blocks.now chunks.now result }
{
    let sizes = Sizes {
        blocks: numeral(blocks)?,
        chunks: numeral(chunks)?,
    };
    if fits(sizes) {
        Ok(sizes)
    } else {
        Err(Misuse::Sizes)
    }
}

// The command that the words after the program's name are.
pub fn parse(words: &[String]) -> Result<Command<'_>, Misuse<'_>>
    ensures { Parsed (texts_of words.now) result }
{
    let [first, operands @ ..] = words else {
        return Ok(Command::Help);
    };
    let name = Name::try_from(first.as_str())?;
    match (name, operands) {
        (Name::New, [file, blocks, chunks]) => {
            let sizes = sizes_of(blocks, chunks)?;
            Ok(Command::New {
                file,
                blocks: sizes.blocks as u8,
                chunks: sizes.chunks as u8,
            })
        }
        (Name::Put, [file, name, source]) => Ok(Command::Put {
            file,
            name,
            source: Stream::from(source.as_str()),
        }),
        (Name::Get, [file, name, dest]) => Ok(Command::Get {
            file,
            name,
            dest: Stream::from(dest.as_str()),
        }),
        (Name::Ls, [file]) => Ok(Command::Ls { file }),
        (Name::Cat, [file, name]) => Ok(Command::Cat {
            file,
            name,
            from: 0,
            count: None,
        }),
        (Name::Cat, [file, name, from]) => Ok(Command::Cat {
            file,
            name,
            from: numeral(from)?,
            count: None,
        }),
        (Name::Cat, [file, name, from, count]) => Ok(Command::Cat {
            file,
            name,
            from: numeral(from)?,
            count: Some(numeral(count)?),
        }),
        (Name::Cut, [file, name, length]) => Ok(Command::Cut {
            file,
            name,
            length: numeral(length)?,
        }),
        (Name::Mv, [file, name, new]) => Ok(Command::Mv { file, name, new }),
        (Name::Rm, [file, name]) => Ok(Command::Rm { file, name }),
        (Name::Info, [file]) => Ok(Command::Info { file }),
        (Name::Dump, [file]) => Ok(Command::Dump { file }),
        (Name::Collect, [file]) => Ok(Command::Collect { file }),
        (Name::Format, [file]) => Ok(Command::Format { file }),
        (Name::Replay, []) => Ok(Command::Replay {
            script: Stream::Standard,
        }),
        (Name::Replay, [script]) => Ok(Command::Replay {
            script: Stream::from(script.as_str()),
        }),
        (Name::Demo, []) => Ok(Command::Demo),
        (Name::Help, []) => Ok(Command::Help),
        (Name::Help, [command]) => Ok(Command::About {
            command: Name::try_from(command.as_str())?,
        }),
        _ => Err(Misuse::Operands(name)),
    }
}
