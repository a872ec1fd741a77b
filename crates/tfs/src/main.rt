// The program: it takes the words, reads and writes files and prints. What its words mean is in `words`, and what
// it computes in `commands`, `files`, `edits`, `replays` and `demos`.
#![tactic(auto)]

mod changes;
mod failures;
mod images;
mod streams;

use crate::changes::{Teller, clean, edit};
use crate::failures::{Failure, of_image};
use crate::images::{Disk, create_file, read_file, replace_image};
use crate::streams::{print, read_bytes, read_text, write_bytes};
use commands::create::create;
use commands::dump::dump;
use demos::demo::demo;
use edits::collect::collect;
use edits::cut::cut;
use edits::put::put;
use edits::remove::remove;
use edits::rename::rename;
use files::cat::cat;
use files::format::format;
use files::info::info;
use files::ls::ls;
use replays::replay;
use std::process::ExitCode;
use std::{env, io};
use texts::stops::Stop;
use words::parsing::{Command, parse};
use words::streams::Stream;
use words::usage::{about, help};

// Prints what is told of the image in a file.
fn tell<'a>(
    rt: &HostRuntime,
    file: &'a str,
    told: Result<String, Stop>,
) -> Result<(), Failure<'a>> {
    print(rt, of_image(file, told)?.as_bytes())
}

// Bytes into a file of an image.
fn put_bytes<'a>(
    rt: &HostRuntime,
    file: &'a str,
    name: &str,
    source: Stream<'a>,
) -> Result<(), Failure<'a>> {
    let image = read_file(rt, file)?;
    let content = read_bytes(rt, source)?;
    let made = put(
        rt.alloc(),
        image,
        name.as_bytes(),
        &content,
        &mut Teller { rt },
    );
    edit(rt, file, made)
}

// Bytes of a file of an image.
fn part<'a>(
    rt: &HostRuntime,
    file: &'a str,
    name: &str,
    from: u64,
    count: Option<u64>,
) -> Result<Vec<u8>, Failure<'a>> {
    let image = read_file(rt, file)?;
    of_image(file, cat(rt.alloc(), image, name.as_bytes(), from, count))
}

// Prints the answers of a script.
fn play<'a>(rt: &HostRuntime, script: Stream<'a>) -> Result<(), Failure<'a>> {
    let calls = read_text(rt, script)?;
    match replay(rt.alloc(), &calls, &mut Disk { rt }) {
        Ok(answers) => print(rt, answers.as_bytes()),
        Err(error) => Err(Stop::from(error).into()),
    }
}

fn run<'a>(rt: &HostRuntime, words: &'a [String]) -> Result<(), Failure<'a>> {
    let heap = rt.alloc();
    match parse(words)? {
        Command::New {
            file,
            blocks,
            chunks,
        } => create_file(rt, file, &create(heap, blocks, chunks)?),
        Command::Put { file, name, source } => put_bytes(rt, file, name, source),
        Command::Get { file, name, dest } => {
            write_bytes(rt, dest, &part(rt, file, name, 0, None)?)
        }
        Command::Ls { file } => tell(rt, file, ls(heap, read_file(rt, file)?)),
        Command::Cat {
            file,
            name,
            from,
            count,
        } => {
            let (from, count) = (u64::from(from), count.map(u64::from));
            print(rt, &part(rt, file, name, from, count)?)
        }
        Command::Cut { file, name, length } => {
            edit(
                rt,
                file,
                cut(heap, read_file(rt, file)?, name.as_bytes(), length),
            )
        }
        Command::Mv { file, name, new } => {
            let (name, new) = (name.as_bytes(), new.as_bytes());
            edit(rt, file, rename(heap, read_file(rt, file)?, name, new))
        }
        Command::Rm { file, name } => {
            edit(
                rt,
                file,
                remove(heap, read_file(rt, file)?, name.as_bytes()),
            )
        }
        Command::Info { file } => tell(rt, file, info(heap, read_file(rt, file)?)),
        Command::Dump { file } => tell(rt, file, dump(heap, read_file(rt, file)?)),
        Command::Collect { file } => clean(rt, file, collect(heap, read_file(rt, file)?)),
        Command::Format { file } => {
            replace_image(
                rt,
                file,
                &of_image(file, format(heap, read_file(rt, file)?))?,
            )
        }
        Command::Replay { script } => play(rt, script),
        Command::Demo => print(rt, demo(heap)?.as_bytes()),
        Command::Help => print(rt, help(heap)?.as_bytes()),
        Command::About { command } => print(rt, about(heap, command)?.as_bytes()),
    }
}

fn arguments(rt: &HostRuntime) -> io::Result<Vec<String>> {
    Ok(env::args(rt)?.skip(1).collect(rt.alloc())?)
}

// The exit status; a line on standard error says why the program failed.
fn status(rt: &HostRuntime, done: Result<(), Failure<'_>>) -> ExitCode {
    match done {
        Ok(()) => ExitCode::SUCCESS,
        Err(why) => {
            let _ = eprintln!(rt; "tfs: {why}");
            ExitCode::FAILURE
        }
    }
}

fn main(rt: HostRuntime) -> ExitCode {
    match arguments(&rt) {
        Ok(words) => status(&rt, run(&rt, &words)),
        Err(error) => status(&rt, Err(error.into())),
    }
}
