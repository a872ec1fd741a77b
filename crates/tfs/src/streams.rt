use crate::failures::Failure;
use crate::images::{create_file, read_file};
use std::io::{Read, Write};
use std::{fs, io};
use words::streams::Stream;

// Bytes and text from a file or standard input, and bytes to a new file or standard output.

pub(crate) fn print<'a>(rt: &HostRuntime, bytes: &[u8]) -> Result<(), Failure<'a>> {
    Ok(io::writer(rt).write_all(bytes)?)
}

fn read_input(rt: &HostRuntime) -> io::Result<Vec<u8>> {
    let mut bytes = Vec::new(rt.alloc());
    rt.reader().read_to_end(&mut bytes)?;
    Ok(bytes)
}

pub(crate) fn read_bytes<'a>(rt: &HostRuntime, source: Stream<'a>) -> Result<Vec<u8>, Failure<'a>> {
    match source {
        Stream::File(path) => read_file(rt, path),
        Stream::Standard => read_input(rt).map_err(|error| Failure::Input { error }),
    }
}

pub(crate) fn read_text<'a>(rt: &HostRuntime, source: Stream<'a>) -> Result<String, Failure<'a>> {
    match source {
        Stream::File(path) => {
            fs::read_to_string(rt, path).map_err(|error| Failure::Read { path, error })
        }
        Stream::Standard => io::read_to_string(rt.alloc(), rt.reader()).map_err(
            |error| Failure::Input { error },
        ),
    }
}

pub(crate) fn write_bytes<'a>(
    rt: &HostRuntime,
    dest: Stream<'a>,
    bytes: &[u8],
) -> Result<(), Failure<'a>> {
    match dest {
        Stream::File(path) => create_file(rt, path, bytes),
        Stream::Standard => print(rt, bytes),
    }
}
