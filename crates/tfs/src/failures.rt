use std::io;
use texts::stops::Stop;
use thiserror::Error;
use words::parsing::Misuse;

// Why the program does not do what its words ask for.
#[derive(Debug, Drop, Error)]
pub(crate) enum Failure<'a> {
    #[error("{0}")]
    Misuse(#[from] Misuse<'a>),
    #[error("{0}")]
    Stop(#[from] Stop),
    #[error("{0}")]
    Io(#[from] io::Error),
    #[error("{path}: {stop}")]
    Image { path: &'a str, stop: Stop },
    #[error("cannot read {path}: {error}")]
    Read { path: &'a str, error: io::Error },
    #[error("cannot read standard input: {error}")]
    Input { error: io::Error },
    #[error("cannot write {path}: {error}")]
    Write { path: &'a str, error: io::Error },
    #[error("{path} is there already and is not overwritten")]
    Taken { path: &'a str },
    #[error("cannot write {path}: there is a file already with .new after that name")]
    Beside { path: &'a str },
}

// What a command gives of the image in a file, or why nothing.
pub(crate) fn of_image<'a, T>(path: &'a str, answer: Result<T, Stop>) -> Result<T, Failure<'a>> {
    answer.map_err(|stop| Failure::Image { path, stop })
}
