use crate::failures::Failure;
use replays::Files;
use std::fs::{File, OpenOptions};
use std::io::{ErrorKind, Write};
use std::path::Path;
use std::{fs, io};

// Files, read and written whole.

pub(crate) fn read_file<'a>(rt: &HostRuntime, path: &'a str) -> Result<Vec<u8>, Failure<'a>> {
    fs::read(rt, path).map_err(|error| Failure::Read { path, error })
}

// Does not end before the medium has the bytes.
fn fill(file: &mut File, bytes: &[u8]) -> io::Result<()> {
    file.write_all(bytes)?;
    file.sync_all()
}

// Writes a file that is not there yet; where that fails, there is none.
fn write_new(rt: &HostRuntime, path: &str, bytes: &[u8]) -> io::Result<()> {
    let mut file = OpenOptions::new()
        .write(true)
        .create_new(true)
        .open(rt, path)?;
    fill(&mut file, bytes).inspect_err(|_| {
        let _ = fs::remove_file(rt, path);
    })
}

// A file that is not there yet.
pub(crate) fn create_file<'a>(
    rt: &HostRuntime,
    path: &'a str,
    bytes: &[u8],
) -> Result<(), Failure<'a>> {
    write_new(rt, path, bytes).map_err(|error| match error.kind() {
        ErrorKind::AlreadyExists => Failure::Taken { path },
        _ => Failure::Write { path, error },
    })
}

// Puts a file that is whole in the place of the old one, with its permissions.
fn take_place(rt: &HostRuntime, whole: &str, old: &str) -> io::Result<()> {
    fs::set_permissions(rt, whole, fs::metadata(rt, old)?.permissions())?;
    fs::rename(rt, whole, old)
}

// Other bytes in the place of a file: they go to a new file beside it, which then takes its name. So the old image or the
// new one stands there at any time, and where anything fails, the old one.
fn replace(rt: &HostRuntime, path: &str, bytes: &[u8]) -> io::Result<()> {
    let old = fs::canonicalize(rt, path)?;
    let whole = format!(in rt.alloc(); "{}.new", old.as_str())?;
    write_new(rt, &whole, bytes)?;
    take_place(rt, &whole, old.as_str()).inspect_err(|_| {
        let _ = fs::remove_file(rt, whole.as_str());
    })
}

// Another image in the place of the one in a file.
pub(crate) fn replace_image<'a>(
    rt: &HostRuntime,
    path: &'a str,
    bytes: &[u8],
) -> Result<(), Failure<'a>> {
    replace(rt, path, bytes).map_err(|error| match error.kind() {
        ErrorKind::AlreadyExists => Failure::Beside { path },
        _ => Failure::Write { path, error },
    })
}

// The files of a script. One that is there already is replaced.
#[derive(Drop)]
pub(crate) struct Disk<'a> {
    pub rt: &'a HostRuntime,
}

impl Disk<'_> {
    fn save(&self, path: &str, bytes: &[u8]) -> io::Result<()> {
        match write_new(self.rt, path, bytes) {
            Err(error) if error.kind() == ErrorKind::AlreadyExists => {
                replace(self.rt, path, bytes)
            }
            done => done,
        }
    }
}

impl Files for Disk<'_> {
    fn read(&mut self, name: &str) -> Option<Vec<u8>> {
        fs::read(self.rt, name).ok()
    }

    fn write(&mut self, name: &str, bytes: &[u8]) -> bool {
        self.save(name, bytes).is_ok()
    }
}
