use crate::failures::{Failure, of_image};
use crate::images::replace_image;
use edits::{Collected, Edited, Progress};
use texts::stops::Stop;

// A longer put than this tells how far it is, after each so many chunks.
const STEP: usize = 64;

// A put's progress, told on standard error.
#[derive(Drop)]
pub(crate) struct Teller<'a> {
    pub rt: &'a HostRuntime,
}

impl Progress for Teller<'_> {
    fn chunk(&mut self, done: usize, of: usize) {
        if of > STEP && done % STEP == 0 {
            let _ = eprintln!(self.rt; "tfs: {done} of {of} chunks put");
        }
    }
}

// Puts the image after a change in the place of the one before, and prints what the change cost.
pub(crate) fn edit<'a>(
    rt: &HostRuntime,
    file: &'a str,
    edited: Result<Edited, Stop>,
) -> Result<(), Failure<'a>> {
    let Edited { bytes, counts } = of_image(file, edited)?;
    replace_image(rt, file, &bytes)?;
    Ok(println!(rt; "{} programmed, {} erased", counts.programs, counts.erases)?)
}

// The same of a cleaning.
pub(crate) fn clean<'a>(
    rt: &HostRuntime,
    file: &'a str,
    collected: Result<Collected, Stop>,
) -> Result<(), Failure<'a>> {
    let Collected {
        bytes,
        block,
        copies,
    } = of_image(file, collected)?;
    replace_image(rt, file, &bytes)?;
    Ok(println!(rt; "block {block} cleaned, {copies} copied")?)
}
