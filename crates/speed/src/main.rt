// The program that measures the store on the largest chip, kept in memory: it builds the chip's rows, takes the time of
// mount, list and read, and prints the figures. It touches no file.
#![tactic(auto)]

mod fills;
mod measures;

use crate::measures::measure_all;
use std::env;

fn run(rt: &HostRuntime) -> anyhow::Result<()> {
    let word = env::args(rt)?.nth(1);
    match word.as_deref() {
        Some("run") => measure_all(rt),
        _ => {
            println!(rt;
                "write 'speed run' to measure mount, list and read on a chip of 64 blocks of 32 chunks"
            )?;
            Ok(())
        }
    }
}

fn main(rt: HostRuntime) -> anyhow::Result<()> {
    run(&rt)
}
