// The program that runs the proved store and the plain one beside each other, and compares every answer and the
// contents of both chips. It touches no file; what it prints is the same in each run.
#![tactic(auto)]

mod calls;
mod cases;
mod chips;
mod edges;
mod images;
mod lists;
mod numbers;
mod plains;
mod reals;
mod rooms;
mod rounds;
mod runs;
mod starts;
mod tallies;
mod telling;
mod values;
mod worked;

use crate::cases::Cases;
use crate::chips::{same_bench, same_image, same_makings};
use crate::edges::run_edges;
use crate::numbers::Numbers;
use crate::rounds::same_round;
use crate::tallies::Tally;
use crate::worked::run_worked;
use anyhow::{Result, ensure};
use flash::Sizes;
use std::env;

// The sizes of the chips that the lists are run on.
const SIZES: [(u32, u32); 9] = [
    (3, 2),
    (3, 3),
    (3, 4),
    (4, 2),
    (4, 3),
    (3, 9),
    (7, 2),
    (5, 8),
    (9, 4),
];

// How many rounds are run on each: a few, many, or as many as the word says.
fn how_many(word: Option<&str>) -> Result<u32> {
    match word {
        None => Ok(6),
        Some("long") => Ok(600),
        Some(word) => Ok(word.parse::<u32>()?),
    }
}

// The cases with the answers that the rules give.
fn compare_cases(rt: &HostRuntime) -> Result<Tally> {
    let mut cases = Cases::new(rt);
    run_worked(&mut cases)?;
    run_edges(&mut cases)?;
    println!(rt; "{} cases with the answers of the rules", cases.count)?;
    ensure!(cases.is_well, "a case came otherwise");
    Ok(cases.tally)
}

// The making of chips, and their own calls.
fn compare_chips(rt: &HostRuntime, rounds: u32, tally: &mut Tally) -> Result<()> {
    let heap = rt.alloc();
    ensure!(same_makings(heap, tally)?, "chips are made otherwise");
    let lists = tally.lists;
    for (blocks, chunks) in SIZES {
        let sizes = Sizes { blocks, chunks };
        let mut numbers = Numbers::new(blocks as u64 * 1000 + chunks as u64);
        for round in 0..rounds {
            let same = same_bench(heap, &mut numbers, sizes, tally)?;
            ensure!(same, "the bench chip differs: {blocks}, {chunks}, {round}");
            let same = matches!(same_image(heap, &mut numbers, sizes, tally), Ok(true));
            ensure!(same, "the image chip differs: {blocks}, {chunks}, {round}");
        }
    }
    let lists = tally.lists.saturating_sub(lists);
    println!(rt; "{lists} lists of the chips' own calls")?;
    Ok(())
}

// The lists of a store's calls.
fn compare_stores(rt: &HostRuntime, rounds: u32, tally: &mut Tally) -> Result<()> {
    for (blocks, chunks) in SIZES {
        let mut numbers = Numbers::new(blocks as u64 * 100 + chunks as u64);
        let sizes = Sizes { blocks, chunks };
        let mut left = Vec::new(rt.alloc());
        let lists = tally.lists;
        for round in 0..rounds {
            let same = same_round(rt, &mut numbers, sizes, &mut left, tally)?;
            ensure!(same, "the stores differ: {blocks}, {chunks}, {round}");
        }
        let lists = tally.lists.saturating_sub(lists);
        println!(rt; "{lists} lists on {blocks} blocks of {chunks}")?;
    }
    Ok(())
}

fn main(rt: HostRuntime) -> Result<()> {
    let word = env::args(&rt)?.nth(1);
    let rounds = how_many(word.as_deref())?;
    let mut tally = compare_cases(&rt)?;
    compare_chips(&rt, rounds.saturating_mul(8), &mut tally)?;
    compare_stores(&rt, rounds, &mut tally)?;
    println!(rt; "{tally}")?;
    ensure!(tally.is_whole(), "a number did not come");
    println!(rt; "0 differences")?;
    Ok(())
}
