use crate::fills::{SIZES, filled};
use anyhow::anyhow;
use bench::{BenchChip, Plan};
use flash::Chunk;
use rules::{CHUNK_BYTES, FIRST_OBJECT, LAST_NUMBER, OBJECTS, Row};
use scan::Refusal;
use std::fmt;
use std::time::{Duration, Instant};
use store::Store;

// The size of the long file, the first object.
const BYTES: usize = LAST_NUMBER as usize * CHUNK_BYTES;

// A stopped store over a chip of these rows. `probes` makes one as well: crates share only what a library makes public.
fn attached(rt: &HostRuntime, rows: Vec<Chunk>) -> anyhow::Result<Store<BenchChip>> {
    let sure = Plan::default();
    let chip = BenchChip::new(rows, SIZES, sure).map_err(|_| anyhow!("the rows do not fit"))?;
    Store::attach(rt.alloc(), chip).map_err(|_| anyhow!("no memory"))
}

// A time in milliseconds.
#[derive(Clone, Copy)]
struct Millis(Duration);

impl fmt::Display for Millis {
    fn fmt<W: fmt::Write>(&self, f: &mut fmt::Formatter<W>) -> fmt::Result {
        let micros = self.0.as_micros();
        write!(f, "{}.{:03} ms", micros / 1000, micros % 1000)
    }
}

// What a call answers, unless it refuses, and how long it took.
fn timed<T: Drop, F: FnOnce() -> Result<T, Refusal>>(
    rt: &HostRuntime,
    call: F,
) -> anyhow::Result<(T, Millis)>
    requires { F.pre call }
{
    let start = Instant::now(rt)?;
    let answer = call().map_err(|_| anyhow!("the store refuses"))?;
    Ok((answer, Millis(start.elapsed(rt)?)))
}

// Measures a chip that holds this many records: mount, list and, if there is a file, a read of the long one.
fn measure(rt: &HostRuntime, how: &str, count: u32) -> anyhow::Result<()> {
    let mut store = attached(rt, filled(rt.alloc(), count)?)?;
    let ((), time) = timed(rt, || store.mount())?;
    println!(rt; "{how}: mount: {time}")?;
    let mut rows = [Row::default(); OBJECTS];
    let (files, time) = timed(rt, || store.list(&mut rows))?;
    println!(rt; "{how}: list of {files} files: {time}")?;
    if files > 0 {
        let mut buffer = vec![in rt.alloc(); 0u8; BYTES]?;
        let (count, time) = timed(rt, || store.read(FIRST_OBJECT, 0, &mut buffer))?;
        println!(rt; "{how}: read of {count} bytes: {time}")?;
    }
    Ok(())
}

// Blank, half full, and full: (64-1)*32-1 = 2,015 records, the most that files may use.
pub(crate) fn measure_all(rt: &HostRuntime) -> anyhow::Result<()> {
    measure(rt, "blank", 0)?;
    measure(rt, "half full", 1024)?;
    measure(rt, "full", 2015)
}
