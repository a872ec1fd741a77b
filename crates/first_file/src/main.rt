// The program of docs/OWN_CHIP.md: it puts the store on a sparse chip, keeps a first file there, takes the chip out of the
// store and puts a second store on it, and prints what that one finds.
#![tactic(auto)]

use anyhow::anyhow;
use flash::Sizes;
use rules::{CHUNK_BYTES, FIRST_OBJECT, OBJECTS, Row};
use scan::Refusal;
use sparse::SparseChip;
use store::Store;

const SIZES: Sizes = Sizes {
    blocks: 64,
    chunks: 32,
};

// A refusal as the program's error: its number and its words.
fn refused(why: Refusal) -> anyhow::Error {
    anyhow!("the store refuses: {why}")
}

// A store that runs over the chip.
fn running(rt: &HostRuntime, chip: SparseChip) -> anyhow::Result<Store<SparseChip>> {
    let mut store = Store::attach(rt.alloc(), chip).map_err(|_| anyhow!("no memory"))?;
    store.mount().map_err(refused)?;
    Ok(store)
}

// Creates a file and puts its first chunk. The ticket goes back on every way out, also where the put is refused.
fn keep(store: &mut Store<SparseChip>, name: &[u8], bytes: &[u8]) -> Result<(), Refusal> {
    store.create(FIRST_OBJECT, name)?;
    let ticket = store.open(FIRST_OBJECT)?;
    let put = store.put(&ticket, 1, bytes);
    store.close(ticket)?;
    put.map(|_| ())
}

// Prints each file: its name, its size and the bytes of its first chunk.
fn print_files(rt: &HostRuntime, store: &Store<SparseChip>) -> anyhow::Result<()> {
    let mut rows = [Row::default(); OBJECTS];
    let mut buffer = [0; CHUNK_BYTES];
    let files = store.list(&mut rows).map_err(refused)?;
    for row in &rows[..files] {
        let name = String::from_utf8_lossy(rt.alloc(), store.name(row.object).map_err(refused)?)?;
        let count = store.read(row.object, 0, &mut buffer).map_err(refused)?;
        let text = String::from_utf8_lossy(rt.alloc(), &buffer[..count])?;
        println!(rt; "object {}, {name}, {} bytes: {text}", row.object, row.size)?;
    }
    Ok(())
}

fn run(rt: &HostRuntime) -> anyhow::Result<()> {
    let chip = SparseChip::new(rt.alloc(), SIZES).map_err(|_| anyhow!("no chunks"))?;
    let mut first = running(rt, chip)?;
    keep(&mut first, b"notes", b"kept on a chip of one's own").map_err(refused)?;
    let second = running(rt, first.release())?;
    print_files(rt, &second)
}

fn main(rt: HostRuntime) -> anyhow::Result<()> {
    run(&rt)
}
