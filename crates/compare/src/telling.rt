use crate::runs::{Ran, Start};
use flash::{Chunk, Sizes};

// Tells of a run: the contents at the start, the calls up to a difference, and both answers.
pub fn tell(rt: &HostRuntime, start: Start<'_>, ran: &Ran) -> anyhow::Result<()> {
    let Sizes { blocks, chunks } = start.sizes;
    println!(rt; "a chip of {blocks} blocks of {chunks}, {:?}", start.plan)?;
    for (i, chunk) in start.rows.iter().enumerate() {
        tell_chunk(rt, i, chunk)?;
    }
    for call in ran.made.iter() {
        println!(rt; "  {call:?}")?;
    }
    if let Some(difference) = ran.difference {
        let what = difference.what;
        println!(rt; "{what:?} differ")?;
        println!(rt; "  the store: {:?}", difference.real)?;
        println!(rt; "  the rules: {:?}", difference.plain)?;
    }
    Ok(())
}

fn tell_chunk(rt: &HostRuntime, row: usize, chunk: &Chunk) -> anyhow::Result<()> {
    match chunk {
        Chunk::Blank => Ok(()),
        Chunk::Damaged => Ok(println!(rt; "  chunk {row}: damaged")?),
        Chunk::Holds(record) => {
            let head = &record.bytes[0..4];
            Ok(println!(rt; "  chunk {row}: {}, data {head:?}", record.tag)?)
        }
    }
}
