ghost use Rattle.std.specs.Prelude.{◌≡◌, ◌↔◌, if◌then◌else◌, IsTrue, MatchResult, is_ok};
ghost use Rattle.flash.specs.declared.chunks.Chunk.TheVariants.{Holds};
ghost use Rattle.flash.specs.Reads.{Within, NotLooked};
ghost use Rattle.flash.specs.Writes.{BlankFrom, Put};
ghost use Rattle.sparse.specs.Sparse.{state_of, Made, IsChunk};

use crate::chips::{NoChunks, SparseChip};
use flash::{CHUNK_BYTES, Chip, Chunk, Fault, Look, Place, Purpose, Record, Sizes};
use std::alloc::{AllocError, Global};
use std::collections::BTreeMap;

impl SparseChip {
    // A blank chip that is off.
    pub fn new(heap: Global, sizes: Sizes) -> Result<SparseChip, NoChunks>
        ensures { Made sizes result }
    {
        if sizes.blocks == 0 || sizes.chunks == 0 {
            return Err(NoChunks);
        }
        Ok(SparseChip {
            heap,
            blocks: BTreeMap::new(heap),
            sizes,
            on: false,
        })
    }

    // A chunk, if the chip is on and has it.
    fn chunk(&self, at: Place) -> Result<&Chunk, Fault>
        ensures { MatchResult result (λ x. IsChunk (state_of self.now) at x.now) (λ f. NotLooked (state_of self.now) at f) }
    {
        if !self.on {
            return Err(Fault::Off);
        }
        if !self.sizes.has(at) {
            return Err(Fault::NoSuchPlace);
        }
        match self.blocks.get(&at.block) {
            Some(chunks) => Ok(&chunks[at.chunk as usize]),
            None => Ok(&Chunk::Blank),
        }
    }

    // Whether a chunk and all later ones of its block are blank.
    fn is_blank_from(&self, at: Place) -> bool
        requires { Within (state_of self.now) at }
        ensures { IsTrue result ↔ BlankFrom (state_of self.now) at }
    {
        let Some(chunks) = self.blocks.get(&at.block) else {
            return true;
        };
        let rest = &chunks[at.chunk as usize..];
        rest.iter().all(|chunk| matches!(chunk, Chunk::Blank))
    }

    // Keeps a record, unless there is no memory for its block.
    fn keep(&mut self, at: Place, record: &Record) -> Result<(), AllocError>
        requires { Within (state_of self.old) at }
        ensures chunk { Put (state_of self.old) at.block at.chunk
            (if is_ok result then Holds «record».now else (state_of self.old).cells at.block at.chunk) (state_of self.new) }
        ensures power { self.new.on ≡ self.old.on }
    {
        let chunk = at.chunk as usize;
        if let Some(chunks) = self.blocks.get_mut(&at.block) {
            chunks[chunk] = Chunk::Holds(*record);
            return Ok(());
        }
        let mut chunks = vec![in self.heap; Chunk::Blank; self.sizes.chunks as usize]?;
        chunks[chunk] = Chunk::Holds(*record);
        self.blocks.insert(at.block, chunks)?;
        Ok(())
    }
}

impl Chip for SparseChip {
    ghost model = { state_of };

    fn sizes(&self) -> Sizes {
        self.sizes
    }

    fn look(&self, at: Place) -> Result<Look, Fault> {
        Ok(self.chunk(at)?.look())
    }

    fn fetch(&self, at: Place, buffer: &mut [u8; CHUNK_BYTES]) -> Result<(), Fault> {
        let Chunk::Holds(record) = self.chunk(at)? else {
            return Err(Fault::NoRecord);
        };
        *buffer = record.bytes;
        Ok(())
    }

    fn program(&mut self, purpose: Purpose, at: Place, record: &Record) -> Result<(), Fault> {
        self.chunk(at)?;
        if !self.is_blank_from(at) {
            return Err(Fault::NotBlank);
        }
        if self.keep(at, record).is_err() {
            // Want of memory is a failed supply that leaves the chunk as it was.
            self.on = false;
            return Err(Fault::SupplyFailed(purpose.at(at)));
        }
        Ok(())
    }

    fn erase(&mut self, block: u32) -> Result<(), Fault> {
        // A block is there where its first chunk is, since every chip has chunks.
        self.chunk(Place::new(block, 0))?;
        let _ = self.blocks.remove(&block);
        Ok(())
    }

    fn restart(&mut self) {
        self.on = true;
    }
}
