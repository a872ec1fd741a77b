ghost use Rattle.std.specs.Prelude.{◌≡◌, ◌<◌, MatchResult, slice_set, vec_len};
ghost use Rattle.flash.specs.Model.{started};
ghost use Rattle.flash.specs.Reads.{NotLooked};
ghost use Rattle.flash.specs.Writes.{Programmed, Erased};
ghost use Rattle.image.specs.Leaves.{bytes_of, state_of, ProgramLeaves, EraseLeaves, RestartLeaves};
ghost use Rattle.image.specs.Places.{Found, to_end, IsChunk};

use crate::codes::{BLANK, CHUNK, RECORD, all_blank, copy_data, look_at, write};
use crate::heads::{Head, ON};
use crate::images::ImageChip;
use flash::{CHUNK_BYTES, Chip, Fault, Look, Place, Purpose, Record, Sizes};

impl ImageChip {
    // Where a chunk begins, if the chip is on and has it. The tests here and in `erase` are those of `bench`, as
    // `BenchChip::row` says. A number: a range goes through memory with every look.
    fn find(&self, at: Place) -> Result<usize, Fault>
        ensures { MatchResult result (λ i. Found (bytes_of self.now) at (to_end (bytes_of self.now) at i)) (λ f. NotLooked (state_of self.now) at f) }
    {
        let head = self.head();
        if !head.on {
            return Err(Fault::Off);
        }
        if !head.sizes().has(at) {
            return Err(Fault::NoSuchPlace);
        }
        Ok(head.start_of(at))
    }

    // The bytes of a chunk, if the chip is on and has it.
    fn chunk(&self, at: Place) -> Result<&[u8; CHUNK], Fault>
        ensures { MatchResult result (λ ys. IsChunk (state_of self.now) at ys.now) (λ f. NotLooked (state_of self.now) at f) }
    {
        let start = self.find(at)?;
        Ok(self.bytes[start..].first_chunk().unwrap())
    }

    // Marks the chunk that begins there as blank.
    fn mark_blank(&mut self, start: usize)
        requires { start < vec_len self.old.bytes }
        ensures { bytes_of self.new ≡ slice_set (bytes_of self.old) start 255 }
    {
        self.bytes[start] = BLANK;
    }
}

impl Chip for ImageChip {
    ghost model = { state_of };

    fn sizes(&self) -> Sizes {
        self.head().sizes()
    }

    fn look(&self, at: Place) -> Result<Look, Fault> {
        Ok(look_at(self.chunk(at)?))
    }

    fn fetch(&self, at: Place, buffer: &mut [u8; CHUNK_BYTES]) -> Result<(), Fault> {
        let chunk = self.chunk(at)?;
        if chunk[0] != RECORD {
            return Err(Fault::NoRecord);
        }
        copy_data(chunk, buffer);
        Ok(())
    }

    fn program(&mut self, purpose: Purpose, at: Place, record: &Record) -> Result<(), Fault>
        ensures rules { Programmed (state_of self.old) purpose at «record».now result (state_of self.new) }
        ensures bytes { ProgramLeaves self.old at «record».now result self.new }
    {
        let start = self.find(at)?;
        let end = self.head().rest(at).end;
        let (rest, _) = self.bytes[start..end].as_chunks();
        if !all_blank(rest) {
            return Err(Fault::NotBlank);
        }
        // Tried: first_chunk_mut, but a proof of what the bytes end as did not close.
        write(record, &mut self.bytes[start..start + CHUNK]);
        Ok(())
    }

    fn erase(&mut self, block: u32) -> Result<(), Fault>
        ensures rules { Erased (state_of self.old) block result (state_of self.new) }
        ensures bytes { EraseLeaves self.old block result self.new }
    {
        let head = self.head();
        if !head.on {
            return Err(Fault::Off);
        }
        if block >= head.sizes().blocks {
            return Err(Fault::NoSuchPlace);
        }
        // By number: after chunks_exact_mut a proof knows nothing of the bytes that it leaves.
        for chunk in 0..head.sizes().chunks {
            self.mark_blank(head.start_of(Place { block, chunk }));
        }
        Ok(())
    }

    #[tactic(auto, using(crate::proofs::Changes::restart_done))]
    fn restart(&mut self)
        ensures rules { state_of self.new ≡ started (state_of self.old) }
        ensures bytes { RestartLeaves self.old self.new }
    {
        if Head::read(&self.bytes).is_ok() {
            self.bytes[7] = ON;
        }
    }
}
