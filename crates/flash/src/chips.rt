ghost use Rattle.std.specs.Prelude.{◌≡◌};
ghost use Rattle.flash.specs.Model.{State, started};
ghost use Rattle.flash.specs.Reads.{Sized, Looked, Fetched};
ghost use Rattle.flash.specs.Writes.{Programmed, Erased};

use crate::chunks::{CHUNK_BYTES, Look, Place, Record, Sizes};
use crate::faults::{Fault, Purpose};

// A flash chip: blocks of chunks, both counted from 0, on or off.
pub trait Chip {
    ghost model: { Self → State };

    // The calls that read.

    fn sizes(&self) -> Sizes
        ensures { Sized (model self.now) result };

    fn look(&self, at: Place) -> Result<Look, Fault>
        ensures { Looked (model self.now) at result };

    fn fetch(&self, at: Place, buffer: &mut [u8; CHUNK_BYTES]) -> Result<(), Fault>
        ensures { Fetched (model self.now) at buffer.old result buffer.new };

    // The calls that write.

    fn program(&mut self, purpose: Purpose, at: Place, record: &Record) -> Result<(), Fault>
        ensures { Programmed (model self.old) purpose at «record».now result (model self.new) };

    fn erase(&mut self, block: u32) -> Result<(), Fault>
        ensures { Erased (model self.old) block result (model self.new) };

    fn restart(&mut self)
        ensures { model self.new ≡ started (model self.old) };
}
