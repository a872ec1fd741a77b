ghost use Rattle.std.specs.Prelude.{◌≡◌, IfOk};
ghost use Rattle.image.specs.Blanks.{blank_image, BlankChip};
ghost use Rattle.image.specs.Format.{image_of};

use image::blank;
use std::alloc::Global;
use texts::stops::Stop;

// The bytes of a new image: a blank chip that is off. Two numbers of 8 bits, as `blank` takes them: they are handed on.
pub fn create(heap: Global, blocks: u8, chunks: u8) -> Result<Vec<u8>, Stop>
    ensures bytes { IfOk result (λ v. v.items ≡ blank_image blocks chunks) }
    ensures chip { IfOk result (λ v. BlankChip blocks chunks (image_of v.items)) }
{
    Ok(blank(heap, blocks, chunks)?)
}
