ghost use Rattle.std.specs.Prelude.{◌≡◌, IfOk};
ghost use Rattle.image.specs.Blanks.{blank_chunk, blank_image, BlankChip};
ghost use Rattle.image.specs.Format.{misfit, image_of};

use crate::codes::{BLANK, CHUNK};
use crate::heads::HEAD;
use std::alloc::{AllocError, Global};

#[tactic(auto, unfolding(crate::specs::Blanks::blank_chunk))]
fn blank_chunk() -> [u8; CHUNK]
    ensures { result ≡ blank_chunk }
{
    let mut chunk = [0u8; CHUNK];
    chunk[0] = BLANK;
    chunk
}

// The image of a blank chip that is off. Two numbers of 8 bits, as the head has them: `Sizes` holds numbers that no head
// does, and a type of the two would be made for this call alone.
#[tactic(auto, using(crate::proofs::Fresh::chunks_more))]
pub fn blank(heap: Global, blocks: u8, chunks: u8) -> Result<Vec<u8>, AllocError>
    ensures bytes { IfOk result (λ v. v.items ≡ blank_image blocks chunks) }
    ensures chip { IfOk result (λ v. (misfit v.items ≡ 0) × BlankChip blocks chunks (image_of v.items)) }
{
    let count = blocks as usize * chunks as usize;
    let mut bytes = Vec::with_capacity(heap, HEAD + count * CHUNK)?;
    bytes.extend_from_slice(&[b'T', b'F', b'S', 1, 0, blocks, chunks, 0])?;
    let chunk = blank_chunk();
    // The same step again and again: it goes through no collection.
    for _ in 0..count {
        bytes.extend_from_slice(&chunk)?;
    }
    Ok(bytes)
}
