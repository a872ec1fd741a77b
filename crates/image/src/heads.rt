ghost use Rattle.std.specs.Prelude.{◌≡◌, MatchResult};
ghost use Rattle.flash.specs.Faults.{misfit_number};
ghost use Rattle.image.specs.Format.{misfit, start_of};
ghost use Rattle.image.specs.Heads.{IsHead};

use crate::codes::CHUNK;
use flash::{Misfit, Place, Sizes};
use std::ops::Range;

// How many bytes the head takes.
pub(crate) const HEAD: usize = 8;

// The power byte of a chip that is on.
pub(crate) const ON: u8 = 1;

// What the head of an image tells: how many blocks there are, how many chunks in each, and the power.
#[derive(Clone, Copy)]
pub(crate) struct Head {
    pub(crate) blocks: u8,
    pub(crate) chunks: u8,
    pub(crate) on: bool,
}

// Bytes that are no image are a chip with no blocks that is always on.
pub(crate) const NO_CHIP: Head = Head {
    blocks: 0,
    chunks: 0,
    on: true,
};

impl Head {
    // The head of these bytes, if they are an image.
    pub(crate) fn read(bytes: &[u8]) -> Result<Head, Misfit>
        ensures { MatchResult result (λ h. IsHead bytes.now h) (λ e. misfit bytes.now ≡ misfit_number e) }
    {
        let &[b'T', b'F', b'S', low, high, blocks, chunks, power, ..] = bytes else {
            return Err(Misfit::Mark);
        };
        if u16::from_le_bytes([low, high]) != 1 {
            return Err(Misfit::Version);
        }
        if bytes.len() != HEAD + blocks as usize * chunks as usize * CHUNK {
            return Err(Misfit::Length);
        }
        Ok(Head {
            blocks,
            chunks,
            on: power == ON,
        })
    }

    // How many blocks there are and how many chunks in each, as every chip tells it.
    pub(crate) fn sizes(self) -> Sizes
        ensures { result ≡ record { blocks = self.blocks; chunks = self.chunks } }
    {
        Sizes {
            blocks: u32::from(self.blocks),
            chunks: u32::from(self.chunks),
        }
    }

    // Where a chunk begins: by arithmetic, since the format says so, and a file is cut into chunks behind a head of 8 bytes.
    pub(crate) fn start_of(self, at: Place) -> usize
        ensures { result ≡ start_of self.chunks at.block at.chunk }
    {
        HEAD + self.sizes().row(at) * CHUNK
    }

    // Where the bytes of a chunk and of all later ones of its block lie.
    pub(crate) fn rest(self, at: Place) -> Range<usize>
        ensures start { result.start ≡ start_of self.chunks at.block at.chunk }
        ensures end { result.end ≡ start_of self.chunks at.block self.chunks }
    {
        let start = self.start_of(at);
        let end = self.start_of(Place::new(at.block, self.sizes().chunks));
        start..end
    }
}
