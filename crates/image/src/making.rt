ghost use Rattle.std.specs.Prelude.{◌≡◌};
ghost use Rattle.image.specs.Heads.{HeadOf};
ghost use Rattle.image.specs.Leaves.{state_of, Made};

use crate::heads::{Head, NO_CHIP};
use crate::images::ImageChip;
use flash::Unmade;

impl ImageChip {
    // A chip of the bytes; where they are no image, one with no blocks, and the reason.
    pub fn new(bytes: Vec<u8>) -> Result<ImageChip, Unmade<ImageChip>>
        ensures { Made bytes result }
    {
        let chip = ImageChip { bytes };
        match Head::read(&chip.bytes) {
            Ok(_) => Ok(chip),
            Err(why) => Err(Unmade { chip, why }),
        }
    }

    // The bytes, as the calls have left them.
    pub fn into_bytes(self) -> Vec<u8>
        ensures { result ≡ self.bytes }
    {
        self.bytes
    }

    // Not of `Chip`: the trait has the chip's rules alone, and would ask one method more of whoever writes a chip.
    pub fn is_on(&self) -> bool
        ensures { result ≡ (state_of self.now).on }
    {
        self.head().on
    }

    // How many blocks there are, how many chunks in each, and the power.
    pub(crate) fn head(&self) -> Head
        ensures { HeadOf (state_of self.now) result }
    {
        Head::read(&self.bytes).unwrap_or(NO_CHIP)
    }
}
