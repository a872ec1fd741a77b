ghost use Rattle.std.specs.Prelude.{MatchResult};
ghost use Rattle.opening.specs.Opening.{IsAttached, IsOpened, NotAttached, NotOpened};

use image::ImageChip;
use std::alloc::Global;
use store::Store;
use texts::stops::Stop;

// A stopped store over the chip in an image.
pub fn attached(heap: Global, bytes: Vec<u8>) -> Result<Store<ImageChip>, Stop>
    ensures { MatchResult result (λ s. IsAttached bytes.items s) (λ why. NotAttached bytes.items why) }
{
    let chip = ImageChip::new(bytes)?;
    Store::attach(heap, chip).map_err(|_| Stop::Memory)
}

// A running store over the chip in an image, with no file open.
pub fn opened(heap: Global, bytes: Vec<u8>) -> Result<Store<ImageChip>, Stop>
    ensures { MatchResult result (λ s. IsOpened bytes.items s) (λ why. NotOpened bytes.items why) }
{
    let mut store = attached(heap, bytes)?;
    store.mount()?;
    Ok(store)
}
