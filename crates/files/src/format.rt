ghost use Rattle.std.specs.Prelude.{MatchResult};
ghost use Rattle.files.specs.Formats.{IsFormatted, NotFormatted};

use opening::attached;
use std::alloc::Global;
use texts::stops::Stop;

// The image with all its blocks blank.
#[tactic(auto, using(crate::proofs::Images::still_image))]
pub fn format(heap: Global, bytes: Vec<u8>) -> Result<Vec<u8>, Stop>
    ensures { MatchResult result (λ v. IsFormatted bytes.items v.items) (λ why. NotFormatted bytes.items why) }
{
    let mut store = attached(heap, bytes)?;
    store.format()?;
    Ok(store.release().into_bytes())
}
