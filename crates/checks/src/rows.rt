ghost use Rattle.std.specs.Prelude.{◌≡◌, true, false, MatchResult};
ghost use Rattle.rules.specs.Lists.{within};

use rules::{CHUNK_BYTES, LAST_NUMBER};
use scan::Refusal;

// Refused for this reason where it holds.
pub(crate) fn refuse_if(holds: bool, why: Refusal) -> Result<(), Refusal>
    ensures { MatchResult result (λ _. holds ≡ false) (λ e. (holds ≡ true) × (e ≡ why)) }
{
    if holds {
        return Err(why);
    }
    Ok(())
}

// Whether a number is that of a chunk.
pub(crate) fn is_number(number: u32) -> bool
    ensures { result ≡ within 1 1000 number }
{
    (1..=LAST_NUMBER).contains(&number)
}

// Whether a put may be of so many bytes.
pub(crate) fn is_count(count: usize) -> bool
    ensures { result ≡ within 1 2048 count }
{
    (1..=CHUNK_BYTES).contains(&count)
}
