ghost use Rattle.std.specs.Prelude.{◌≡◌, ◌+◌, ◌<◌};

use cleaning::Counts;
use image::ImageChip;
use store::Store;

// An image after a change, and what the change cost in all.
#[derive(Drop)]
pub struct Edited {
    pub bytes: Vec<u8>,
    pub counts: Counts,
}

impl Edited {
    // What a store over an image leaves.
    pub(crate) fn of(store: Store<ImageChip>, counts: Counts) -> Edited
        ensures bytes { result.bytes ≡ store.chip.bytes }
        ensures counts { result.counts ≡ counts }
    {
        Edited {
            bytes: store.release().into_bytes(),
            counts,
        }
    }
}

// What two changes cost together.
pub(crate) fn both(first: Counts, second: Counts) -> Counts
    requires programs { first.programs + second.programs < 1000000 }
    requires erases { first.erases + second.erases < 1000000 }
    ensures { result ≡ record { programs = first.programs + second.programs; erases = first.erases + second.erases } }
{
    Counts {
        programs: first.programs + second.programs,
        erases: first.erases + second.erases,
    }
}
