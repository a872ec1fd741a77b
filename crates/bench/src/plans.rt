ghost use Rattle.std.specs.Prelude.{◌≡◌, if◌then◌else◌};
ghost use Rattle.bench.specs.Plans.{bit, outcome};

use flash::Chunk;

// When the supply fails, and what the failing act leaves. An act is a program or an erase that is not refused.
#[derive(Clone, Copy, PartialEq, Eq, Default, Debug)]
pub struct Plan {
    // the act that fails, counted from 1 since the chip was made; 0 means none: no Option, as docs/RULES.md counts a plan so
    pub fails: u64,
    // bit c: chunk c is damaged then, unless it takes its new content
    pub damages: u64,
    // bit c: chunk c takes its new content then
    pub takes: u64,
}

fn has(word: u64, chunk: usize) -> bool
    ensures { result ≡ bit word chunk }
{
    chunk < 64 && (word >> chunk) % 2 == 1
}

impl Plan {
    // What an act leaves in a chunk: its new content or, where it fails, what the plan says.
    pub(crate) fn leaves(&self, fails: bool, chunk: usize, old: Chunk, new: Chunk) -> Chunk
        ensures { result ≡ (if fails then outcome self.now chunk old new else new) }
    {
        if !fails || has(self.takes, chunk) {
            new
        } else if has(self.damages, chunk) {
            Chunk::Damaged
        } else {
            old
        }
    }
}
