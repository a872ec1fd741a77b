ghost use Rattle.std.specs.Prelude.{◌≡◌, ◌*◌, vec_len};

use bench::{BenchChip, Plan};

// A bench chip, and what is left of its plan, counted from now on.
#[derive(Drop)]
pub struct Bench {
    pub(crate) chip: BenchChip,
    pub(crate) plan: Plan,
    // each row is that of a place
    ghost full: { vec_len chip.rows ≡ chip.sizes.blocks * chip.sizes.chunks },
}
