ghost use Rattle.std.specs.Prelude.{◌≡◌, ◌*◌, ◌≤◌, vec_len};

use flash::{Look, Sizes};
use names::Names;
use rules::Standing;

// What is known of a chip: its sizes, what each chunk is, how each block stands, and the name of each file. There is room
// for the largest chip: 2,048 chunks in at most 64 blocks. The room stays whole: attach alone takes memory, and a refused
// mount leaves new sizes beside the standings of before, so no length could go with both.
#[derive(Drop)]
pub struct Index {
    pub sizes: Sizes,
    pub rows: Vec<Look>,
    pub standings: Vec<Standing>,
    pub names: Names,
    ghost places: { vec_len rows ≡ 2048 },
    ghost blocks: { vec_len standings ≡ 64 },
    ghost few: { sizes.blocks ≤ 64 },
    ghost within: { sizes.blocks * sizes.chunks ≤ 2048 },
}
