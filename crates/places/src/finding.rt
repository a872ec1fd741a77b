ghost use Rattle.std.specs.Prelude.{◌≡◌};
ghost use Rattle.rules.specs.Places.{Flash, add_place, copy_place};
ghost use Rattle.places.specs.Places.{Told, place_told, open_in, blank_in, spare_in};

use crate::blocks::{count_standing, first_blank, first_standing};
use flash::Place;
use rules::Standing;
use scan::Index;

// The open block's first blank chunk.
#[tactic(auto, unfolding(crate::specs::Places::open_in))]
fn open_place(index: &Index) -> Option<Place>
    ensures { place_told result ≡ open_in index.now }
{
    let block = first_standing(index.stands(), Standing::Open)? as u32;
    let chunk = first_blank(&index.rows[index.sizes.rows_of(block)])? as u32;
    Some(Place::new(block, chunk))
}

// Chunk 0 of the lowest blank block.
#[tactic(auto, unfolding(crate::specs::Places::blank_in))]
fn blank_place(index: &Index) -> Option<Place>
    ensures { place_told result ≡ blank_in index.now }
{
    first_standing(index.stands(), Standing::Blank).map(|block| Place::new(block as u32, 0))
}

// The same, if another block stays blank.
#[tactic(auto, unfolding(crate::specs::Places::spare_in))]
fn spare_place(index: &Index) -> Option<Place>
    ensures { place_told result ≡ spare_in index.now }
{
    if count_standing(index.stands(), Standing::Blank) < 2 {
        return None;
    }
    blank_place(index)
}

// The place for a new record: in the open block; else, with two blank blocks or more, in the lowest. Where there is none,
// a block has to be cleaned.
#[tactic(auto, using(crate::proofs::Spots::add_told))]
pub fn add_place(index: &Index) -> Option<Place>
    ensures { (f : Flash) → Told f index.now → place_told result ≡ add_place f }
{
    open_place(index).or_else(|| spare_place(index))
}

// The place for a copy: in the open block; else in the lowest blank block.
#[tactic(auto, using(crate::proofs::Spots::copy_told))]
pub fn copy_place(index: &Index) -> Option<Place>
    ensures { (f : Flash) → Told f index.now → place_told result ≡ copy_place f }
{
    open_place(index).or_else(|| blank_place(index))
}
