ghost use Rattle.std.specs.Prelude.{◌≡◌, ℕ, cond, ◌&&◌, ◌==◌};
ghost use Rattle.rules.specs.Lists.{within};
ghost use Rattle.store.specs.Stores.{NoneHeld, held_at};

use rules::{FIRST_OBJECT, OBJECTS, is_object};

// Which files are open: a truth value for each object.
pub(crate) type Held = [bool; OBJECTS];

// No file is open.
#[tactic(auto, using(crate::proofs::Holding::none_are))]
pub(crate) fn none_held() -> Held
    ensures { NoneHeld result }
{
    [false; OBJECTS]
}

// Whether the file of an object is open.
pub(crate) fn is_held(held: &Held, object: u32) -> bool
    ensures { result ≡ held_at held.now object }
{
    is_object(object) && held[(object - FIRST_OBJECT) as usize]
}

// The file of an object is open now, or is not.
pub(crate) fn hold(held: &mut Held, object: u32, open: bool)
    ensures { (k : ℕ) → held_at held.new k ≡ cond (within 257 511 object && k == object) «open» (held_at held.old k) }
{
    if is_object(object) {
        held[(object - FIRST_OBJECT) as usize] = open;
    }
}
