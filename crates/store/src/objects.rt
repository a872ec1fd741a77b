ghost use Rattle.std.specs.Prelude.{◌≡◌, true, false, MatchResult};
ghost use Rattle.rules.specs.Lists.{within};
ghost use Rattle.scan.specs.declared.refusals.Refusal.TheVariants.{BadObject};

use crate::tickets::Ticket;
use rules::is_object;
use scan::Refusal;

// The number of an object.
#[derive(Clone, Copy, PartialEq, Eq, Debug)]
pub struct Object {
    number: u32,
    ghost real: { within 257 511 number ≡ true },
}

impl TryFrom<u32> for Object {
    type Error = Refusal;

    ghost try_from_gives = { λ k r. MatchResult r (λ o. (o.number ≡ k) × (within 257 511 k ≡ true)) (λ e. (e ≡ BadObject) × (within 257 511 k ≡ false)) };

    fn try_from(number: u32) -> Result<Object, Refusal> {
        if !is_object(number) {
            return Err(Refusal::BadObject);
        }
        Ok(Object { number })
    }
}

impl Object {
    pub fn number(self) -> u32
        ensures number { result ≡ self.number }
        ensures real { within 257 511 result ≡ true }
    {
        self.number
    }

    // The ticket that an opened file of this object would have.
    pub(crate) fn ticket(self) -> Ticket
        ensures { result.object ≡ self.number }
    {
        Ticket::new(self.number)
    }
}
