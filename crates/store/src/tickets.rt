ghost use Rattle.std.specs.Prelude.{◌≡◌, true};
ghost use Rattle.rules.specs.Lists.{within};

// The right to put to an open file and to cut it. It carries the object number and nothing else; it is neither copied nor
// dropped, so it has to go back by close.
pub struct Ticket {
    object: u32,
    ghost real: { within 257 511 object ≡ true },
}

impl Ticket {
    pub(crate) fn new(object: u32) -> Ticket
        requires { within 257 511 object ≡ true }
        ensures { result.object ≡ object }
    {
        Ticket { object }
    }

    // The object of the file.
    pub fn object(&self) -> u32
        ensures number { result ≡ self.now.object }
        ensures real { within 257 511 result ≡ true }
    {
        self.object
    }

    // Takes the ticket back.
    pub(crate) fn spend(self) -> u32
        ensures number { result ≡ self.object }
        ensures real { within 257 511 result ≡ true }
    {
        let Ticket { object } = self;
        object
    }
}
