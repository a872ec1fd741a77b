ghost use Rattle.std.specs.Prelude.{◌≡◌, map};
ghost use Rattle.rules.specs.Calls.{put};
ghost use Rattle.store.specs.Making.{call_told};
ghost use Rattle.demos.specs.Story.{first_calls, second_calls};

use bench::Plan;
use runs::Call;
use store::Object;

// The story of the demonstration: a tester cuts a wrong verdict away, and the supply fails in the cleaning that would
// have erased it.

// The tenth act fails. It is an erase, and leaves chunk 2 of its block as it was and the others blank.
pub(crate) const PLAN: Plan = Plan {
    fails: 10,
    damages: 0,
    takes: 0b1011,
};

fn put(file: Object, number: u32, bytes: &'static [u8]) -> Call<'static>
    ensures { call_told result ≡ put file.number number bytes.now }
{
    Call::Put {
        file,
        number,
        bytes,
    }
}

// The calls up to the failure.
pub(crate) fn first(file: Object) -> [Call<'static>; 10]
    ensures { map call_told result ≡ first_calls file.number }
{
    let object = file.number();
    [
        Call::Create {
            object,
            name: b"adder.net",
        },
        Call::Open { object },
        put(file, 1, b"rev 1: XOR a b sum"),
        put(file, 2, b"FAIL at pin 7"),
        Call::Cut { file, length: 1 },
        put(file, 1, b"rev 2: XOR a c sum"),
        put(file, 1, b"rev 3: XOR b c sum"),
        put(file, 1, b"rev 4: XOR c b sum"),
        put(file, 1, b"rev 5: XOR c a sum"),
        put(file, 1, b"rev 6: XOR b a sum"),
    ]
}

// The calls after it.
pub(crate) fn second(file: Object) -> [Call<'static>; 4]
    ensures { map call_told result ≡ second_calls file.number }
{
    let object = file.number();
    [
        Call::Open { object },
        put(file, 1, b"rev 6: XOR b a sum"),
        Call::Close { file },
        Call::Collect,
    ]
}

// What is said between the calls.

pub(crate) const BEGINS: &str = "\
A tester keeps a netlist on a flash chip of 3 blocks with 4 chunks each.
The chip is blank and off, and its supply will fail in the tenth act. An act
is a program or an erase that passes the chip's checks.

The tester mounts the store, creates a file, and puts the netlist and a
verdict. The verdict is wrong and is cut away, which fills block 0. Then the
netlist is put again and again, until block 1 is full too. For the next put a
block has to be cleaned, and the supply fails:
";

pub(crate) const FAILS: &str = "\n\
The supply is back. The cut header of block 0 is copied to block 2, but the
erase has left one record of block 0: the verdict that was cut away. While
that header stands, the verdict stays hidden:
";

pub(crate) const GOES_ON: &str = "\n\
The store is attached and mounted anew. The put that broke off is made again:
block 0 is erased, block 1 is cleaned, and the record is programmed. Then one
more block is cleaned:
";

pub(crate) const ENDS: &str = "\n\
The files are right. The netlist is the one that was put last, and the
verdict has not returned:
";
