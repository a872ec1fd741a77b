use crate::calls::{Answer, Call, Text};
use crate::runs::{Ended, Pair, Ran, Start, compare_chips, pair_up};
use crate::tallies::Tally;
use crate::telling::tell;
use bench::{BenchChip, Plan};
use flash::{Chunk, Place, Record, Sizes, Tag};
use naive::Refusal;

// Lists of calls whose answers docs/RULES.md gives, made of both stores.

// Three blocks of four, as the rules work on.
pub const WORKED: Sizes = Sizes {
    blocks: 3,
    chunks: 4,
};

pub const SURE: Plan = Plan {
    fails: 0,
    damages: 0,
    takes: 0,
};

pub const DONE: Answer = Answer::Done;

macro_rules! no {
    ($number:expr) => {
        Answer::Refused(Refusal::Number($number))
    };
}

macro_rules! cost {
    ($programs:expr, $erases:expr) => {
        Answer::Cost {
            programs: $programs,
            erases: $erases,
        }
    };
}

macro_rules! text {
    ($length:expr, $seed:expr) => {
        Text {
            length: $length,
            seed: $seed,
        }
    };
}

macro_rules! create {
    ($object:expr, $name:expr) => {
        Call::Create {
            object: $object,
            name: $name,
        }
    };
}

macro_rules! rename {
    ($object:expr, $name:expr) => {
        Call::Rename {
            object: $object,
            name: $name,
        }
    };
}

macro_rules! put {
    ($object:expr, $chunk:expr, $length:expr) => {
        Call::Put {
            object: $object,
            chunk: $chunk,
            bytes: Text {
                length: $length,
                seed: 3,
            },
        }
    };
}

macro_rules! cut {
    ($object:expr, $length:expr) => {
        Call::Cut {
            object: $object,
            length: $length,
        }
    };
}

macro_rules! read {
    ($object:expr, $position:expr, $room:expr) => {
        Call::Read {
            object: $object,
            position: $position,
            room: $room,
        }
    };
}

macro_rules! place {
    ($block:expr, $chunk:expr) => {
        Place {
            block: $block,
            chunk: $chunk,
        }
    };
}

macro_rules! tag {
    ($first:expr, $second:expr, $third:expr, $serial:expr) => {
        Tag {
            first: $first,
            second: $second,
            third: $third,
            serial: $serial,
        }
    };
}

pub(crate) use cost;
pub(crate) use create;
pub(crate) use cut;
pub(crate) use no;
pub(crate) use place;
pub(crate) use put;
pub(crate) use read;
pub(crate) use rename;
pub(crate) use tag;
pub(crate) use text;

// A chunk at the start of a case; a record's data begin with three bytes, and the others are 0.
#[derive(Clone, Copy)]
pub enum Bit {
    Blank,
    Damaged,
    Record(Tag, [u8; 3]),
}

// A step: a call, and what the rules say that it answers.
pub type Step = (Call, Answer);

// A record that the chip holds at the end.
pub type Wanted = (Place, Tag);

// A chip: its sizes and its plan.
#[derive(Clone, Copy)]
pub struct Setting {
    pub sizes: Sizes,
    pub plan: Plan,
}

// A case: what the first chunks of a chip are, the others being blank, and two lists of steps, one after the other.
#[derive(Clone, Copy)]
pub struct Case {
    pub setting: Setting,
    pub bits: &'static [Bit],
    pub first: &'static [Step],
    pub then: &'static [Step],
    pub wanted: &'static [Wanted],
}

// A chip of the worked sizes, whose supply does not fail.
pub const SETTING: Setting = Setting {
    sizes: WORKED,
    plan: SURE,
};

// A case on a blank chip.
pub const CASE: Case = Case {
    setting: SETTING,
    bits: &[],
    first: &[],
    then: &[],
    wanted: &[],
};

fn chunk_of(bit: Bit) -> Chunk {
    match bit {
        Bit::Blank => Chunk::Blank,
        Bit::Damaged => Chunk::Damaged,
        Bit::Record(tag, head) => {
            let mut bytes = [0; 2048];
            for (to, from) in bytes.iter_mut().zip(&head) {
                *to = *from;
            }
            Chunk::Holds(Record { tag, bytes })
        }
    }
}

// The cases that were run, and whether all came as the rules say.
#[derive(Clone, Copy)]
pub struct Cases<'a> {
    rt: &'a HostRuntime,
    pub tally: Tally,
    pub is_well: bool,
    pub count: u64,
}

// Whether a chip holds a record of these numbers at a place.
fn holds(rows: &[Chunk], sizes: Sizes, at: Place, wanted: Tag) -> bool {
    match rows.get(sizes.row(at)) {
        Some(Chunk::Holds(record)) => record.tag == wanted,
        _ => false,
    }
}

impl<'a> Cases<'a> {
    pub fn new(rt: &'a HostRuntime) -> Cases<'a> {
        Cases {
            rt,
            tally: Tally::new(),
            is_well: true,
            count: 0,
        }
    }

    pub fn run(&mut self, case: &Case) -> anyhow::Result<()> {
        let Case {
            setting,
            bits,
            first,
            then,
            wanted,
        } = *case;
        self.make(setting, bits, first, then, wanted)
    }

    // Makes the calls of a list that is a case of its own.
    pub fn run_list(
        &mut self,
        setting: Setting,
        bits: &[Bit],
        steps: &[Step],
    ) -> anyhow::Result<()> {
        self.make(setting, bits, steps, &[], &[])
    }

    // Makes the calls of both stores.
    fn make(
        &mut self,
        setting: Setting,
        bits: &[Bit],
        first: &[Step],
        then: &[Step],
        wanted: &[Wanted],
    ) -> anyhow::Result<()> {
        self.count = self.count.saturating_add(1);
        let mut rows = vec![in self.rt.alloc(); Chunk::Blank; setting.sizes.count()]?;
        for (to, from) in rows.iter_mut().zip(bits) {
            *to = chunk_of(*from);
        }
        let start = Start {
            rows: &rows,
            sizes: setting.sizes,
            plan: setting.plan,
        };
        let mut ran = Ran::new(self.rt.alloc());
        let Some(mut pair) = pair_up(self.rt.alloc(), start, false)? else {
            return self.fail(start, &ran, "the chip is not made");
        };
        let played = self.play(&mut pair, first, &mut ran);
        let played = match played {
            Ok(None) => self.play(&mut pair, then, &mut ran),
            _ => played,
        };
        let ended = pair.finish();
        if let Some(answer) = played? {
            println!(self.rt; "the rules say {answer:?}, and both stores {:?}", ran.last)?;
            return self.fail(start, &ran, "the rules say otherwise");
        }
        self.compare(start, ran, ended, wanted)
    }

    // Makes steps up to a difference, or up to an answer that both stores give and the rules do not: the rules' answer.
    fn play(
        &mut self,
        pair: &mut Pair<BenchChip>,
        steps: &[Step],
        ran: &mut Ran,
    ) -> anyhow::Result<Option<Answer>> {
        for (call, answer) in steps {
            if ran.difference.is_some() {
                return Ok(None);
            }
            pair.step(call, ran, &mut self.tally)?;
            if ran.difference.is_none() && ran.last != *answer {
                return Ok(Some(*answer));
            }
        }
        Ok(None)
    }

    fn compare(
        &mut self,
        start: Start<'_>,
        mut ran: Ran,
        ended: Ended<BenchChip>,
        wanted: &[Wanted],
    ) -> anyhow::Result<()> {
        for (at, tag) in wanted {
            if !holds(ended.plain.rows(), start.sizes, *at, *tag) {
                println!(self.rt; "no record {tag} at {at}")?;
                self.fail(start, &ran, "the rules say otherwise")?;
            }
        }
        if ran.difference.is_none() {
            ran.difference = compare_chips(ended.real, &ended.plain);
        }
        if ran.difference.is_some() {
            self.fail(start, &ran, "the stores differ")?;
        }
        Ok(())
    }

    fn fail(&mut self, start: Start<'_>, ran: &Ran, why: &str) -> anyhow::Result<()> {
        self.is_well = false;
        println!(self.rt; "case {}: {why}", self.count)?;
        tell(self.rt, start, ran)
    }
}
