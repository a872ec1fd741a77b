use crate::calls::{Answer, Call, Text};
use crate::plains;
use crate::reals::Real;
use crate::rooms::{MOST_BYTES, MOST_ROWS, Room};
use crate::tallies::Tally;
use bench::{BenchChip, Plan};
use flash::{Chip, Chunk, Record, Sizes};
use naive::{PlainChip, PlainStore};
use std::alloc::{AllocError, Global};
use store::Store;

// Runs of both stores beside each other.

// What a run begins with.
#[derive(Clone, Copy)]
pub struct Start<'a> {
    pub rows: &'a [Chunk],
    pub sizes: Sizes,
    pub plan: Plan,
}

// How a run goes on where the supply fails.
#[derive(Clone, Copy, PartialEq, Eq, Debug)]
pub enum AfterFailure {
    Ends,
    Mounts,
}

// How a list is run: where the supply fails, and whether the proved store is called by values.
#[derive(Clone, Copy)]
pub struct Way {
    pub after: AfterFailure,
    pub by_value: bool,
}

// Where the two stores differ.
#[derive(Clone, Copy, PartialEq, Eq, Debug)]
pub enum What {
    Making,
    Answers,
    BytesOrRows,
    Power,
    Chunks,
}

#[derive(Clone, Copy, Debug)]
pub struct Difference {
    pub what: What,
    pub real: Answer,
    pub plain: Answer,
}

// A run: the calls that were made, and the first difference.
#[derive(Drop)]
pub struct Ran {
    pub made: Vec<Call>,
    pub last: Answer,
    pub difference: Option<Difference>,
    // what the chips hold at the end, where it was compared
    pub rows: Vec<Chunk>,
}

impl Ran {
    pub fn new(heap: Global) -> Ran {
        Ran {
            made: Vec::new(heap),
            last: Answer::Done,
            difference: None,
            rows: Vec::new(heap),
        }
    }
}

pub fn differ(what: What) -> Option<Difference> {
    Some(Difference {
        what,
        real: Answer::Done,
        plain: Answer::Done,
    })
}

// Both stores, and what each wrote into.
pub struct Pair<C: Chip> {
    heap: Global,
    real: Real<C>,
    plain: PlainStore,
    real_room: Room,
    plain_room: Room,
}

// The two chips at the end of a run.
#[derive(Drop)]
pub struct Ended<C> {
    pub real: C,
    pub plain: PlainChip,
}

fn alike_records(one: &Record, other: &Record) -> bool {
    one.tag == other.tag && one.bytes.as_slice() == other.bytes.as_slice()
}

fn alike_chunks(one: &Chunk, other: &Chunk) -> bool {
    match (one, other) {
        (Chunk::Blank, Chunk::Blank) => true,
        (Chunk::Damaged, Chunk::Damaged) => true,
        (Chunk::Holds(one), Chunk::Holds(other)) => alike_records(one, other),
        _ => false,
    }
}

// Whether two chips hold the same.
pub fn alike(one: &[Chunk], other: &[Chunk]) -> bool {
    one.len() == other.len() && one.iter().zip(other).all(|(a, b)| alike_chunks(a, b))
}

impl<C: Chip> Pair<C> {
    pub fn new(
        heap: Global,
        store: Store<C>,
        plain: PlainChip,
        by_value: bool,
    ) -> Result<Pair<C>, AllocError>
    where
        C: Drop,
    {
        let real_room = Room::new(heap)?;
        let plain_room = Room::new(heap)?;
        Ok(Pair {
            heap,
            real: Real::new(heap, store, by_value),
            plain: PlainStore::new(heap, plain),
            real_room,
            plain_room,
        })
    }

    pub fn finish(self) -> Ended<C> {
        let Pair {
            heap: _,
            real,
            plain,
            real_room: _,
            plain_room: _,
        } = self;
        Ended {
            real: real.finish(),
            plain: plain.release(),
        }
    }

    // Makes a call of both stores.
    pub fn step(
        &mut self,
        call: &Call,
        ran: &mut Ran,
        tally: &mut Tally,
    ) -> Result<(), AllocError> {
        let asks = plains::is_question(call);
        if asks {
            self.real_room.clean();
            self.plain_room.clean();
        }
        ran.made.push(*call).map_err(AllocError::from)?;
        let real = self.real.make(self.heap, call, &mut self.real_room);
        let plain = match real {
            Answer::NoTicket => real,
            _ => plains::make(self.heap, &mut self.plain, call, &mut self.plain_room),
        };
        tally.count(real);
        ran.last = real;
        let what = if real != plain || plain.is_odd() {
            What::Answers
        } else if asks && !self.real_room.is_like(&self.plain_room) {
            What::BytesOrRows
        } else {
            return Ok(());
        };
        ran.difference = Some(Difference { what, real, plain });
        Ok(())
    }

    // Makes the calls of a list, up to a difference.
    pub fn play(
        &mut self,
        calls: &[Call],
        after: AfterFailure,
        ran: &mut Ran,
        tally: &mut Tally,
    ) -> Result<(), AllocError> {
        for call in calls {
            let opened = self.opened();
            self.step(call, ran, tally)?;
            if ran.difference.is_some() {
                return Ok(());
            }
            if ran.last.number() == 7 {
                if after == AfterFailure::Ends {
                    return Ok(());
                }
                self.go_on(&opened, ran, tally)?;
            }
        }
        self.look_round(ran, tally)
    }

    fn opened(&self) -> [bool; 4] {
        [257, 258, 259, 511].map(|object| self.plain.is_open(object))
    }

    // Mounts, and opens the files that were open.
    fn go_on(
        &mut self,
        opened: &[bool; 4],
        ran: &mut Ran,
        tally: &mut Tally,
    ) -> Result<(), AllocError> {
        self.step(&Call::Mount, ran, tally)?;
        for (object, was_open) in [257, 258, 259, 511].iter().zip(opened) {
            if *was_open && ran.difference.is_none() {
                self.step(&Call::Open { object: *object }, ran, tally)?;
            }
        }
        Ok(())
    }

    // Asks about everything.
    fn look_round(&mut self, ran: &mut Ran, tally: &mut Tally) -> Result<(), AllocError> {
        self.ask(&Call::List { rows: MOST_ROWS }, ran, tally)?;
        for object in [257, 258, 259, 511] {
            self.ask(&Call::Name { object }, ran, tally)?;
            self.ask(&Call::Size { object }, ran, tally)?;
            let read = Call::Read {
                object,
                position: 0,
                room: MOST_BYTES,
            };
            self.ask(&read, ran, tally)?;
        }
        for seed in 0..4 {
            let name = Text { length: 2, seed };
            self.ask(&Call::Find { name }, ran, tally)?;
        }
        Ok(())
    }

    // One more question, unless there is a difference.
    fn ask(&mut self, call: &Call, ran: &mut Ran, tally: &mut Tally) -> Result<(), AllocError> {
        if ran.difference.is_some() {
            return Ok(());
        }
        self.step(call, ran, tally)
    }
}

// Both stores over chips of the same contents. There is none where the rows do not fit.
pub fn pair_up(
    heap: Global,
    start: Start<'_>,
    by_value: bool,
) -> Result<Option<Pair<BenchChip>>, AllocError> {
    let rows = start.rows.to_vec(heap)?;
    let (plain, why) = PlainChip::new(start.rows.to_vec(heap)?, start.sizes, start.plan);
    let Ok(chip) = BenchChip::new(rows, start.sizes, start.plan) else {
        return Ok(None);
    };
    if why.is_some() {
        return Ok(None);
    }
    let Ok(store) = Store::attach(heap, chip) else {
        return Ok(None);
    };
    Ok(Some(Pair::new(heap, store, plain, by_value)?))
}

// Where the chips differ at the end of a run.
pub fn compare_chips(real: BenchChip, plain: &PlainChip) -> Option<Difference> {
    if real.is_on() != plain.is_on() {
        return differ(What::Power);
    }
    let rows = real.into_rows();
    if !alike(&rows, plain.rows()) {
        return differ(What::Chunks);
    }
    None
}

// Runs a list, and compares every answer, and the contents at the end.
pub fn run(
    heap: Global,
    start: Start<'_>,
    calls: &[Call],
    way: Way,
    tally: &mut Tally,
) -> Result<Ran, AllocError> {
    let mut ran = Ran::new(heap);
    tally.count_list();
    let Some(mut pair) = pair_up(heap, start, way.by_value)? else {
        ran.difference = differ(What::Making);
        return Ok(ran);
    };
    let played = pair.play(calls, way.after, &mut ran, tally);
    let ended = pair.finish();
    played?;
    let Ended { real, plain } = ended;
    if ran.difference.is_none() {
        ran.difference = compare_chips(real, &plain);
    }
    ran.rows = plain.into_rows();
    Ok(ran)
}
