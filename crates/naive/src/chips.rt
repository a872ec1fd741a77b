use crate::refusals::Refusal;
use bench::Plan;
use flash::{Act, Chunk, Place, Purpose, Record, Sizes};

// A chip by section 1, with the rows and the plan of section 9.
#[derive(Drop)]
pub struct PlainChip {
    rows: Vec<Chunk>,
    sizes: Sizes,
    on: bool,
    plan: Plan,
    // the programs and erases that were not refused since the making
    acts: u64,
}

// Whether bit c of a number of the plan is 1.
fn bit(number: u64, c: u32) -> bool {
    c < 64 && (number >> c) & 1 == 1
}

impl PlainChip {
    // A chip of these rows, off; with other rows than N × P the refusal, and a chip with no blocks that is on.
    pub fn new(rows: Vec<Chunk>, sizes: Sizes, plan: Plan) -> (PlainChip, Option<Refusal>) {
        let fits = rows.len() as u64 == sizes.blocks as u64 * sizes.chunks as u64;
        let sizes = if fits {
            sizes
        } else {
            Sizes {
                blocks: 0,
                chunks: 0,
            }
        };
        let why = if fits { None } else { Some(Refusal::Number(3)) };
        let chip = PlainChip {
            rows,
            sizes,
            on: !fits,
            plan,
            acts: 0,
        };
        (chip, why)
    }

    pub fn sizes(&self) -> Sizes {
        self.sizes
    }

    pub fn is_on(&self) -> bool {
        self.on
    }

    pub fn acts(&self) -> u64 {
        self.acts
    }

    pub fn rows(&self) -> &[Chunk] {
        &self.rows
    }

    pub fn into_rows(self) -> Vec<Chunk> {
        self.rows
    }

    pub fn restart(&mut self) {
        self.on = true;
    }

    // What a chunk is: 4 and 5 are the refusals.
    pub fn look(&self, at: Place) -> Result<&Chunk, Refusal> {
        if !self.on {
            return Err(Refusal::Number(4));
        }
        self.chunk(at).ok_or(Refusal::Number(5))
    }

    // The record that a chunk holds.
    pub fn fetch(&self, at: Place) -> Result<&Record, Refusal> {
        match self.look(at)? {
            Chunk::Holds(record) => Ok(record),
            Chunk::Blank | Chunk::Damaged => Err(Refusal::Number(8)),
        }
    }

    pub fn program(&mut self, purpose: Purpose, at: Place, record: &Record) -> Result<(), Refusal> {
        self.look(at)?;
        for chunk in at.chunk..self.sizes.chunks {
            if !self.is_blank(Place {
                block: at.block,
                chunk,
            }) {
                return Err(Refusal::Number(6));
            }
        }
        let fails = self.act();
        self.change(at, fails, Chunk::Holds(*record));
        let act = match purpose {
            Purpose::Adding => Act::Adding(at),
            Purpose::Copying => Act::Copying(at),
        };
        self.end(fails, act)
    }

    pub fn erase(&mut self, block: u32) -> Result<(), Refusal> {
        if !self.on {
            return Err(Refusal::Number(4));
        }
        if block >= self.sizes.blocks {
            return Err(Refusal::Number(5));
        }
        let fails = self.act();
        for chunk in 0..self.sizes.chunks {
            self.change(Place { block, chunk }, fails, Chunk::Blank);
        }
        self.end(fails, Act::Erasing(block))
    }

    // Power or not, what a chunk is, if there is such a chunk.
    pub fn chunk(&self, at: Place) -> Option<&Chunk> {
        let row = self.row(at)?;
        self.rows.get(row)
    }

    pub fn is_blank(&self, at: Place) -> bool {
        matches!(self.chunk(at), Some(Chunk::Blank))
    }

    fn row(&self, at: Place) -> Option<usize> {
        if at.block >= self.sizes.blocks || at.chunk >= self.sizes.chunks {
            return None;
        }
        let before = at.block as usize * self.sizes.chunks as usize;
        Some(before + at.chunk as usize)
    }

    // Counts an act, and tells whether it is the one that fails.
    fn act(&mut self) -> bool {
        self.acts = self.acts.saturating_add(1);
        self.acts == self.plan.fails
    }

    // What an act leaves in one of its chunks.
    fn change(&mut self, at: Place, fails: bool, new: Chunk) {
        let takes = !fails || bit(self.plan.takes, at.chunk);
        let damaged = bit(self.plan.damages, at.chunk);
        let Some(row) = self.row(at) else { return };
        let Some(chunk) = self.rows.get_mut(row) else {
            return
        };
        if takes {
            *chunk = new;
        } else if damaged {
            *chunk = Chunk::Damaged;
        }
    }

    fn end(&mut self, fails: bool, act: Act) -> Result<(), Refusal> {
        if !fails {
            return Ok(());
        }
        self.on = false;
        Err(Refusal::Failed(act))
    }
}
