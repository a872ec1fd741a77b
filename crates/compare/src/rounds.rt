use crate::calls::Call;
use crate::images::run_on_image;
use crate::lists::list;
use crate::numbers::Numbers;
use crate::runs::{AfterFailure, Ran, Start, Way, run};
use crate::starts::{pick_style, rows};
use crate::tallies::Tally;
use crate::telling::tell;
use bench::Plan;
use flash::{Chunk, Sizes};

// The rounds: a chip that is filled in some way, and a list of calls that is run in many ways.

// One round: a start and its list.
#[derive(Clone, Copy)]
struct Round<'a> {
    rt: &'a HostRuntime,
    start: Start<'a>,
    calls: &'a [Call],
}

impl Round<'_> {
    // Whether a run shows no difference; it tells of one.
    fn judge(&self, start: Start<'_>, ran: &Ran) -> anyhow::Result<bool> {
        if ran.difference.is_some() {
            tell(self.rt, start, ran)?;
        }
        Ok(ran.difference.is_none())
    }

    // A run of the first calls: what it leaves on the chip, unless it shows a difference.
    fn run_first(
        &self,
        plan: Plan,
        count: usize,
        way: Way,
        tally: &mut Tally,
    ) -> anyhow::Result<Option<Vec<Chunk>>> {
        let start = Start { plan, ..self.start };
        let calls = self.calls.get(..count).unwrap_or(self.calls);
        let ran = run(self.rt.alloc(), start, calls, way, tally)?;
        let same = self.judge(start, &ran)?;
        Ok(if same { Some(ran.rows) } else { None })
    }

    // The list up to each of its calls, so that the contents are compared after each.
    fn prefixes(&self, tally: &mut Tally) -> anyhow::Result<bool> {
        for count in 1..=self.calls.len() {
            let way = Way {
                after: AfterFailure::Ends,
                by_value: count % 2 == 0,
            };
            if self
                .run_first(Plan::default(), count, way, tally)?
                .is_none()
            {
                return Ok(false);
            }
        }
        Ok(true)
    }

    // The list with the supply failing at each program and erase: up to there, and on after a mount. What some run leaves on
    // the chip, unless one shows a difference.
    fn failures(
        &self,
        numbers: &mut Numbers,
        acts: u64,
        tally: &mut Tally,
    ) -> anyhow::Result<Option<Vec<Chunk>>> {
        let mut left = self.start.rows.to_vec(self.rt.alloc())?;
        for fails in 1..=acts {
            for after in [AfterFailure::Ends, AfterFailure::Mounts] {
                let plan = Plan {
                    fails,
                    damages: word(numbers),
                    takes: word(numbers),
                };
                let by_value = numbers.chance(50);
                let way = Way { after, by_value };
                let Some(rows) = self.run_first(plan, usize::MAX, way, tally)? else {
                    return Ok(None);
                };
                if numbers.chance(30) {
                    left = rows;
                }
            }
        }
        Ok(Some(left))
    }

    fn on_image(&self, tally: &mut Tally) -> anyhow::Result<bool> {
        match run_on_image(self.rt.alloc(), self.start, self.calls, tally) {
            Ok(ran) => self.judge(self.start, &ran),
            Err(_) => Ok(false),
        }
    }
}

// No chunk, all chunks, or some.
fn word(numbers: &mut Numbers) -> u64 {
    match numbers.below(4) {
        0 => 0,
        1 => u64::MAX,
        _ => numbers.next(),
    }
}

// Whether the two stores do the same in a round. It begins with what the round before left, or anew, and leaves what a run
// of its own left.
pub fn same_round(
    rt: &HostRuntime,
    numbers: &mut Numbers,
    sizes: Sizes,
    left: &mut Vec<Chunk>,
    tally: &mut Tally,
) -> anyhow::Result<bool> {
    if left.is_empty() || numbers.chance(40) {
        let style = pick_style(numbers);
        *left = rows(rt.alloc(), numbers, &style, sizes)?;
    }
    let count = sizes.blocks.saturating_mul(sizes.chunks);
    let count = count.saturating_mul(2).saturating_add(12);
    let (calls, acts) = list(rt.alloc(), numbers, left, sizes, count)?;
    let round = Round {
        rt,
        start: Start {
            rows: left,
            sizes,
            plan: Plan::default(),
        },
        calls: &calls,
    };
    if !round.prefixes(tally)? || !round.on_image(tally)? {
        return Ok(false);
    }
    match round.failures(numbers, acts, tally)? {
        Some(rows) => {
            *left = rows;
            Ok(true)
        }
        None => Ok(false),
    }
}
