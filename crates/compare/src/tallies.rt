use crate::calls::Answer;
use std::fmt;

// How many answers of each number came: 0 stands for what was not refused.
#[derive(Clone, Copy)]
pub struct Tally {
    counts: [u64; 30],
    pub lists: u64,
}

impl Tally {
    pub fn new() -> Tally {
        Tally {
            counts: [0; 30],
            lists: 0,
        }
    }

    pub fn count_number(&mut self, number: u32) {
        if let Some(count) = self.counts.get_mut(number as usize) {
            *count = count.saturating_add(1);
        }
    }

    pub fn count(&mut self, answer: Answer) {
        self.count_number(answer.number());
    }

    pub fn count_list(&mut self) {
        self.lists = self.lists.saturating_add(1);
    }

    // Whether each refusal came.
    pub fn is_whole(&self) -> bool {
        self.counts.iter().all(|count| *count > 0)
    }
}

impl fmt::Display for Tally {
    fn fmt<W: fmt::Write>(&self, f: &mut fmt::Formatter<W>) -> fmt::Result {
        writeln!(f, "number  answers")?;
        for (number, count) in self.counts.iter().enumerate() {
            if number == 0 {
                writeln!(f, "   not  {count}")?;
            } else {
                writeln!(f, "{number:>6}  {count}")?;
            }
        }
        Ok(())
    }
}
