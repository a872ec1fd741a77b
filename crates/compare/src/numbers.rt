// Numbers that look random and are the same in each run, by xorshift.
#[derive(Clone, Copy)]
pub struct Numbers {
    state: u64,
}

impl Numbers {
    pub fn new(seed: u64) -> Numbers {
        let state = seed.wrapping_mul(0x9E37_79B9_7F4A_7C15) | 1;
        Numbers { state }
    }

    pub fn next(&mut self) -> u64 {
        let mut x = self.state;
        x ^= x << 13;
        x ^= x >> 7;
        x ^= x << 17;
        self.state = x;
        x.wrapping_mul(0x2545_F491_4F6C_DD1D) >> 16
    }

    // A number below n, and 0 below 0.
    pub fn below(&mut self, n: u32) -> u32 {
        if n == 0 {
            return 0;
        }
        (self.next() % n as u64) as u32
    }

    pub fn byte(&mut self) -> u8 {
        (self.next() % 256) as u8
    }

    // Whether it comes true that has so many chances in a hundred.
    pub fn chance(&mut self, percent: u32) -> bool {
        self.below(100) < percent
    }

    // One of these, and 0 if there are none.
    pub fn of(&mut self, choices: &[u32]) -> u32 {
        let count = u32::try_from(choices.len()).unwrap_or(u32::MAX);
        let at = self.below(count) as usize;
        choices.get(at).copied().unwrap_or(0)
    }
}
