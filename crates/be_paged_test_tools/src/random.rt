//! Random numbers, the same in each run.

/// Numbers by xorshift.
#[derive(Drop)]
pub struct Random {
    state: u64,
}

impl Random {
    /// The numbers after this state, which mustn't be 0.
    pub fn new(state: u64) -> Random {
        Random { state }
    }

    /// A copy, which yields the same numbers.
    pub fn copy(&self) -> Random {
        Random { state: self.state }
    }

    /// The next number below a limit, or 0 if the limit is 0.
    pub fn below(&mut self, limit: u64) -> u64 {
        let mut x = self.state;
        x ^= x.wrapping_mul(1 << 13);
        x ^= x >> 7;
        x ^= x.wrapping_mul(1 << 17);
        self.state = x;
        if limit == 0 { 0 } else { x % limit }
    }
}
