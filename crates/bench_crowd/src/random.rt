//! Random numbers.

/// A sequence of numbers, each from the one before by a linear congruence.
#[derive(Drop)]
pub struct Random {
    pub state: u64,
}

impl Random {
    /// A number below a bound, or 0 where that is 0.
    pub fn below(&mut self, bound: u32) -> u32 {
        self.state = self
            .state
            .wrapping_mul(6364136223846793005)
            .wrapping_add(1442695040888963407);
        let high = (self.state >> 33) % u64::from(bound.max(1));
        u32::try_from(high).unwrap_or(0)
    }

    /// A number from -bound to bound.
    pub fn around(&mut self, bound: u32) -> i32 {
        let high = i64::from(self.below(bound.wrapping_mul(2).wrapping_add(1)));
        i32::try_from(high.wrapping_sub(i64::from(bound))).unwrap_or(0)
    }
}
