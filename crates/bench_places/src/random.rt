//! Random places.

use nav_base::Point;
use nav_ground::Setting;

/// A sequence of numbers, each from the one before by a linear congruence.
#[derive(Drop)]
pub struct Random {
    pub state: u64,
}

impl Random {
    /// A number below a bound, or 0 where that is 0.
    fn below(&mut self, bound: u32) -> i32 {
        self.state = self
            .state
            .wrapping_mul(6364136223846793005)
            .wrapping_add(1442695040888963407);
        let high = (self.state >> 33) % u64::from(bound.max(1));
        i32::try_from(high).unwrap_or(0)
    }

    /// A point of a field.
    pub fn point(&mut self, setting: &Setting) -> Point {
        let x = self.below(setting.width.wrapping_mul(16));
        let z = self.below(setting.depth.wrapping_mul(16));
        Point { x, z }
    }
}
