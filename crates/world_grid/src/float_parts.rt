//! A finite float as a whole number times a power of two.
ghost use Rattle.std.specs.Prelude.{ℕ, ◌≤◌, ◌<◌, ◌^◌};

/// A sign, and a size that is `digits` times 2^`power`, counted in the least float above 0, which is 2^-149.
#[derive(Clone, Copy)]
pub(crate) struct FloatParts {
    pub negative: bool,
    /// Below 2^24, and from 2^23 on where the power is above 0.
    pub digits: u32,
    /// 0 to 253.
    pub power: u32,
    ghost few: { digits < 2 ^ 24 },
    ghost leading: { 1 ≤ power → 2 ^ 23 ≤ digits },
    ghost low: { power ≤ 253 },
}
