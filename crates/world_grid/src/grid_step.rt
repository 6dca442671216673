//! The step of a grid.
ghost use Rattle.std.specs.Prelude.{ℕ, ◌≤◌, ◌<◌, ◌^◌};

/// The length of a step: `digits` times 2^`power`, counted in the least float above 0, which is 2^-149.
#[derive(Clone, Copy)]
pub struct GridStep {
    /// 2^23 to 2^24 - 1.
    pub digits: u32,
    /// 100 to 136.
    pub power: u32,
    ghost least: { 2 ^ 23 ≤ digits },
    ghost most: { digits < 2 ^ 24 },
    ghost fine: { 100 ≤ power },
    ghost coarse: { power ≤ 136 },
}
