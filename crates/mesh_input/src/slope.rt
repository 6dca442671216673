//! Which triangles somebody can walk on.
ghost use Rattle.std.specs.Prelude.{ℕ, ◌≤◌};
ghost use Rattle.std.specs.Int.RustNames.{unsigned_abs};

/// How steep a triangle may be that somebody can walk on.
#[derive(Clone, Copy)]
pub struct Slope {
    /// Height units, 0 to 16384.
    pub rise: u32,
    /// Sixteenths of a cell over which it may rise so many units, 0 to 131072; with 0 nothing is too steep.
    pub run: u32,
    /// Whether the side that lies up does not matter.
    pub both_sides: bool,
    ghost rise_most: { rise ≤ 16384 },
    ghost run_most: { run ≤ 131072 },
}

/// From one corner of a triangle to another: 256ths of a sixteenth of a cell along x and z, 256ths of a height unit along y.
#[derive(Clone, Copy)]
pub struct Edge {
    pub x: i64,
    pub y: i64,
    pub z: i64,
    ghost x_most: { unsigned_abs x ≤ 5000000 },
    ghost y_most: { unsigned_abs y ≤ 5000000 },
    ghost z_most: { unsigned_abs z ≤ 5000000 },
}
