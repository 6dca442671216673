//! The grid of a level's field, and what lies on it.
ghost use Rattle.std.specs.Prelude.{◌≡◌, ℕ, ◌*◌, ◌^◌, ◌≤◌, ◌<◌};
ghost use Rattle.std.specs.Int.RustNames.{unsigned_abs};
ghost use Rattle.world_grid.specs.Grid.{length_of};

use world_grid::GridStep;

/// An axis of a field.
#[derive(Clone, Copy)]
pub struct MeshAxis {
    /// What its whole numbers count.
    pub step: GridStep,
    /// A 256th of it, on which slopes are judged.
    pub fine: GridStep,
    /// Where the field begins, in steps from 0 of the game's numbers.
    pub begin: i64,
    /// The last number of a field.
    pub last: u32,
    ghost finer: { length_of step ≡ 256 * length_of fine },
    ghost near: { unsigned_abs begin < 2 ^ 23 },
    ghost few: { last ≤ 16384 },
}

/// The axes of a field: sixteenths of a cell along x and z, height units along y.
#[derive(Clone, Copy)]
pub struct MeshGrid {
    pub x: MeshAxis,
    pub y: MeshAxis,
    pub z: MeshAxis,
    ghost heights: { y.last ≤ 8190 },
}

/// Where a number of the game lies on an axis.
#[derive(Clone, Copy)]
pub(crate) struct AxisPlace {
    /// Its number.
    pub number: u32,
    /// Its fine number: how many fine steps it lies behind the place half a step before the beginning of the axis.
    pub fine: u32,
    ghost few: { number ≤ 16384 },
    ghost fine_few: { fine ≤ 4194560 },
}

/// A point of a mesh on the axes of a field.
#[derive(Clone, Copy)]
pub(crate) struct GridPoint {
    pub x: AxisPlace,
    pub y: AxisPlace,
    pub z: AxisPlace,
    ghost heights: { y.number ≤ 8190 },
}

/// A triangle of a mesh on the axes of a field.
#[derive(Clone, Copy)]
pub(crate) struct GridTriangle {
    pub a: GridPoint,
    pub b: GridPoint,
    pub c: GridPoint,
}
