//! Frames: where a level's field lies among the game's numbers.
ghost use Rattle.std.specs.Prelude.{◌≡◌, ℕ, ◌*◌, ◌≤◌, ◌<◌, ◌^◌, IfSome, IsNone, MatchBool, ℤ, pos, ◌+ℤ◌, ◌-ℤ◌, ◌*ℤ◌, ◌≤ℤ◌};
ghost use Rattle.std.specs.Int.RustNames.{unsigned_abs};
ghost use Rattle.world_grid.specs.Grid.{IsSteps, IsStepOf};
ghost use Rattle.world_grid.specs.Frames.{IsFieldOf, IsStretch, IsStretchBetween, IsFloorOf, IsWithinHeight};
ghost use Rattle.world_grid.specs.declared.frame.FramedField.{FramedField};
ghost use Rattle.world_grid.specs.declared.frame.Stretch.{Stretch};

use crate::grid_step::GridStep;
use crate::steps::{quantize, step_of};

/// The sizes of a cell and a height unit, in the game's unit, and the corner of a field, in cells and height units from 0 of its numbers.
#[repr(C)]
#[derive(Clone, Copy)]
pub struct Frame {
    /// 2^-10 to 2^10.
    pub cell_size: f32,
    /// 2^-10 to 2^10.
    pub cell_height: f32,
    pub x: i32,
    pub y: i32,
    pub z: i32,
}

/// A place in the game's numbers; y points up.
#[repr(C)]
#[derive(Clone, Copy)]
pub struct WorldPoint {
    pub x: f32,
    pub y: f32,
    pub z: f32,
}

/// A frame, and the columns of its field along x and z.
#[repr(C)]
#[derive(Clone, Copy)]
pub struct FramedField {
    pub frame: Frame,
    /// 1 to 1024.
    pub width: u32,
    /// 1 to 1024.
    pub depth: u32,
}

/// Columns next to one another.
#[derive(Clone, Copy)]
pub(crate) struct Stretch {
    /// The first one, in cells from 0 of the game's numbers.
    pub first: i32,
    pub count: u32,
}

/// Steps from 0 of the game's numbers, of which a place of a level has fewer. Below them a float tells each step from the next.
pub const STEP_LIMIT: u64 = 0x80_0000;

/// The columns that a field has at most along x and z.
const MOST_COLUMNS: u32 = 1024;

/// The height units between the lowest and the highest place of a level, at most.
const MOST_HEIGHT: i64 = 8190;

/// The frame whose field begins in the last whole column that is not behind `low`, at its height, and the columns that reach from there
/// to `high`. None where no field of 1024 columns and 8190 height units holds both, where a place is 2^23 steps or more from 0, where `high`
/// is behind `low`, and where a size is none of 2^-10 to 2^10.
pub fn frame_of(
    cell_size: f32,
    cell_height: f32,
    low: WorldPoint,
    high: WorldPoint,
) -> Option<FramedField>
    ensures found { IfSome result (IsFieldOf cell_size cell_height low high) }
    ensures none { IsNone result → (field : FramedField) → ¬ IsFieldOf cell_size cell_height low high field }
{
    let cell = step_of(cell_size, 4)?;
    let unit = step_of(cell_height, 0)?;
    let across = columns(low.x, high.x, cell)?;
    let along = columns(low.z, high.z, cell)?;
    let y = floor_of(low.y, high.y, unit)?;
    Some(FramedField {
        frame: Frame {
            cell_size,
            cell_height,
            x: across.first,
            y,
            z: along.first,
        },
        width: across.count,
        depth: along.count,
    })
}

/// The columns from one float to another.
fn columns(low: f32, high: f32, cell: GridStep) -> Option<Stretch>
    ensures found { IfSome result (IsStretchBetween low high cell) }
    ensures none { IsNone result → (stretch : Stretch) → ¬ IsStretchBetween low high cell stretch }
{
    let low = quantize(low, cell, STEP_LIMIT)?;
    let high = quantize(high, cell, STEP_LIMIT)?;
    stretch_between(low, high)
}

/// The columns from one number of sixteenths to another.
fn stretch_between(low: i64, high: i64) -> Option<Stretch>
    requires low { unsigned_abs low < 2 ^ 23 }
    requires high { unsigned_abs high < 2 ^ 23 }
    ensures found { IfSome result (IsStretch low high) }
    ensures none { IsNone result → (stretch : Stretch) → ¬ IsStretch low high stretch }
{
    if high < low {
        return None;
    }
    let first = column_of(low);
    let count = columns_to(behind(high, first));
    if count > MOST_COLUMNS {
        return None;
    }
    Some(Stretch { first, count })
}

/// The column that a number of sixteenths lies in; on a line between two it is the greater.
fn column_of(n: i64) -> i32
    requires near { unsigned_abs n < 2 ^ 23 }
    ensures begins { n ≡ pos 16 *ℤ result +ℤ pos (unsigned_abs (n -ℤ pos 16 *ℤ result)) }
    ensures close { unsigned_abs (n -ℤ pos 16 *ℤ result) < 16 }
    ensures near { unsigned_abs result < 2 ^ 23 }
{
    n.div_euclid(16) as i32
}

/// How many sixteenths a number of them lies behind the beginning of a column.
fn behind(n: i64, first: i32) -> u32
    requires near { unsigned_abs n < 2 ^ 23 }
    requires column { unsigned_abs first < 2 ^ 23 }
    requires order { (pos 16 *ℤ first) ≤ℤ n }
    ensures { n ≡ pos 16 *ℤ first +ℤ pos result }
{
    (n - 16 * i64::from(first)) as u32
}

/// How many columns reach so many sixteenths from the beginning of the first, but one at least.
fn columns_to(rest: u32) -> u32
    ensures reaches { rest ≤ 16 * result }
    ensures some { 1 ≤ result }
    ensures fewest { (fewer : ℕ) → 1 ≤ fewer → rest ≤ 16 * fewer → result ≤ fewer }
{
    rest.div_ceil(16).max(1)
}

/// The height of the lower float, where the higher one is no more than a field's height above it.
fn floor_of(low: f32, high: f32, unit: GridStep) -> Option<i32>
    ensures found { IfSome result (IsFloorOf low high unit) }
    ensures none { IsNone result → (y : ℤ) → ¬ IsFloorOf low high unit y }
{
    let low = quantize(low, unit, STEP_LIMIT)?;
    let high = quantize(high, unit, STEP_LIMIT)?;
    if !is_within_height(low, high) {
        return None;
    }
    Some(low as i32)
}

/// Whether a height lies no lower than another one, and no more than a field's height above it.
fn is_within_height(low: i64, high: i64) -> bool
    requires low { unsigned_abs low < 2 ^ 23 }
    requires high { unsigned_abs high < 2 ^ 23 }
    ensures { MatchBool result (IsWithinHeight low high) (¬ IsWithinHeight low high) }
{
    low <= high && high - low <= MOST_HEIGHT
}
