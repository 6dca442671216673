//! Places of the game in a frame.
ghost use Rattle.std.specs.Prelude.{◌≡◌, ℕ, ◌≤◌, ◌<◌, ◌^◌, IfSome, IsNone, ℤ, pos, ◌+ℤ◌, ◌*ℤ◌};
ghost use Rattle.std.specs.Int.RustNames.{unsigned_abs};
ghost use Rattle.std.specs.Float.{Float};
ghost use Rattle.world_grid.specs.Grid.{told_of};
ghost use Rattle.world_grid.specs.Places.{IsPlaceOf, IsOffset, IsToldAt};
ghost use Rattle.world_grid.specs.declared.frame.WorldPoint.{WorldPoint};
ghost use Rattle.world_grid.specs.declared.place.FramePlace.{FramePlace};

use crate::frame::{Frame, STEP_LIMIT, WorldPoint};
use crate::grid_step::GridStep;
use crate::steps::{dequantize, quantize, step_of};

/// A place, counted from the corner of a frame.
#[repr(C)]
#[derive(Clone, Copy, PartialEq, Eq, Debug)]
pub struct FramePlace {
    /// Sixteenths of a cell.
    pub x: i32,
    /// Height units.
    pub y: i32,
    /// Sixteenths of a cell.
    pub z: i32,
}

/// Where a point of the game lies in a frame. None where a number of it is infinite or no number, where it or the frame's corner is 2^23
/// steps or more from 0, and where a size of the frame is none of 2^-10 to 2^10.
pub fn place_of(frame: Frame, at: WorldPoint) -> Option<FramePlace>
    ensures found { IfSome result (IsPlaceOf frame at) }
    ensures none { IsNone result → (place : FramePlace) → ¬ IsPlaceOf frame at place }
{
    let cell = step_of(frame.cell_size, 4)?;
    let unit = step_of(frame.cell_height, 0)?;
    let x = offset(at.x, cell, sixteenths(frame.x))?;
    let y = offset(at.y, unit, i64::from(frame.y))?;
    let z = offset(at.z, cell, sixteenths(frame.z))?;
    Some(FramePlace { x, y, z })
}

/// The point of the game at a place of a frame: the floats nearest to its numbers, as IEEE 754 rounds. None where no point lies there: where
/// the place or the frame's corner is 2^23 steps or more from 0, and where a size of the frame is none of 2^-10 to 2^10.
pub fn point_of(frame: Frame, place: FramePlace) -> Option<WorldPoint>
    ensures found { IfSome result (λ at. IsPlaceOf frame at place) }
    ensures told { IfSome result (λ at. IsToldAt frame place at) }
    ensures none { IsNone result → (at : WorldPoint) → ¬ IsPlaceOf frame at place }
{
    let cell = step_of(frame.cell_size, 4)?;
    let unit = step_of(frame.cell_height, 0)?;
    let x = float_at(place.x, cell, sixteenths(frame.x))?;
    let y = float_at(place.y, unit, i64::from(frame.y))?;
    let z = float_at(place.z, cell, sixteenths(frame.z))?;
    Some(WorldPoint { x, y, z })
}

/// Cells in sixteenths of a cell.
fn sixteenths(cells: i32) -> i64
    ensures { result ≡ pos 16 *ℤ cells }
{
    16 * i64::from(cells)
}

/// How many steps a float lies behind a number of them.
fn offset(x: f32, step: GridStep, from: i64) -> Option<i32>
    ensures found { IfSome result (IsOffset x step from) }
    ensures none { IsNone result → (n : ℤ) → ¬ IsOffset x step from n }
{
    if from.unsigned_abs() >= STEP_LIMIT {
        return None;
    }
    let count = quantize(x, step, STEP_LIMIT)?;
    Some(difference(count, from))
}

/// The float that lies so many steps behind a number of them.
fn float_at(n: i32, step: GridStep, from: i64) -> Option<f32>
    ensures found { IfSome result (λ x. IsOffset x step from n) }
    ensures told { IfSome result (λ x. x ≡ told_of (from +ℤ n) step) }
    ensures none { IsNone result → (x : Float) → ¬ IsOffset x step from n }
{
    if from.unsigned_abs() >= STEP_LIMIT {
        return None;
    }
    let count = from + i64::from(n);
    if count.unsigned_abs() >= STEP_LIMIT {
        return None;
    }
    Some(dequantize(count as i32, step))
}

/// How far one number lies behind another one.
fn difference(count: i64, from: i64) -> i32
    requires count { unsigned_abs count < 2 ^ 23 }
    requires from { unsigned_abs from < 2 ^ 23 }
    ensures value { from +ℤ result ≡ count }
    ensures small { unsigned_abs result < 2 ^ 24 }
{
    (count - from) as i32
}
