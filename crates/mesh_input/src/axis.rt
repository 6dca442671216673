//! The axes of a level's field: which whole number a number of the game is there, and on a grid that is 256 times finer.
ghost use Rattle.std.specs.Prelude.{◌≡◌, ℕ, ◌+◌, ◌*◌, ◌^◌, ◌≤◌, ◌<◌, IfSome, IsNone, pos, ◌+ℤ◌, ◌-ℤ◌, ◌*ℤ◌, ◌≤ℤ◌};
ghost use Rattle.std.specs.Int.RustNames.{unsigned_abs};
ghost use Rattle.mesh_input.specs.Axes.{IsGridOf, IsAxisOf, IsOnAxis, LiesOnAxis, IsFineAt, IsPlaceOn};
ghost use Rattle.mesh_input.specs.declared.grid.MeshAxis.{MeshAxis};
ghost use Rattle.mesh_input.specs.declared.grid.MeshGrid.{MeshGrid};

use crate::grid::{AxisPlace, MeshAxis, MeshGrid};
use world_grid::{Frame, STEP_LIMIT, quantize, step_of};

/// The last sixteenth along x and z of the largest field.
pub(crate) const LAST_ACROSS: u32 = 16384;

/// The last height at which a corner may lie.
const LAST_UP: u32 = 8190;

/// The axes of a frame's field. None where a size of the frame is none of 2^-10 to 2^10, and where its corner is 2^23 steps or more from 0.
pub fn mesh_grid(frame: Frame) -> Option<MeshGrid>
    ensures found { IfSome result (IsGridOf frame) }
    ensures none { IsNone result → (grid : MeshGrid) → ¬ IsGridOf frame grid }
{
    let x = across(frame.cell_size, frame.x)?;
    let y = axis(frame.cell_height, 0, i64::from(frame.y), LAST_UP)?;
    let z = across(frame.cell_size, frame.z)?;
    Some(MeshGrid { x, y, z })
}

/// An axis along x or z, in sixteenths of a cell.
fn across(cell_size: f32, begin: i32) -> Option<MeshAxis>
    ensures found { IfSome result (IsAxisOf cell_size 4 (pos 16 *ℤ begin) 16384) }
    ensures none { IsNone result → (axis : MeshAxis) → ¬ IsAxisOf cell_size 4 (pos 16 *ℤ begin) 16384 axis }
{
    axis(cell_size, 4, sixteenths(begin), LAST_ACROSS)
}

/// Cells in sixteenths of a cell.
fn sixteenths(cells: i32) -> i64
    ensures { result ≡ pos 16 *ℤ cells }
{
    16 * i64::from(cells)
}

/// An axis in steps of which 2^`finer` are a size.
fn axis(size: f32, finer: u32, begin: i64, last: u32) -> Option<MeshAxis>
    requires finer { finer ≤ 4 }
    requires few { last ≤ 16384 }
    ensures found { IfSome result (IsAxisOf size finer begin last) }
    ensures none { IsNone result → (axis : MeshAxis) → ¬ IsAxisOf size finer begin last axis }
{
    if begin.unsigned_abs() >= STEP_LIMIT {
        return None;
    }
    let step = step_of(size, finer)?;
    let fine = step_of(size, finer + 8)?;
    Some(MeshAxis {
        step,
        fine,
        begin,
        last,
    })
}

/// Which number of an axis a float is; none where it is no number, infinite, or lies outside the field.
fn on_axis(x: f32, axis: MeshAxis) -> Option<u32>
    ensures found { IfSome result (IsOnAxis x axis) }
    ensures none { IsNone result → (n : ℕ) → ¬ IsOnAxis x axis n }
{
    let count = quantize(x, axis.step, STEP_LIMIT)?;
    behind(count, axis.begin, axis.last)
}

/// How far a number lies behind another one; none where it lies before it, or farther than the last.
fn behind(count: i64, begin: i64, last: u32) -> Option<u32>
    requires count { unsigned_abs count < 2 ^ 23 }
    requires begin { unsigned_abs begin < 2 ^ 23 }
    ensures found { IfSome result (λ n. (count ≡ begin +ℤ pos n) × (n ≤ last)) }
    ensures none { IsNone result → (n : ℕ) → n ≤ last → ¬ (count ≡ begin +ℤ pos n) }
{
    let distance = count - begin;
    if distance < 0 || distance > i64::from(last) {
        return None;
    }
    Some(distance as u32)
}

/// Where a float lies on an axis; none where it is no number, infinite, or lies outside the field.
pub(crate) fn place_on(x: f32, axis: MeshAxis) -> Option<AxisPlace>
    ensures found { IfSome result (IsPlaceOn x axis) }
    ensures none { IsNone result → ¬ LiesOnAxis x axis }
{
    let fine = fine_at(x, axis)?;
    let number = number_at(x, axis, fine)?;
    Some(AxisPlace { number, fine })
}

/// The number of a float on an axis, by its fine number. Half way between two numbers that one does not tell which of them is nearer.
fn number_at(x: f32, axis: MeshAxis, fine: u32) -> Option<u32>
    requires fine { IsFineAt x axis fine }
    requires inside { fine ≤ 256 * axis.last + 256 }
    requires near { (pos 256 *ℤ axis.begin +ℤ pos fine) ≤ℤ pos (2 ^ 31) }
    ensures found { IfSome result (IsOnAxis x axis) }
    ensures none { IsNone result → (n : ℕ) → ¬ IsOnAxis x axis n }
{
    if fine % 256 == 0 {
        return on_axis(x, axis);
    }
    Some(fine / 256)
}

/// The fine number of a float on an axis.
fn fine_at(x: f32, axis: MeshAxis) -> Option<u32>
    ensures found { IfSome result (IsFineAt x axis) }
    ensures inside { IfSome result (λ fine. fine ≤ 256 * axis.last + 256) }
    ensures near { IfSome result (λ fine. (pos 256 *ℤ axis.begin +ℤ pos fine) ≤ℤ pos (2 ^ 31)) }
    ensures none { IsNone result → ¬ LiesOnAxis x axis }
{
    let steps = quantize(x, axis.fine, FINE_LIMIT)?;
    fine_behind(steps, axis.begin, axis.last)
}

/// Fine steps from 0 of the game's numbers, of which a place of a level has fewer: 2^31 - 127. Those of a place that is 2^23 steps from 0 are more.
const FINE_LIMIT: u64 = 0x7fff_ff81;

/// How many fine steps a number of them lies behind the place half a step before the beginning; none where it lies before it, or farther than
/// half a step behind the last number.
fn fine_behind(steps: i64, begin: i64, last: u32) -> Option<u32>
    requires steps { unsigned_abs steps < 2147483521 }
    requires begin { unsigned_abs begin < 2 ^ 23 }
    requires last { last ≤ 16384 }
    ensures found { IfSome result (λ fine. steps +ℤ pos 128 ≡ pos 256 *ℤ begin +ℤ pos fine) }
    ensures inside { IfSome result (λ fine. fine ≤ 256 * last + 256) }
    ensures none { IsNone result → (fine : ℕ) → fine ≤ 256 * last + 256 → ¬ (steps +ℤ pos 128 ≡ pos 256 *ℤ begin +ℤ pos fine) }
{
    let fine = from_half_before(steps, begin);
    if fine < 0 || fine > 256 * i64::from(last) + 256 {
        return None;
    }
    Some(fine as u32)
}

/// How many fine steps a number of them lies behind the place half a step before a number of steps.
fn from_half_before(steps: i64, begin: i64) -> i64
    requires steps { unsigned_abs steps < 2147483521 }
    requires begin { unsigned_abs begin < 2 ^ 23 }
    ensures value { result ≡ steps +ℤ pos 128 -ℤ pos 256 *ℤ begin }
    ensures small { unsigned_abs result < 2 ^ 33 }
{
    steps + 128 - 256 * begin
}
