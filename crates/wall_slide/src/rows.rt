//! Rows of whole points along x: the part of one that a polygon holds, and that no farther from the start of a motion than its target is.

ghost use Rattle.std.specs.Prelude.{◌≡◌, ℕ, ◌<◌, ◌≤◌, ◌+◌, ◌*◌, pos, ◌≤ℤ◌, ◌-ℤ◌, All};
ghost use Rattle.std.specs.Int.RustNames.{unsigned_abs};
ghost use Rattle.nav_base.specs.Point.{HasCoordinates, IsCellCorner, IsCoordinate, orient_of};
ghost use Rattle.mesh_types.specs.Located.{Holds};
ghost use Rattle.mesh_place.specs.Lines.{IsItOrFarther, point_on, right_of};
ghost use Rattle.wall_slide.specs.Slides.{IsMotion};
ghost use Rattle.wall_slide.specs.Rows.{IsInRow, IsRow, IsRowPart, IsWithin, whole_row};

use crate::discs::Motion;
use mesh_types::{Polygon, edge_ends};
use nav_base::{Point, ceil_sqrt, orient, square_distance};

/// Successive places of a row, in sixteenths of a cell, the last included.
#[derive(Clone, Copy)]
pub(crate) struct RowPart {
    pub(crate) first: u32,
    pub(crate) last: u32,
}

/// The greatest place of a row, in the largest field.
const LAST: u32 = 16384;

/// The part of the row at `z` that lies no farther from the start of a motion than its target does.
pub(crate) fn part_within(motion: Motion, z: u32) -> Option<RowPart>
    requires motion { IsMotion motion }
    requires row { z ≤ 16384 }
    ensures { IsRowPart (λ x. IsWithin motion (point_on x z)) whole_row result }
{
    let aside = u64::from(z.abs_diff(motion.from.z.unsigned_abs()));
    let square = square_distance(motion.from, motion.to);
    let half = floor_sqrt(square.checked_sub(aside * aside)?);
    let middle = motion.from.x.unsigned_abs();
    Some(RowPart {
        first: middle.saturating_sub(half),
        last: (middle + half).min(LAST),
    })
}

/// The greatest number whose square is at most `n`.
fn floor_sqrt(n: u64) -> u32
    requires { n ≤ 34359738368 }
    ensures under { result * result ≤ n }
    ensures over { n < (result + 1) * (result + 1) }
{
    ceil_sqrt(n + 1) - 1
}

/// The part of a row that a polygon holds; none where it holds no place of it.
pub(crate) fn part_held(polygon: &Polygon, row: RowPart, z: u32) -> Option<RowPart>
    requires corners { All IsCellCorner polygon.now.corners }
    requires part { IsRow row }
    requires row { z ≤ 16384 }
    ensures { IsRowPart (λ x. Holds polygon.now (point_on x z)) row result }
{
    let mut part = row;
    for edge in 0..polygon.corners.as_slice().len() {
        let (begin, end) = edge_ends(polygon, edge);
        part = part_left(part, z, begin, end)?;
    }
    Some(part)
}

/// The part of a row that lies to the left of an edge or on it; none where all of it lies to the right.
fn part_left(row: RowPart, z: u32, begin: Point, end: Point) -> Option<RowPart>
    requires part { IsRow row }
    requires row { z ≤ 16384 }
    requires begin { HasCoordinates begin }
    requires end { HasCoordinates end }
    ensures { IsRowPart (λ x. pos 0 ≤ℤ orient_of begin end (point_on x z)) row result }
{
    let first = right_by(begin, end, row.first, z);
    let last = right_by(begin, end, row.last, z);
    if last == 0 {
        if first == 0 {
            return Some(row);
        }
        return Some(RowPart {
            first: row.first + first.div_ceil(rise(begin, end)) as u32,
            last: row.last,
        });
    }
    if first > 0 {
        return None;
    }
    Some(RowPart {
        first: row.first,
        last: row.last - last.div_ceil(rise(begin, end)) as u32,
    })
}

/// How far the turn at an edge goes to the right at a place; 0 where the place lies to the left or on the edge's line.
fn right_by(begin: Point, end: Point, x: u32, z: u32) -> u64
    requires across { x ≤ 16384 }
    requires row { z ≤ 16384 }
    requires begin { HasCoordinates begin }
    requires end { HasCoordinates end }
    ensures { result ≡ right_of (orient_of begin end (point_on x z)) }
{
    right_turn(orient(begin, end, point_on(x, z)))
}

/// How far a turn goes to the right; 0 for one to the left.
fn right_turn(turn: i64) -> u64
    ensures { result ≡ right_of turn }
{
    if turn < 0 { turn.unsigned_abs() } else { 0 }
}

/// How far an edge rises along z or falls: so much a turn at it changes from one place of a row to the next.
fn rise(begin: Point, end: Point) -> u64
    requires begin { HasCoordinates begin }
    requires end { HasCoordinates end }
    ensures { result ≡ unsigned_abs (end.z -ℤ begin.z) }
{
    u64::from((end.z - begin.z).unsigned_abs())
}

/// The point at a place of a row.
pub(crate) fn point_on(x: u32, z: u32) -> Point
    requires across { x ≤ 16384 }
    requires row { z ≤ 16384 }
    ensures value { result ≡ point_on x z }
    ensures coordinates { HasCoordinates result }
{
    Point {
        x: x as i32,
        z: z as i32,
    }
}

/// The place of a row that is nearest across to a point.
pub(crate) fn nearest_place(row: RowPart, p: Point) -> u32
    requires part { IsRow row }
    requires point { HasCoordinates p }
    ensures inside { IsInRow row result }
    ensures nearest { (x : ℕ) → IsInRow row x → IsItOrFarther p.x result x }
{
    nearest_in(row, p.x)
}

/// The place of a row that is nearest to a coordinate.
fn nearest_in(row: RowPart, n: i32) -> u32
    requires part { IsRow row }
    requires coordinate { IsCoordinate n }
    ensures inside { IsInRow row result }
    ensures nearest { (x : ℕ) → IsInRow row x → IsItOrFarther n result x }
{
    if n <= row.first as i32 {
        return row.first;
    }
    if n >= row.last as i32 {
        return row.last;
    }
    n as u32
}
