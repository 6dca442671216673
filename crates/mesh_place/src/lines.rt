//! The part of a line along x that a polygon holds, and the place of a line that is nearest to a coordinate.

ghost use Rattle.std.specs.Prelude.{◌≡◌, ℕ, ◌<◌, ◌≤◌, pos, ◌≤ℤ◌, ◌-ℤ◌, length, All};
ghost use Rattle.std.specs.Int.RustNames.{unsigned_abs};
ghost use Rattle.nav_base.specs.Point.{HasCoordinates, IsCellCorner, IsCoordinate, from_to, orient_of};
ghost use Rattle.mesh_types.specs.Located.{Holds};
ghost use Rattle.mesh_place.specs.Lines.{IsInSpan, IsItOrFarther, IsPartWhere, IsSpan, point_on, right_of};

use crate::near::along;
use mesh_types::{Polygon, edge_ends};
use nav_base::{Point, orient};

/// Successive places on a line along x, in sixteenths of a cell, the last included.
#[derive(Clone, Copy)]
pub struct LineSpan {
    pub first: u32,
    pub last: u32,
}

/// The part of a span of the line at `z` that a polygon holds; none where it holds no place of it.
pub(crate) fn held_part(polygon: &Polygon, span: LineSpan, z: u32) -> Option<LineSpan>
    requires corners { All IsCellCorner polygon.now.corners }
    requires span { IsSpan span }
    requires line { z ≤ 16384 }
    ensures { IsPartWhere (λ x. Holds polygon.now (point_on x z)) span result }
{
    let mut part = span;
    for edge in 0..polygon.corners.as_slice().len() {
        let (begin, end) = edge_ends(polygon, edge);
        part = left_part(part, z, begin, end)?;
    }
    Some(part)
}

/// The part of a span that lies to the left of an edge or on it; none where all of it lies to the right.
fn left_part(span: LineSpan, z: u32, begin: Point, end: Point) -> Option<LineSpan>
    requires span { IsSpan span }
    requires line { z ≤ 16384 }
    requires begin { HasCoordinates begin }
    requires end { HasCoordinates end }
    ensures { IsPartWhere (λ x. pos 0 ≤ℤ orient_of begin end (point_on x z)) span result }
{
    let first = right_by(begin, end, span.first, z);
    let last = right_by(begin, end, span.last, z);
    if last == 0 {
        if first == 0 {
            return Some(span);
        }
        return Some(LineSpan {
            first: span.first + first.div_ceil(along(begin, end)) as u32,
            last: span.last,
        });
    }
    if first > 0 {
        return None;
    }
    Some(LineSpan {
        first: span.first,
        last: span.last - last.div_ceil(along(begin, end)) as u32,
    })
}

/// How far the turn at an edge goes to the right at a point; 0 where the point lies to the left or on the edge's line.
fn right_by(begin: Point, end: Point, x: u32, z: u32) -> u64
    requires across { x ≤ 16384 }
    requires line { z ≤ 16384 }
    requires begin { HasCoordinates begin }
    requires end { HasCoordinates end }
    ensures { result ≡ right_of (orient_of begin end (point_on x z)) }
{
    right_turn(orient(begin, end, point_on(x, z)))
}

/// How far a turn goes to the right; 0 for one to the left.
fn right_turn(turn: i64) -> u64
    ensures { result ≡ right_of turn }
{
    if turn < 0 { turn.unsigned_abs() } else { 0 }
}

/// The point with these coordinates.
pub(crate) fn point_on(x: u32, z: u32) -> Point
    requires across { x ≤ 16384 }
    requires line { z ≤ 16384 }
    ensures value { result ≡ point_on x z }
    ensures coordinates { HasCoordinates result }
{
    Point {
        x: x as i32,
        z: z as i32,
    }
}

/// The place of a span that is nearest across to a point.
pub(crate) fn nearest_across(span: LineSpan, p: Point) -> u32
    requires span { IsSpan span }
    requires point { HasCoordinates p }
    ensures inside { IsInSpan span result }
    ensures nearest { (x : ℕ) → IsInSpan span x → IsItOrFarther p.x result x }
{
    nearest_in(span, p.x)
}

/// The place of a span that is nearest along to a point.
pub(crate) fn nearest_along(span: LineSpan, p: Point) -> u32
    requires span { IsSpan span }
    requires point { HasCoordinates p }
    ensures inside { IsInSpan span result }
    ensures nearest { (z : ℕ) → IsInSpan span z → IsItOrFarther p.z result z }
{
    nearest_in(span, p.z)
}

/// The place of a span that is nearest to a coordinate.
fn nearest_in(span: LineSpan, n: i32) -> u32
    requires span { IsSpan span }
    requires coordinate { IsCoordinate n }
    ensures inside { IsInSpan span result }
    ensures nearest { (x : ℕ) → IsInSpan span x → IsItOrFarther n result x }
{
    if n <= span.first as i32 {
        return span.first;
    }
    if n >= span.last as i32 {
        return span.last;
    }
    n as u32
}
