//! The edge of a polygon that faces a point outside: all that the polygon holds lies to its left or on its line, so that it tells how near to the
//! point any of that can be, in all and on a row.

ghost use Rattle.std.specs.Prelude.{◌≡◌, ◌*◌, ◌≤◌, ◌<◌, ◌⊎◌, pos, ◌≤ℤ◌, ◌<ℤ◌, ◌+ℤ◌, ◌-ℤ◌, length, IfSome, IsTrue};
ghost use Rattle.std.specs.Int.RustNames.{unsigned_abs};
ghost use Rattle.nav_base.specs.Deviation.{square_of};
ghost use Rattle.nav_base.specs.Point.{HasCoordinates, IsCoordinate, from_to, orient_of};
ghost use Rattle.mesh_types.specs.FitTiles.{IsPolygon};
ghost use Rattle.wall_slide.specs.Facing.{IsFacing, IsFootRise, IsFootRow, beside};

use mesh_types::{Polygon, edge_ends};
use nav_base::{Point, orient, square_distance};

/// An edge of a polygon, or a line past a corner of it by two of its points, in sixteenths of a cell.
#[derive(Clone, Copy)]
pub(crate) struct FacingEdge {
    pub(crate) begin: Point,
    pub(crate) end: Point,
    /// The turn at the edge to the point that it faces, negative to the right.
    pub(crate) turn: i64,
}

/// The edge of a polygon of which the line is farthest from a point on its right. It holds the nearest point of the polygon, or ends there.
pub(crate) fn facing_edge(polygon: &Polygon, p: Point) -> FacingEdge
    requires rules { IsPolygon polygon.now }
    requires point { HasCoordinates p }
    ensures { IsFacing polygon.now result }
{
    let mut facing = edge_toward(polygon, 0, p);
    for edge in 1..polygon.corners.as_slice().len() {
        facing = farther_edge(facing, edge_toward(polygon, edge, p));
    }
    facing
}

/// An edge of a polygon, with the turn at it to a point.
fn edge_toward(polygon: &Polygon, edge: usize, p: Point) -> FacingEdge
    requires rules { IsPolygon polygon.now }
    requires there { edge < length polygon.now.corners }
    requires point { HasCoordinates p }
    ensures { IsFacing polygon.now result }
{
    let (begin, end) = edge_ends(polygon, edge);
    FacingEdge {
        begin,
        end,
        turn: orient(begin, end, p),
    }
}

/// The one of two edges of which the line is farther from the point on its right: by the squares of the turns, each times that of the other's length.
fn farther_edge(one: FacingEdge, other: FacingEdge) -> FacingEdge
    requires one_begin { HasCoordinates one.begin }
    requires one_end { HasCoordinates one.end }
    requires other_begin { HasCoordinates other.begin }
    requires other_end { HasCoordinates other.end }
    ensures { (result ≡ one) ⊎ (result ≡ other) }
{
    if other.turn >= 0 {
        return one;
    }
    if one.turn >= 0 {
        return other;
    }
    let least = turn_square(one).wrapping_mul(length_square(other));
    let reached = turn_square(other).wrapping_mul(length_square(one));
    if reached > least { other } else { one }
}

/// The square of the turn at an edge to the point that it faces.
fn turn_square(facing: FacingEdge) -> u128
    ensures { result ≡ unsigned_abs facing.turn * unsigned_abs facing.turn }
{
    let turn = u128::from(facing.turn.unsigned_abs());
    turn * turn
}

/// The square of the length of an edge.
fn length_square(facing: FacingEdge) -> u128
    requires begin { HasCoordinates facing.begin }
    requires end { HasCoordinates facing.end }
    ensures { result ≡ square_of (from_to facing.begin facing.end) }
{
    u128::from(square_distance(facing.begin, facing.end))
}

/// A row, no farther than one row from the foot of a point on the line of an edge, and the square of how far that line is from the point at least.
#[derive(Clone, Copy)]
pub(crate) struct FootRow {
    /// In sixteenths of a cell.
    pub(crate) row: i32,
    pub(crate) away: u64,
}

/// The row of the foot of a point on the line of the edge that faces it, rounded toward the point. The point's own row where the point does not
/// lie to the right of the edge.
pub(crate) fn foot_row(facing: FacingEdge, p: Point) -> FootRow
    requires begin { HasCoordinates facing.begin }
    requires end { HasCoordinates facing.end }
    requires point { HasCoordinates p }
    ensures foot { IsFootRow facing p result }
    ensures row { unsigned_abs result.row ≤ 196608 }
    ensures away { result.away ≤ 34359738368 }
{
    let turn = orient(facing.begin, facing.end, p);
    if turn >= 0 {
        return FootRow { row: p.z, away: 0 };
    }
    let right = turn.unsigned_abs();
    let length = square_distance(facing.begin, facing.end);
    let Some(rise) = foot_rise(right, width(facing), length) else {
        return FootRow { row: p.z, away: 0 };
    };
    FootRow {
        row: row_toward(facing, p.z, rise),
        away: line_away(right, length),
    }
}

/// How far an edge reaches across.
fn width(facing: FacingEdge) -> u32
    requires begin { HasCoordinates facing.begin }
    requires end { HasCoordinates facing.end }
    ensures { result ≡ unsigned_abs (facing.end.x -ℤ facing.begin.x) }
{
    (facing.end.x - facing.begin.x).unsigned_abs()
}

/// How many rows the foot of a point lies from the point, rounded down: the turn at the edge times the edge's width, by the square of its
/// length. None where a number is too great.
fn foot_rise(right: u64, width: u32, length: u64) -> Option<u32>
    ensures { IfSome result (IsFootRise right width length) }
{
    let product = right.checked_mul(u64::from(width))?;
    let rise = product.checked_div(length)?;
    if rise > 131072 {
        return None;
    }
    Some(rise as u32)
}

/// The row so many rows from a row, on the side to which an edge leads across: upward where it leads to the right.
fn row_toward(facing: FacingEdge, z: i32, rise: u32) -> i32
    requires row { IsCoordinate z }
    requires rise { rise ≤ 131072 }
    ensures up { facing.begin.x <ℤ facing.end.x → result ≡ z +ℤ pos rise }
    ensures down { facing.end.x ≤ℤ facing.begin.x → result ≡ z -ℤ pos rise }
    ensures bound { unsigned_abs result ≤ 196608 }
{
    if facing.begin.x < facing.end.x {
        z + rise as i32
    } else {
        z - rise as i32
    }
}

/// The square of how far a line is from a point, rounded down: the square of the turn by that of the edge's length; 0 where it is too great.
fn line_away(right: u64, length: u64) -> u64
    requires { 0 < length }
    ensures under { length * result ≤ right * right }
    ensures bound { result ≤ 34359738368 }
{
    match right.checked_mul(right) {
        Some(square) => (square / length).min(34359738368),
        None => 0,
    }
}

/// Whether no point to the left of an edge or on its line is nearer to a point than a distance, of which the square is told: the square of the
/// turn there is that of the distance to the line times that of the edge's length.
pub(crate) fn is_beyond(facing: FacingEdge, p: Point, square: u64) -> bool
    requires begin { HasCoordinates facing.begin }
    requires end { HasCoordinates facing.end }
    requires point { HasCoordinates p }
    ensures { IsTrue result → (q : Point) → pos 0 ≤ℤ orient_of facing.begin facing.end q → square ≤ square_of (from_to p q) }
{
    let turn = orient(facing.begin, facing.end, p);
    if turn >= 0 {
        return false;
    }
    let right = u128::from(turn.unsigned_abs());
    let length = u128::from(square_distance(facing.begin, facing.end));
    u128::from(square) * length <= right * right
}

/// The same of the points of a row, which are no nearer than the row. Along a row a turn changes by as much as the edge rises or falls.
pub(crate) fn is_row_beyond(facing: FacingEdge, p: Point, z: u32, square: u64) -> bool
    requires begin { HasCoordinates facing.begin }
    requires end { HasCoordinates facing.end }
    requires point { HasCoordinates p }
    requires row { z ≤ 16384 }
    ensures { IsTrue result → (q : Point) → q.z ≡ pos z → pos 0 ≤ℤ orient_of facing.begin facing.end q → square ≤ square_of (from_to p q) }
{
    let beside = on_row(p, z);
    let aside = square_distance(p, beside);
    if square <= aside {
        return true;
    }
    let turn = orient(facing.begin, facing.end, beside);
    if turn >= 0 {
        return false;
    }
    let right = u128::from(turn.unsigned_abs());
    let rise = u128::from(rise_square(facing));
    let left = square.saturating_sub(aside);
    rise * u128::from(left) <= right * right
}

/// The point of a row that is beside a point.
fn on_row(p: Point, z: u32) -> Point
    requires point { HasCoordinates p }
    requires row { z ≤ 16384 }
    ensures value { result ≡ beside p z }
    ensures coordinates { HasCoordinates result }
{
    Point {
        x: p.x,
        z: z as i32,
    }
}

/// The square of how far an edge rises along z or falls.
fn rise_square(facing: FacingEdge) -> u64
    requires begin { HasCoordinates facing.begin }
    requires end { HasCoordinates facing.end }
    ensures { result ≡ unsigned_abs (facing.end.z -ℤ facing.begin.z) * unsigned_abs (facing.end.z -ℤ facing.begin.z) }
{
    let rise = u64::from(rise_of(facing));
    rise * rise
}

/// How far an edge rises along z or falls.
fn rise_of(facing: FacingEdge) -> u32
    requires begin { HasCoordinates facing.begin }
    requires end { HasCoordinates facing.end }
    ensures { result ≡ unsigned_abs (facing.end.z -ℤ facing.begin.z) }
{
    (facing.end.z - facing.begin.z).unsigned_abs()
}
