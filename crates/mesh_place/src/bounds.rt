//! What is passed over: tiles, storeys and polygons whose places are too far from the point, or whose floors are too far from the height, to
//! come before what was found.

ghost use Rattle.std.specs.Prelude.{◌≡◌, ◌↔◌, ◌<◌, ◌≤◌, ◌*◌, pos, ◌≤ℤ◌, length, All, IsTrue, IfSome};
ghost use Rattle.nav_base.specs.Deviation.{square_of};
ghost use Rattle.nav_base.specs.Point.{HasCoordinates, IsCellCorner, from_to, orient_of};
ghost use Rattle.mesh_types.specs.Located.{Holds};
ghost use Rattle.mesh_types.specs.Rays.{side_of};
ghost use Rattle.mesh_locate.specs.Nearest.{IsFrom};
ghost use Rattle.mesh_place.specs.Nearest.{CanAskNear};
ghost use Rattle.mesh_place.specs.Searches.{IsMeasurable};
ghost use Rattle.mesh_place.specs.Bounds.{IsBeyond, IsLeastPart, Meets, limit_of, square_around};

use crate::near::{Near, height_part, measure, square_distance};
use mesh_types::{Extent, FloorReach, MeshPlace, Polygon, edge_ends, in_sixteenths};
use nav_base::{Point, ceil_sqrt, orient};

/// The points no farther than a reach from a point, across and along, in sixteenths of a cell: from the least corner to the greatest.
#[derive(Clone, Copy)]
pub struct ReachSquare {
    pub reach: u32,
    pub low: Point,
    pub high: Point,
}

/// What the height of a place adds to its measure at least, if its floor lies between two; none where no such floor is in reach in height.
pub(crate) fn least_part(climb: u32, asked: &Near, floors: FloorReach) -> Option<u64>
    requires asked { CanAskNear asked.now }
    ensures part { IsLeastPart climb asked.now floors result }
    ensures bound { IfSome result (λ part. part ≤ 1152921504606846976) }
{
    let above = u32::from(floors.least).saturating_sub(asked.y);
    if above > asked.up {
        return None;
    }
    let below = asked.y.saturating_sub(u32::from(floors.greatest));
    if below > asked.down {
        return None;
    }
    Some(height_part(climb, asked, above.max(below)))
}

/// Whether no place so far from the point, whose height adds at least so much to its measure, is in reach and comes before what was found.
pub(crate) fn is_gap_beyond(
    climb: u32,
    asked: &Near,
    gap: u64,
    part: u64,
    best: Option<MeshPlace>,
) -> bool
    requires asked { CanAskNear asked.now }
    requires part { part ≤ 1152921504606846976 }
    requires best { IfSome best (IsMeasurable asked.now) }
    ensures { IsTrue result → IsBeyond climb asked.now gap part best }
{
    if gap > reach_square(asked) {
        return true;
    }
    match best {
        None => false,
        Some(best) => measure(climb, asked, best) < gap + part,
    }
}

/// The reach within which places are left that may come before what was found, if their heights add at least so much to their measures.
pub(crate) fn reach_left(climb: u32, asked: &Near, part: u64, best: Option<MeshPlace>) -> u32
    requires asked { CanAskNear asked.now }
    requires best { IfSome best (IsMeasurable asked.now) }
    ensures most { result ≤ asked.now.reach }
    ensures enough { limit_of climb asked.now part best ≤ result * result }
{
    ceil_sqrt(limit(climb, asked, part, best))
}

/// The square of the distance beyond which no place is looked for, if the heights add at least so much.
pub(crate) fn limit(climb: u32, asked: &Near, part: u64, best: Option<MeshPlace>) -> u64
    requires asked { CanAskNear asked.now }
    requires best { IfSome best (IsMeasurable asked.now) }
    ensures { result ≡ limit_of climb asked.now part best }
{
    let reach = reach_square(asked);
    match best {
        None => reach,
        Some(best) => reach.min(measure(climb, asked, best).saturating_sub(part)),
    }
}

/// The square of the reach.
fn reach_square(asked: &Near) -> u64
    requires { CanAskNear asked.now }
    ensures value { result ≡ asked.now.reach * asked.now.reach }
    ensures bound { result ≤ 68719476736 }
{
    u64::from(asked.reach) * u64::from(asked.reach)
}

/// The square with a point in its middle.
pub(crate) fn square_around(p: Point, reach: u32) -> ReachSquare
    requires point { HasCoordinates p }
    requires reach { reach < 262144 }
    ensures { result ≡ square_around p reach }
{
    let reach_across = reach as i32;
    ReachSquare {
        reach,
        low: Point {
            x: p.x - reach_across,
            z: p.z - reach_across,
        },
        high: Point {
            x: p.x + reach_across,
            z: p.z + reach_across,
        },
    }
}

/// Whether a box of whole cells has a point in a square.
pub(crate) fn meets(square: &ReachSquare, extent: Extent) -> bool
    requires low { IsCellCorner extent.low }
    requires high { IsCellCorner extent.high }
    ensures { IsTrue result ↔ Meets square.now extent }
{
    is_from(in_sixteenths(extent.low), square.high)
        && is_from(square.low, in_sixteenths(extent.high))
}

/// Whether a point lies no further left and no further down than another.
fn is_from(low: Point, high: Point) -> bool
    ensures { IsTrue result ↔ IsFrom low high }
{
    low.x <= high.x && low.z <= high.z
}

/// Whether a polygon holds no point within a distance, of which the square is told: its points lie beyond the line of one of its edges.
pub(crate) fn is_polygon_beyond(polygon: &Polygon, p: Point, limit: u64) -> bool
    requires corners { All IsCellCorner polygon.now.corners }
    requires point { HasCoordinates p }
    ensures { IsTrue result → (q : Point) → Holds polygon.now q → limit < square_of (from_to p q) }
{
    for edge in 0..polygon.corners.as_slice().len() {
        let (begin, end) = edge_ends(polygon, edge);
        if is_line_beyond(begin, end, p, limit) {
            return true;
        }
    }
    false
}

/// Whether no point to the left of an edge, or on its line, lies within a distance, of which the square is told: the point lies to the
/// right, and the square of the turn, which is that of the distance times that of the edge's length, is too great.
fn is_line_beyond(begin: Point, end: Point, p: Point, limit: u64) -> bool
    requires begin { HasCoordinates begin }
    requires end { HasCoordinates end }
    requires point { HasCoordinates p }
    ensures { IsTrue result → (q : Point) → pos 0 ≤ℤ orient_of begin end q → limit < square_of (from_to p q) }
{
    let turn = orient(begin, end, p);
    if turn >= 0 {
        return false;
    }
    let right = u128::from(turn.unsigned_abs());
    u128::from(limit) * u128::from(square_distance(begin, end)) < right * right
}
