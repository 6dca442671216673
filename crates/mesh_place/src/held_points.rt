//! The whole point that a polygon holds that is nearest to a point, line by line.

ghost use Rattle.std.specs.Prelude.{◌≡◌, ◌+◌, ◌≤◌, pos, ◌*ℤ◌, ◌≤ℤ◌, ℤ};
ghost use Rattle.std.specs.Ordering.{is_lt};
ghost use Rattle.nav_base.specs.Point.{HasCoordinates, IsCellCorner};
ghost use Rattle.mesh_types.specs.Extents.{extent_of};
ghost use Rattle.mesh_types.specs.FitTiles.{IsPolygon};
ghost use Rattle.mesh_types.specs.Located.{Holds};
ghost use Rattle.mesh_place.specs.HeldPoints.{IsNearerOver, IsNearestHeld, IsPlaceOf, ReachesAcross, near_cmp};
ghost use Rattle.mesh_place.specs.Lines.{IsSpan};

use crate::lines::{LineSpan, held_part, nearest_across, nearest_along, point_on};
use crate::near::{point_order, square_distance};
use mesh_types::{Extent, Polygon, in_sixteenths};
use nav_base::Point;

/// The whole point that a polygon holds, in sixteenths of a cell, that is nearest to a point; of equally near ones the one with the least x, and
/// then the least z. `extent` is the polygon's box. Lines are looked at outward from the point: most are passed over by the box alone.
pub fn nearest_held(polygon: &Polygon, extent: Extent, p: Point) -> Point
    requires rules { IsPolygon polygon.now }
    requires extent { extent ≡ extent_of polygon.now }
    requires point { HasCoordinates p }
    ensures { IsNearestHeld polygon.now p result }
{
    let columns = columns_of(extent);
    let lines = rows_of(extent);
    let start = nearest_along(lines, p);
    let below = LineSpan {
        first: lines.first,
        last: start,
    };
    let above = LineSpan {
        first: start,
        last: lines.last,
    };
    let corner = in_sixteenths(polygon.corners.as_slice()[0]);
    let nearest = nearer_below(polygon, columns, below, p, corner);
    nearer_above(polygon, columns, above, p, nearest)
}

/// The places across a box.
fn columns_of(extent: Extent) -> LineSpan
    requires low { IsCellCorner extent.low }
    requires high { IsCellCorner extent.high }
    requires order { extent.low.x ≤ℤ extent.high.x }
    ensures span { IsSpan result }
    ensures places { (n : ℤ) → (pos 16 *ℤ extent.low.x) ≤ℤ n → n ≤ℤ (pos 16 *ℤ extent.high.x) → IsPlaceOf result n }
{
    LineSpan {
        first: 16 * extent.low.x.unsigned_abs(),
        last: 16 * extent.high.x.unsigned_abs(),
    }
}

/// The places along a box.
fn rows_of(extent: Extent) -> LineSpan
    requires low { IsCellCorner extent.low }
    requires high { IsCellCorner extent.high }
    requires order { extent.low.z ≤ℤ extent.high.z }
    ensures span { IsSpan result }
    ensures places { (n : ℤ) → (pos 16 *ℤ extent.low.z) ≤ℤ n → n ≤ℤ (pos 16 *ℤ extent.high.z) → IsPlaceOf result n }
{
    LineSpan {
        first: 16 * extent.low.z.unsigned_abs(),
        last: 16 * extent.high.z.unsigned_abs(),
    }
}

/// What was found, or a nearer point on lines, the last of them first.
fn nearer_below(
    polygon: &Polygon,
    columns: LineSpan,
    lines: LineSpan,
    p: Point,
    best: Point,
) -> Point
    requires rules { IsPolygon polygon.now }
    requires columns { IsSpan columns }
    requires reach { ReachesAcross polygon.now columns }
    requires lines { IsSpan lines }
    requires point { HasCoordinates p }
    requires best { Holds polygon.now best }
    ensures { IsNearerOver polygon.now p lines.first (lines.last + 1) best result }
{
    let mut nearest = best;
    for back in 0..lines.last - lines.first + 1 {
        nearest = nearer_on_line(polygon, columns, lines.last - back, p, nearest);
    }
    nearest
}

/// The same, the first of them first.
fn nearer_above(
    polygon: &Polygon,
    columns: LineSpan,
    lines: LineSpan,
    p: Point,
    best: Point,
) -> Point
    requires rules { IsPolygon polygon.now }
    requires columns { IsSpan columns }
    requires reach { ReachesAcross polygon.now columns }
    requires lines { IsSpan lines }
    requires point { HasCoordinates p }
    requires best { Holds polygon.now best }
    ensures { IsNearerOver polygon.now p lines.first (lines.last + 1) best result }
{
    let mut nearest = best;
    for z in lines.first..lines.last + 1 {
        nearest = nearer_on_line(polygon, columns, z, p, nearest);
    }
    nearest
}

/// What was found, or a nearer point on a line.
fn nearer_on_line(polygon: &Polygon, columns: LineSpan, z: u32, p: Point, best: Point) -> Point
    requires rules { IsPolygon polygon.now }
    requires columns { IsSpan columns }
    requires reach { ReachesAcross polygon.now columns }
    requires line { z ≤ 16384 }
    requires point { HasCoordinates p }
    requires best { Holds polygon.now best }
    ensures { IsNearerOver polygon.now p z (z + 1) best result }
{
    if !comes_before(p, point_on(nearest_across(columns, p), z), best) {
        return best;
    }
    let Some(part) = held_part(polygon, columns, z) else {
        return best;
    };
    let point = point_on(nearest_across(part, p), z);
    if comes_before(p, point, best) {
        point
    } else {
        best
    }
}

/// Whether a point comes before another by how far they are from a point, then by x, then by z.
fn comes_before(p: Point, a: Point, b: Point) -> bool
    requires point { HasCoordinates p }
    requires first { HasCoordinates a }
    requires second { HasCoordinates b }
    ensures { result ≡ is_lt (near_cmp p a b) }
{
    let by_distance = square_distance(p, a).cmp(&square_distance(p, b));
    by_distance.then(point_order(a, b)).is_lt()
}
