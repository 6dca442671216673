//! The line past a corner of a polygon, square to the way from a point outside: where the corner is what is nearest to the point in the polygon,
//! that line lies as far from it as the corner, and the line of an edge lies nearer.

ghost use Rattle.std.specs.Prelude.{◌≡◌, ◌<◌, length, All, IfSome, IsTrue};
ghost use Rattle.nav_base.specs.Point.{HasCoordinates, IsCellCorner};
ghost use Rattle.mesh_types.specs.FitTiles.{IsPolygon};
ghost use Rattle.mesh_types.specs.Portals.{edge_begin};
ghost use Rattle.wall_slide.specs.Facing.{IsFacing};

use crate::facing::FacingEdge;
use mesh_types::{Polygon, edge_ends};
use nav_base::{Point, dot, orient};

/// The edge that faces a point, or the line past one of its ends, where that end is the point of the polygon that is nearest.
pub(crate) fn nearest_line(polygon: &Polygon, edge: FacingEdge, p: Point) -> FacingEdge
    requires rules { IsPolygon polygon.now }
    requires edge { IsFacing polygon.now edge }
    requires point { HasCoordinates p }
    ensures { IsFacing polygon.now result }
{
    let Some(corner) = end_toward(edge, p) else {
        return edge;
    };
    let Some(line) = line_past(corner, p) else {
        return edge;
    };
    if is_facing(polygon, line) { line } else { edge }
}

/// The end of an edge that is nearest to a point, unless the point's foot on the edge's line lies between the ends.
fn end_toward(edge: FacingEdge, p: Point) -> Option<Point>
    requires begin { HasCoordinates edge.begin }
    requires end { HasCoordinates edge.end }
    requires point { HasCoordinates p }
    ensures { IfSome result HasCoordinates }
{
    if dot(edge.begin, edge.end, edge.begin, p) <= 0 {
        return Some(edge.begin);
    }
    if dot(edge.begin, edge.end, edge.end, p) >= 0 {
        return Some(edge.end);
    }
    None
}

/// The line past a corner, square to the way from a point, which lies to its right. None where the numbers are too great.
fn line_past(corner: Point, p: Point) -> Option<FacingEdge>
    requires corner { HasCoordinates corner }
    requires point { HasCoordinates p }
    ensures begin { IfSome result (λ line. HasCoordinates line.begin) }
    ensures end { IfSome result (λ line. HasCoordinates line.end) }
{
    let end = Point {
        x: corner.x + (corner.z - p.z),
        z: corner.z - (corner.x - p.x),
    };
    if !has_coordinates(end) {
        return None;
    }
    Some(FacingEdge {
        begin: corner,
        end,
        turn: orient(corner, end, p),
    })
}

/// Whether both parts of a point are coordinates.
fn has_coordinates(p: Point) -> bool
    ensures { IsTrue result → HasCoordinates p }
{
    -65536 <= p.x && p.x <= 65536 && -65536 <= p.z && p.z <= 65536
}

/// Whether no corner of a polygon lies to the right of a line, so that nothing does that the polygon holds.
fn is_facing(polygon: &Polygon, line: FacingEdge) -> bool
    requires rules { IsPolygon polygon.now }
    requires begin { HasCoordinates line.begin }
    requires end { HasCoordinates line.end }
    ensures { IsTrue result → IsFacing polygon.now line }
{
    for at in 0..polygon.corners.as_slice().len() {
        if orient(line.begin, line.end, corner(polygon, at)) < 0 {
            return false;
        }
    }
    true
}

/// A corner of a polygon, in sixteenths of a cell.
fn corner(polygon: &Polygon, at: usize) -> Point
    requires corners { All IsCellCorner polygon.now.corners }
    requires there { at < length polygon.now.corners }
    ensures value { result ≡ edge_begin polygon.now at }
    ensures coordinates { HasCoordinates result }
{
    let (begin, _) = edge_ends(polygon, at);
    begin
}
