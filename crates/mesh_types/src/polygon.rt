//! The corners of a polygon, which lie in the polygon itself. Polygons. The edges of a polygon, and whether it holds a point.

ghost use Rattle.std.specs.Prelude.{◌≡◌, ◌↔◌, ◌<◌, pos, ◌<ℤ◌, length, All, IsTrue};
ghost use Rattle.nav_base.specs.Point.{HasCoordinates, IsCellCorner};
ghost use Rattle.mesh_types.specs.BorderLinks.{scaled};
ghost use Rattle.mesh_types.specs.Located.{Holds};
ghost use Rattle.mesh_types.specs.Rays.{side_of};
ghost use Rattle.mesh_types.specs.Portals.{edge_begin, edge_end};

use nav_base::{Point, next_place, orient};
use std::marker::Model;

/// Up to six points in order, seen by contracts as their list. Copied whole, with no memory of its own.
#[derive(Clone, Copy, PartialEq, Eq, Debug)]
pub struct Corners {
    points: [Point; 6],
    count: u8,
}

impl Model for Corners {
    ghost use Rattle.std.specs.Prelude.{List};
    ghost use Rattle.nav_base.specs.declared.point.Point.{Point};
    ghost use Rattle.mesh_types.specs.Inline.{IsInline, corners_view, corners_inverse, corners_back};

    ghost Value = { List Point };

    ghost view = { corners_view };

    ghost inverse = { corners_inverse };

    ghost inverse_ok = { corners_back };

    ghost invariant = { IsInline };
}

impl Corners {
    ghost use Rattle.std.specs.Prelude.{◌≡◌, ◌≤◌, length, take};
    ghost use Rattle.mesh_types.specs.Inline.{IsInline, corners_inverse};

    /// The points of a slice, in order.
    pub fn from_slice(points: &[Point]) -> Self
        requires { length points.now ≤ 6 }
        ensures { result ≡ points.now }
    {
        let mut kept = [Point { x: 0, z: 0 }; 6];
        kept[..points.len()].copy_from_slice(points);
        Corners {
            points: kept,
            count: points.len() as u8,
        }
    }

    /// Points that lie in the first of six places, of which the others hold the point (0, 0).
    pub(crate) fn from_places(points: [Point; 6], count: u8) -> Self
        requires { IsInline (record { points = points; count = count }) }
        ensures { result ≡ take count points }
    {
        Corners { points, count }
    }

    /// The six places, and in how many of them the points lie.
    pub(crate) fn places(&self) -> ([Point; 6], u8)
        ensures places { corners_inverse self.now ≡ record { points = result.0; count = result.1 } }
        ensures inline { IsInline (corners_inverse self.now) }
    {
        (self.points, self.count)
    }

    /// The points, in order.
    pub fn as_slice(&self) -> &[Point]
        ensures value { result.now ≡ self.now }
        ensures few { length self.now ≤ 6 }
    {
        &self.points[..self.count as usize]
    }
}

/// A strictly convex polygon of 3 to 6 corners, in whole cells, counterclockwise.
#[derive(Clone, Copy, PartialEq, Eq, Debug)]
pub struct Polygon {
    /// In whole cells.
    pub corners: Corners,
    /// The area of its cells, 1 to 63.
    pub area: u32,
    /// The least and the greatest floor of its cells, in height units.
    pub low: u32,
    pub high: u32,
}

/// Whether a polygon holds a point of the plane.
pub fn holds(polygon: &Polygon, p: Point) -> bool
    requires corners { All IsCellCorner polygon.now.corners }
    requires point { HasCoordinates p }
    ensures { IsTrue result ↔ Holds polygon.now p }
{
    for edge in 0..polygon.corners.as_slice().len() {
        if is_right(polygon, edge, p) {
            return false;
        }
    }
    true
}

/// Whether a point lies to the right of an edge.
fn is_right(polygon: &Polygon, edge: usize, p: Point) -> bool
    requires corners { All IsCellCorner polygon.now.corners }
    requires there { edge < length polygon.now.corners }
    requires point { HasCoordinates p }
    ensures { IsTrue result ↔ (side_of polygon.now edge p <ℤ pos 0) }
{
    let (begin, end) = edge_ends(polygon, edge);
    orient(begin, end, p) < 0
}

/// The beginning and the end of an edge, in sixteenths of a cell.
pub fn edge_ends(polygon: &Polygon, edge: usize) -> (Point, Point)
    requires corners { All IsCellCorner polygon.now.corners }
    requires there { edge < length polygon.now.corners }
    ensures begins { result.0 ≡ edge_begin polygon.now edge }
    ensures ends { result.1 ≡ edge_end polygon.now edge }
    ensures first { HasCoordinates result.0 }
    ensures second { HasCoordinates result.1 }
{
    let corners = polygon.corners.as_slice();
    let after = next_place(corners.len(), edge);
    (in_sixteenths(corners[edge]), in_sixteenths(corners[after]))
}

/// A corner, in sixteenths of a cell.
pub fn in_sixteenths(corner: Point) -> Point
    requires { IsCellCorner corner }
    ensures value { result ≡ scaled corner.x corner.z }
    ensures reach { HasCoordinates result }
{
    Point {
        x: 16 * corner.x,
        z: 16 * corner.z,
    }
}
