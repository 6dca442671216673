//! The extent of a polygon, from its corners. Extents as they are stored: each in ten bytes, seen by contracts as the extent.

ghost use Rattle.std.specs.Prelude.{◌≡◌, ◌↔◌, IsNone, IfSome, IsTrue};
ghost use Rattle.std.specs.Int.{int_min, int_max};
ghost use Rattle.nav_base.specs.Convex.{corner_at};
ghost use Rattle.mesh_types.specs.Extents.{extent_of};
ghost use Rattle.mesh_types.specs.SmallNumbers.{IsSmallCoordinate, IsSmallPoint, IsSmallExtent};

use crate::extent::Extent;
use crate::polygon::Polygon;
use nav_base::Point;
use std::marker::Model;

/// The extent of a polygon.
pub(crate) fn extent(polygon: &Polygon) -> Extent
    ensures { result ≡ extent_of polygon.now }
{
    let corners = polygon.corners.as_slice();
    let mut low = first(corners);
    let mut high = first(corners);
    for corner in corners {
        low = least_corner(low, *corner);
        high = greatest_corner(high, *corner);
    }
    Extent {
        low,
        high,
        area: polygon.area,
    }
}

/// The first of some corners.
fn first(corners: &[Point]) -> Point
    ensures { result ≡ corner_at corners.now 0 }
{
    match corners.first() {
        Some(corner) => *corner,
        None => Point { x: 0, z: 0 },
    }
}

/// The corner of a box with the lesser parts of two corners.
fn least_corner(a: Point, b: Point) -> Point
    ensures x { result.x ≡ int_min a.x b.x }
    ensures z { result.z ≡ int_min a.z b.z }
{
    Point {
        x: a.x.min(b.x),
        z: a.z.min(b.z),
    }
}

/// The corner of a box with the greater parts of two corners.
fn greatest_corner(a: Point, b: Point) -> Point
    ensures x { result.x ≡ int_max a.x b.x }
    ensures z { result.z ≡ int_max a.z b.z }
{
    Point {
        x: a.x.max(b.x),
        z: a.z.max(b.z),
    }
}

/// An extent in ten bytes, as lists keep it; contracts see the extent.
#[derive(Clone, Copy)]
pub struct PackedExtent {
    left: u16,
    bottom: u16,
    right: u16,
    top: u16,
    area: u8,
}

impl Model for PackedExtent {
    ghost use Rattle.mesh_types.specs.declared.extent.Extent.{Extent};
    ghost use Rattle.mesh_types.specs.SmallExtents.{extent_view, extent_inverse, extent_back};

    ghost Value = { Extent };

    ghost view = { extent_view };

    ghost inverse = { extent_inverse };

    ghost inverse_ok = { λ inside _. extent_back inside };
}

impl PackedExtent {
    /// An extent in small numbers; none exactly where one of its numbers is too great for them or less than 0.
    pub fn new(extent: Extent) -> Option<Self>
        ensures value { IfSome result (λ small. small ≡ extent) }
        ensures none { IsNone result ↔ (IsSmallExtent extent → ⊥) }
    {
        if !is_small(extent) {
            return None;
        }
        Some(PackedExtent {
            left: extent.low.x as u16,
            bottom: extent.low.z as u16,
            right: extent.high.x as u16,
            top: extent.high.z as u16,
            area: extent.area as u8,
        })
    }

    /// The extent.
    pub fn get(&self) -> Extent
        ensures { result ≡ self.now }
    {
        Extent {
            low: Point {
                x: self.left as i32,
                z: self.bottom as i32,
            },
            high: Point {
                x: self.right as i32,
                z: self.top as i32,
            },
            area: self.area as u32,
        }
    }
}

/// Whether an extent fits into small numbers.
fn is_small(extent: Extent) -> bool
    ensures { IsTrue result ↔ IsSmallExtent extent }
{
    is_small_point(extent.low) && is_small_point(extent.high) && extent.area <= 255
}

/// Whether a point fits into small numbers.
fn is_small_point(point: Point) -> bool
    ensures { IsTrue result ↔ IsSmallPoint point }
{
    fits(point.x) && fits(point.z)
}

/// Whether a coordinate fits into 16 bits.
fn fits(coordinate: i32) -> bool
    ensures { IsTrue result ↔ IsSmallCoordinate coordinate }
{
    0 <= coordinate && coordinate <= 65535
}
