//! Walls as C is told them.

ghost use Rattle.std.specs.Prelude.{◌≡◌, ◌<◌, ◌↔◌, IsTrue};
ghost use Rattle.nav_base.specs.Point.{HasCoordinates};
ghost use Rattle.place_handle.specs.Places.{place_of};
ghost use Rattle.wall_handle.specs.Walls.{wall_told};

use nav_handle::{NavdPoint, NavdPolygon, has_coordinates, point_told, polygon_told};
use place_handle::NavdPlace;
use wall_query::Wall;

/// Where walls are looked for: around a place, within a reach in sixteenths of a cell, below 262144, and in polygons of which areas, bit a for area a.
#[repr(C)]
#[derive(Clone, Copy)]
pub struct NavdAround {
    pub from: NavdPlace,
    pub reach: u32,
    pub areas: u64,
}

/// A wall on an edge of a polygon, which lies to its left, from its beginning to its end; the square of how far it is, in sixteenths of a cell, is
/// the fraction num / den, which is not reduced.
#[repr(C)]
#[derive(Clone, Copy)]
pub struct NavdWall {
    pub polygon: NavdPolygon,
    pub begin: NavdPoint,
    pub end: NavdPoint,
    pub num: u64,
    pub den: u64,
    pub edge: u32,
}

/// A wall as C is told it.
pub(crate) fn wall_told(wall: Wall) -> NavdWall
    ensures { result ≡ wall_told wall }
{
    NavdWall {
        polygon: polygon_told(wall.polygon),
        begin: point_told(wall.begin),
        end: point_told(wall.end),
        num: wall.far.num,
        den: wall.far.den,
        edge: wall.edge,
    }
}

/// Whether walls may be asked for: the place's point has coordinates, and the reach is within its limit.
pub(crate) fn can_ask(around: &NavdAround) -> bool
    ensures { IsTrue result ↔ (HasCoordinates (place_of around.now.from).point × (around.now.reach < 262144)) }
{
    has_coordinates(around.from.at) && around.reach < 262144
}
