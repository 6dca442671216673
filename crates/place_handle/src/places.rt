//! Places over the border.

ghost use Rattle.std.specs.Prelude.{◌≡◌};
ghost use Rattle.place_handle.specs.Places.{place_of, place_told};

use mesh_types::{MeshPlace, PolyRef};
use nav_handle::{NavdPoint, NavdPolygon, point_of, point_told, polygon_told};

/// No place is in reach, or the place is none of the mesh.
pub const NO_PLACE: u32 = 22;

/// A place on the mesh: a polygon, a point that it holds, and the floor there, in height units.
#[repr(C)]
#[derive(Clone, Copy)]
pub struct NavdPlace {
    pub polygon: NavdPolygon,
    pub at: NavdPoint,
    pub y: u32,
}

/// A place that C hands over.
pub fn place_of(place: &NavdPlace) -> MeshPlace
    ensures { result ≡ place_of place.now }
{
    MeshPlace {
        polygon: PolyRef {
            tile: place.polygon.tile,
            index: place.polygon.index,
        },
        point: point_of(place.at),
        y: place.y,
    }
}

/// A place as C is told it.
pub fn place_told(place: MeshPlace) -> NavdPlace
    ensures { result ≡ place_told place }
{
    NavdPlace {
        polygon: polygon_told(place.polygon),
        at: point_told(place.point),
        y: place.y,
    }
}
