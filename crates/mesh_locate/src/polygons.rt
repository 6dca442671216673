//! Whether a polygon holds a place, and which of two is nearer to it.

ghost use Rattle.std.specs.Prelude.{◌≡◌, ◌↔◌, ◌<◌, ◌+◌, All, IsTrue, Some, length, slice_get};
ghost use Rattle.nav_base.specs.Point.{HasCoordinates, IsCellCorner};
ghost use Rattle.mesh_types.specs.Located.{Holds, height_gap};
ghost use Rattle.mesh_types.specs.FitTiles.{IsPolygon};
ghost use Rattle.mesh_types.specs.WholeMesh.{poly_at};
ghost use Rattle.mesh_locate.specs.Nearest.{IsFrom, IsInBox, IsNearestBefore, is_nearer};

use crate::nearest::{NearestPolygon, Sought};
use mesh_types::{Extent, Mesh, PolyRef, Polygon, Polygons, holds, in_sixteenths};
use nav_base::Point;

/// What was found so far, or the polygon at a place of its tile, if it holds the place and is nearer in height. Of most polygons the box alone
/// is looked at.
pub fn nearer_at(
    mesh: &Mesh,
    at: PolyRef,
    polygons: &Polygons,
    sought: Sought,
    best: Option<NearestPolygon>,
) -> Option<NearestPolygon>
    requires listed { poly_at mesh.now at ≡ slice_get polygons.now at.index }
    requires there { at.index < length polygons.now }
    requires polygons { All IsPolygon polygons.now }
    requires point { HasCoordinates sought.p }
    requires best { IsNearestBefore mesh.now sought.p sought.y at.tile at.index best }
    ensures { IsNearestBefore mesh.now sought.p sought.y at.tile (at.index + 1) result }
{
    let place = at.index as usize;
    if !is_in_box(polygons.extent(place), sought.p) {
        return best;
    }
    nearer(mesh, at, &polygons.at(place), sought, best)
}

/// Whether a point lies in a box of cells or on its border.
fn is_in_box(extent: Extent, p: Point) -> bool
    requires low { IsCellCorner extent.low }
    requires high { IsCellCorner extent.high }
    ensures { IsTrue result ↔ IsInBox extent p }
{
    is_from(in_sixteenths(extent.low), p) && is_from(p, in_sixteenths(extent.high))
}

/// Whether a point lies no further left and no further down than another.
fn is_from(low: Point, high: Point) -> bool
    ensures { IsTrue result ↔ IsFrom low high }
{
    low.x <= high.x && low.z <= high.z
}

/// What was found so far, or a polygon, if it holds the place and is nearer in height.
fn nearer(
    mesh: &Mesh,
    at: PolyRef,
    polygon: &Polygon,
    sought: Sought,
    best: Option<NearestPolygon>,
) -> Option<NearestPolygon>
    requires there { poly_at mesh.now at ≡ Some polygon.now }
    requires corners { All IsCellCorner polygon.now.corners }
    requires point { HasCoordinates sought.p }
    requires best { IsNearestBefore mesh.now sought.p sought.y at.tile at.index best }
    ensures { IsNearestBefore mesh.now sought.p sought.y at.tile (at.index + 1) result }
{
    let gap = height_gap(polygon, sought.y);
    if gap > mesh.setting.agent.climb {
        return best;
    }
    if !is_nearer(gap, best) {
        return best;
    }
    if !holds(polygon, sought.p) {
        return best;
    }
    Some(NearestPolygon { gap, at })
}

/// How far a height is outside the floors of a polygon.
fn height_gap(polygon: &Polygon, y: u32) -> u32
    ensures { result ≡ height_gap polygon.now y }
{
    let below = polygon.low.saturating_sub(y);
    let above = y.saturating_sub(polygon.high);
    below.max(above)
}

/// Whether a gap is less than that of what was found so far.
fn is_nearer(gap: u32, best: Option<NearestPolygon>) -> bool
    ensures { result ≡ is_nearer gap best }
{
    match best {
        Some(near) => gap < near.gap,
        None => true,
    }
}
