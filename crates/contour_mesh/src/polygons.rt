//! The polygons of a tile's parts.

ghost use Rattle.std.specs.Prelude.{◌≡◌, ◌<◌, ◌≤◌, ◌++◌, IfOk, OnOk, Option, All, length, map};
ghost use Rattle.mesh_types.specs.declared.region.Piece.{Piece};
ghost use Rattle.mesh_types.specs.Facets.{facets_of};
ghost use Rattle.contour_mesh.specs.Parts.{IsCutPart};
ghost use Rattle.contour_mesh.specs.Footings.{polygon_over, facet_over_footing};

use crate::parts::{RegionFloors, footing_at};
use mesh_types::{Corners, Polygon, Polygons, RegionPart};
use nav_base::Point;
use std::alloc::{AllocError, Global};

/// The polygons of a tile: a polygon for each piece of each part, over the footing of its region.
pub fn polygons(
    alloc: Global,
    parts: &[RegionPart],
    footings: &[Option<RegionFloors>],
) -> Result<Polygons, AllocError>
    requires parts { All IsCutPart parts.now }
    requires footings { length parts.now ≤ length footings.now }
    ensures { IfOk result (λ polys. polys ≡ map (facet_over_footing footings.now) (facets_of parts.now)) }
{
    let mut corners = Vec::new(alloc);
    let mut polys = Vec::new(alloc);
    for region in 0..parts.len() {
        let footing = footing_at(footings, region);
        push_polygons(&parts[region], footing, &mut corners, &mut polys)?;
    }
    Polygons::from_vec(alloc, polys)
}

/// Appends the polygons of a part. The corners are room to work in.
fn push_polygons(
    part: &RegionPart,
    footing: RegionFloors,
    corners: &mut Vec<Point>,
    polys: &mut Vec<Polygon>,
) -> Result<(), AllocError>
    requires { IsCutPart part.now }
    ensures { OnOk result (polys.new.items
        ≡ polys.old.items ++ map (λ (piece : Piece). polygon_over part.now.outline.corners footing piece.corners) part.now.pieces) }
{
    let outline = part.outline.corners.as_slice();
    let pieces = part.pieces.as_slice();
    for number in 0..pieces.len() {
        let places = pieces[number].corners.as_slice();
        polys.push(polygon_over(outline, footing, places, corners)?)?;
    }
    Ok(())
}

/// The polygon with these places of an outline as its corners. The corners are room to work in.
fn polygon_over(
    outline: &[Point],
    footing: RegionFloors,
    places: &[u32],
    corners: &mut Vec<Point>,
) -> Result<Polygon, AllocError>
    requires places { All (λ place. place < length outline.now) places.now }
    requires most { length places.now ≤ 6 }
    ensures { IfOk result (λ polygon. polygon ≡ polygon_over outline.now footing places.now) }
{
    corners.clear();
    for place in places {
        corners.push(outline[*place as usize])?;
    }
    Ok(Polygon {
        corners: Corners::from_slice(corners.as_slice()),
        area: footing.area,
        low: footing.low,
        high: footing.high,
    })
}
