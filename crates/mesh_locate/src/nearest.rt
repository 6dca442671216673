//! The nearest polygon of tiles. The polygon that locates a place. What a search for a place keeps. The tiles along one axis that reach a
//! coordinate.

ghost use Rattle.std.specs.Prelude.{◌≡◌, ◌<◌, ◌+◌, ◌*◌, length, ◌↔◌, IfSome, IsNone, ◌≤◌, ℕ};
ghost use Rattle.nav_base.specs.Point.{HasCoordinates};
ghost use Rattle.nav_ground.specs.Limits.{IsSetting};
ghost use Rattle.nav_ground.specs.Tiling.{tiles_in_row, tile_rows};
ghost use Rattle.mesh_types.specs.Soundness.{IsSound};
ghost use Rattle.mesh_locate.specs.Nearest.{AreColumns, IsNearestBefore};
ghost use Rattle.mesh_types.specs.Located.{IsLocated};
ghost use Rattle.mesh_types.specs.Right.{IsNowhere};
ghost use Rattle.mesh_locate.specs.Places.{IsOneOf, Reaches};

use crate::polygons::nearer_at;
use mesh_types::{Mesh, PolyRef};
use nav_base::Point;
use nav_ground::TileNo;

/// What was found in the rows of tiles before this one, or a nearer polygon of this row; the row's tiles in these columns alone are looked at.
pub fn nearest_in_row(
    mesh: &Mesh,
    row: u32,
    columns: AxisTiles,
    sought: Sought,
    best: Option<NearestPolygon>,
) -> Option<NearestPolygon>
    requires sound { IsSound mesh.now }
    requires setting { IsSetting mesh.now.setting }
    requires there { row < tile_rows mesh.now.setting }
    requires columns { AreColumns mesh.now sought.p sought.y columns }
    requires point { HasCoordinates sought.p }
    requires best { IsNearestBefore mesh.now sought.p sought.y (row * tiles_in_row mesh.now.setting) 0 best }
    ensures { IsNearestBefore mesh.now sought.p sought.y ((row + 1) * tiles_in_row mesh.now.setting) 0 result }
{
    let first = row * mesh.setting.width.div_ceil(mesh.setting.tile);
    let mut nearest = best;
    for column in columns.first..columns.end {
        nearest = nearest_in_tile(mesh, first + column, sought, nearest);
    }
    nearest
}

/// What was found in the tiles before this one, or a nearer polygon of this tile.
fn nearest_in_tile(
    mesh: &Mesh,
    tile: TileNo,
    sought: Sought,
    best: Option<NearestPolygon>,
) -> Option<NearestPolygon>
    requires sound { IsSound mesh.now }
    requires there { tile < length mesh.now.tiles }
    requires point { HasCoordinates sought.p }
    requires best { IsNearestBefore mesh.now sought.p sought.y tile 0 best }
    ensures { IsNearestBefore mesh.now sought.p sought.y (tile + 1) 0 result }
{
    let polygons = &mesh.tiles.at(tile as usize).get().polys;
    let mut nearest = best;
    for i in 0..polygons.len() {
        let at = PolyRef {
            tile,
            index: i as u32,
        };
        nearest = nearer_at(mesh, at, polygons, sought, nearest);
    }
    nearest
}

/// The polygon of a mesh that holds a point, in sixteenths of a cell, at a height: of those that do the one whose floors are the nearest to
/// the height, and of equally near ones the first by tile and place.
pub fn locate(mesh: &Mesh, p: Point, y: u32) -> Option<PolyRef>
    requires sound { IsSound mesh.now }
    requires setting { IsSetting mesh.now.setting }
    requires point { HasCoordinates p }
    ensures located { IfSome result (λ at. IsLocated mesh.now p y at) }

    // There is none exactly where no polygon holds the point at the height.
    ensures none { IsNone result ↔ IsNowhere mesh.now p y }
{
    let tile = mesh.setting.tile;
    let columns = reached_places(p.x, 16 * tile, mesh.setting.width.div_ceil(tile));
    let rows = reached_places(p.z, 16 * tile, mesh.setting.depth.div_ceil(tile));
    let mut nearest = None;
    for row in rows.first..rows.end {
        nearest = nearest_in_row(mesh, row, columns, Sought { p, y }, nearest);
    }
    let near = nearest?;
    Some(near.at)
}

/// The place that is looked for: a point in sixteenths of a cell, and a height.
#[derive(Clone, Copy)]
pub struct Sought {
    pub p: Point,
    pub y: u32,
}

/// A polygon that holds the place, and how far the height is outside its floors, in height units.
#[derive(Clone, Copy)]
pub struct NearestPolygon {
    pub gap: u32,
    pub at: PolyRef,
}

/// Places of tiles along one axis: from the first up to before the end.
#[derive(Clone, Copy)]
pub struct AxisTiles {
    pub first: u32,
    pub end: u32,
}

/// The places of the tiles, of a number of tiles with a side in sixteenths, whose closed squares reach a coordinate: at most two.
pub fn reached_places(at: i32, side: u32, count: u32) -> AxisTiles
    requires { 1 ≤ side }
    ensures order { result.first ≤ result.end }
    ensures inside { result.end ≤ count }
    ensures two { result.end ≤ result.first + 2 }
    ensures all { (place : ℕ) → place < count → Reaches side place at → IsOneOf result place }
{
    if at < 0 {
        return AxisTiles { first: 0, end: 0 };
    }
    let at = at as u32;
    let end = count.min(at / side + 1);
    let first = end.min(at.saturating_sub(1) / side);
    AxisTiles { first, end }
}
