//! The polygon that fits an agent best, in the tiles that reach its middle.

ghost use Rattle.std.specs.Prelude.{◌≡◌, ◌≤◌, ◌<◌, ◌*◌, ◌/◌, ◌%◌, ℕ, IfSome, IfNone, None, Some};
ghost use Rattle.nav_ground.specs.Limits.{IsSetting};
ghost use Rattle.nav_ground.specs.Tiling.{tiles_in_row, tile_rows};
ghost use Rattle.mesh_types.specs.declared.links.PolyRef.{PolyRef};
ghost use Rattle.mesh_types.specs.declared.polygon.Polygon.{Polygon};
ghost use Rattle.mesh_types.specs.Soundness.{IsSound};
ghost use Rattle.mesh_types.specs.WholeMesh.{poly_at};
ghost use Rattle.mesh_locate.specs.Places.{Reaches};
ghost use Rattle.crowd_moves.specs.Pairs.{HasSizes};
ghost use Rattle.crowd_filter.specs.Placing.{DoesTileReach, Fits, IsBestFit, IsAlong, IsFoundFit, IsInColumns, IsInRows, IsSearchedAmong};

use crate::placing::{FittingPolygon, better_of};
use crowd_moves::CrowdAgent;
use mesh_types::{Mesh, PolyRef};
use nav_ground::TileNo;

/// Places of tiles along one axis: from the first up to before the end.
#[derive(Clone, Copy)]
pub(crate) struct TilesAlong {
    pub(crate) first: u32,
    pub(crate) end: u32,
}

/// The polygon that fits an agent best, of those in the tiles that reach its middle: at most four.
pub(crate) fn best_in_tiles(mesh: &Mesh, agent: &CrowdAgent) -> Option<FittingPolygon>
    requires sound { IsSound mesh.now }
    requires setting { IsSetting mesh.now.setting }
    requires sizes { HasSizes agent.now }
    ensures some { IfSome result (λ best. IsBestFit mesh.now agent.now best.at) }
    ensures none { IfNone result ((other : PolyRef) → Fits mesh.now agent.now other → DoesTileReach mesh.now.setting agent.now.at other.tile → ⊥) }
{
    let tile = mesh.setting.tile;
    let columns = tiles_along(agent.at.x, 256 * tile, mesh.setting.width.div_ceil(tile));
    let rows = tiles_along(agent.at.z, 256 * tile, mesh.setting.depth.div_ceil(tile));
    best_in_rows(mesh, agent, rows, columns)
}

/// The polygon that fits an agent best in some rows and columns of tiles.
fn best_in_rows(
    mesh: &Mesh,
    agent: &CrowdAgent,
    rows: TilesAlong,
    columns: TilesAlong,
) -> Option<FittingPolygon>
    requires sound { IsSound mesh.now }
    requires setting { IsSetting mesh.now.setting }
    requires sizes { HasSizes agent.now }
    requires rows { rows.end ≤ tile_rows mesh.now.setting }
    requires columns { columns.end ≤ tiles_in_row mesh.now.setting }
    requires order { rows.first ≤ rows.end }
    requires columns_order { columns.first ≤ columns.end }
    ensures { IsSearchedAmong mesh.now agent.now (IsInRows (tiles_in_row mesh.now.setting) rows.first rows.end columns.first columns.end) None result }
{
    let mut found = None;
    for row in rows.first..rows.end {
        found = better_in_row(mesh, agent, row, columns, found);
    }
    found
}

/// What was found, or a better one in a row of tiles.
fn better_in_row(
    mesh: &Mesh,
    agent: &CrowdAgent,
    row: u32,
    columns: TilesAlong,
    had: Option<FittingPolygon>,
) -> Option<FittingPolygon>
    requires sound { IsSound mesh.now }
    requires setting { IsSetting mesh.now.setting }
    requires sizes { HasSizes agent.now }
    requires there { row < tile_rows mesh.now.setting }
    requires inside { columns.end ≤ tiles_in_row mesh.now.setting }
    requires order { columns.first ≤ columns.end }
    requires had { IsFoundFit mesh.now agent.now had }
    ensures { IsSearchedAmong mesh.now agent.now (IsInColumns (tiles_in_row mesh.now.setting) row columns.first columns.end) had result }
{
    let first = row * mesh.setting.width.div_ceil(mesh.setting.tile);
    let mut found = had;
    for column in columns.first..columns.end {
        found = better_in_tile(mesh, agent, first + column, found);
    }
    found
}

/// What was found, or a better one in a tile.
fn better_in_tile(
    mesh: &Mesh,
    agent: &CrowdAgent,
    tile: TileNo,
    had: Option<FittingPolygon>,
) -> Option<FittingPolygon>
    requires sound { IsSound mesh.now }
    requires sizes { HasSizes agent.now }
    requires had { IsFoundFit mesh.now agent.now had }
    ensures { IsSearchedAmong mesh.now agent.now (λ other. other.tile ≡ tile) had result }
{
    let mut found = had;
    for index in 0..polygons_in(mesh, tile) {
        found = better_of(mesh, agent, PolyRef { tile, index }, found);
    }
    found
}

/// How many polygons a tile has; 0 where there is no such tile.
fn polygons_in(mesh: &Mesh, tile: TileNo) -> u32
    requires { IsSound mesh.now }
    ensures { (other : PolyRef) (polygon : Polygon) → other.tile ≡ tile → poly_at mesh.now other ≡ Some polygon → other.index < result }
{
    match mesh.tiles.get(tile as usize) {
        Some(tile) => tile.get().polys.len() as u32,
        None => 0,
    }
}

/// The places of the tiles, of a number of tiles with a side in fine units, whose closed squares reach a coordinate: at most two.
fn tiles_along(at: i32, side: u32, count: u32) -> TilesAlong
    requires { 1 ≤ side }
    ensures order { result.first ≤ result.end }
    ensures inside { result.end ≤ count }
    ensures all { (place : ℕ) → place < count → Reaches side place at → IsAlong result place }
{
    if at < 0 {
        return TilesAlong { first: 0, end: 0 };
    }
    let at = at as u32;
    let end = count.min(at / side + 1);
    let first = end.min(at.saturating_sub(1) / side);
    TilesAlong { first, end }
}
