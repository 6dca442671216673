//! The tiles within reach of a point, row by row.

ghost use Rattle.std.specs.Prelude.{◌≡◌, ℕ, ◌<◌, ◌≤◌, ◌*◌, ◌/◌};
ghost use Rattle.nav_ground.specs.Limits.{IsSetting};
ghost use Rattle.nav_ground.specs.Tiling.{tiles_in_row, tile_rows};
ghost use Rattle.mesh_types.specs.Soundness.{IsSound};
ghost use Rattle.mesh_place.specs.Nearest.{CanAskNear};
ghost use Rattle.mesh_place.specs.Searches.{IsDone, IsFound, IsFoundAmong, IsOf};
ghost use Rattle.mesh_place.specs.Tiles.{AreTilesAround, AreWithin, IsInTileRows, IsNearBy};

use crate::bounds::reach_left;
use crate::columns::{ReachEnds, ends_across, ends_along};
use crate::guesses::likely_tile;
use crate::near::Near;
use crate::scan::{LookedAt, in_tile, likely_first};
use mesh_types::{Mesh, MeshPlace, PolyRef};

/// Places of tiles along one axis: from the first up to before the end.
#[derive(Clone, Copy)]
pub struct TileRange {
    pub first: u32,
    pub end: u32,
}

/// The rows and the columns of tiles that have a place within a reach, in sixteenths.
#[derive(Clone, Copy)]
pub struct TilesAround {
    pub reach: u32,
    pub rows: TileRange,
    pub columns: TileRange,
}

/// What was found, or a nearer place of any tile: first of the polygon that is likely to have the nearest, and then of the tiles within
/// what is left of the reach.
pub(crate) fn in_tiles(mesh: &Mesh, asked: &Near, best: Option<MeshPlace>) -> Option<MeshPlace>
    requires sound { IsSound mesh.now }
    requires setting { IsSetting mesh.now.setting }
    requires asked { CanAskNear asked.now }
    requires best { IsFound mesh.now asked.now best }
    ensures { IsFoundAmong mesh.now asked.now best result (IsInTileRows mesh.now (tile_rows mesh.now.setting)) }
{
    let likely = likely_place(mesh, asked, best);
    let reach = reach_left(mesh.setting.agent.climb, asked, 0, likely.best);
    let around = tiles_around(mesh, asked, reach);
    in_tile_rows(mesh, &around, asked, likely.done, likely.best)
}

/// What was found, or a nearer place of the polygon that is likely to have the nearest, in the tile that is nearest to the point.
fn likely_place(mesh: &Mesh, asked: &Near, best: Option<MeshPlace>) -> LookedAt
    requires sound { IsSound mesh.now }
    requires setting { IsSetting mesh.now.setting }
    requires asked { CanAskNear asked.now }
    requires best { IsFound mesh.now asked.now best }
    ensures { IsFoundAmong mesh.now asked.now best result.best (IsOf result.done) }
{
    let tile = likely_tile(&mesh.setting, asked.point);
    if tile as usize >= mesh.tiles.len() {
        return LookedAt { done: None, best };
    }
    likely_first(mesh, tile, asked, best)
}

/// What was found, or a nearer place of the tiles around.
fn in_tile_rows(
    mesh: &Mesh,
    around: &TilesAround,
    asked: &Near,
    done: Option<PolyRef>,
    best: Option<MeshPlace>,
) -> Option<MeshPlace>
    requires sound { IsSound mesh.now }
    requires setting { IsSetting mesh.now.setting }
    requires around { AreTilesAround mesh.now asked.now around.now }
    requires asked { CanAskNear asked.now }
    requires best { IsFound mesh.now asked.now best }
    requires done { IsDone mesh.now asked.now done best }
    ensures { IsFoundAmong mesh.now asked.now best result
        (λ place. IsInTileRows mesh.now (tile_rows mesh.now.setting) place × IsNearBy asked.now around.now place) }
{
    let mut nearest = best;
    for row in around.rows.first..around.rows.end {
        nearest = in_tile_row(mesh, row, around, asked, done, nearest);
    }
    nearest
}

/// What was found, or a nearer place of the tiles around in one row.
fn in_tile_row(
    mesh: &Mesh,
    row: u32,
    around: &TilesAround,
    asked: &Near,
    done: Option<PolyRef>,
    best: Option<MeshPlace>,
) -> Option<MeshPlace>
    requires sound { IsSound mesh.now }
    requires setting { IsSetting mesh.now.setting }
    requires there { row < tile_rows mesh.now.setting }
    requires around { AreTilesAround mesh.now asked.now around.now }
    requires asked { CanAskNear asked.now }
    requires best { IsFound mesh.now asked.now best }
    requires done { IsDone mesh.now asked.now done best }
    ensures { IsFoundAmong mesh.now asked.now best result
        (λ place. (place.polygon.tile / tiles_in_row mesh.now.setting ≡ row) × IsNearBy asked.now around.now place) }
{
    let first = row * mesh.setting.width.div_ceil(mesh.setting.tile);
    let mut nearest = best;
    for column in around.columns.first..around.columns.end {
        nearest = in_tile(mesh, first + column, asked, done, nearest);
    }
    nearest
}

/// The tiles that have a place within a reach of the point.
fn tiles_around(mesh: &Mesh, asked: &Near, reach: u32) -> TilesAround
    requires sound { IsSound mesh.now }
    requires setting { IsSetting mesh.now.setting }
    requires asked { CanAskNear asked.now }
    requires reach { reach ≤ asked.now.reach }
    ensures around { AreTilesAround mesh.now asked.now result }
    ensures reach { result.reach ≡ reach }
{
    let setting = &mesh.setting;
    let side = 16 * setting.tile;
    let along = setting.depth.div_ceil(setting.tile);
    let across = setting.width.div_ceil(setting.tile);
    TilesAround {
        reach,
        rows: tiles_within(ends_along(asked.point, reach), side, along),
        columns: tiles_within(ends_across(asked.point, reach), side, across),
    }
}

/// The places of the tiles, of a number of tiles with a side in sixteenths, that have a coordinate within reach.
fn tiles_within(reach: ReachEnds, side: u32, count: u32) -> TileRange
    requires side { 1 ≤ side }
    requires few { reach.high ≤ 1000000 }
    ensures order { result.first ≤ result.end }
    ensures inside { result.end ≤ count }
    ensures all { (place m : ℕ) → place < count → AreWithin reach side place m → result.first ≤ place }
    ensures before { (place m : ℕ) → place < count → AreWithin reach side place m → place < result.end }
{
    let end = count.min(reach.high / side + 1);
    let first = end.min(reach.low.saturating_sub(1) / side);
    TileRange { first, end }
}
