//! The mesh of a tile as strips.

ghost use Rattle.std.specs.Prelude.{◌≡◌, IfOk, map};
ghost use Rattle.nav_ground.specs.Limits.{IsSetting};
ghost use Rattle.nav_ground.specs.Cells.{IsCut, IsInTile};
ghost use Rattle.mesh_types.specs.Passages.{AreTwoWay, LinksConnected, ListsCrossings};
ghost use Rattle.mesh_types.specs.FitTiles.{IsFit};
ghost use Rattle.mesh_types.specs.StripCover.{CoversCells};
ghost use Rattle.mesh_types.specs.StripPolygons.{strip_polygon};
ghost use Rattle.mesh_types.specs.StripLinks.{strip_links};
ghost use Rattle.mesh_types.specs.StripRim.{strip_rim};
ghost use Rattle.mesh_types.specs.StripMeshes.{strip_mesh_of, strip_storeys};
ghost use Rattle.mono_regions.specs.Joining.{IsTableOf};
ghost use Rattle.strip_mesh.specs.Indexed.{AreIndexed, runs_in};

use crate::inner::inner_links;
use crate::polygons::polygons;
use crate::rim::rim;
use crate::storeys::storeys;
use crate::tile_strips::TileStrips;
use mesh_types::{Links, Polygons, RimEdge, Storeys, TileMesh};
use mono_regions::{StripTable, tabled_strips};
use nav_ground::{FreeLayer, PackedFreeLayer, Setting, Window, tile_bounds};
use nav_lists::{Duplicate, Items};
use std::alloc::{AllocError, Global};

/// The mesh of a tile from its free cells: a rectangle for each strip, the links between the strips, and the rim. The mesh keeps a copy of
/// the free cells.
pub fn strip_mesh(
    alloc: Global,
    free: &FreeLayer,
    setting: &Setting,
) -> Result<TileMesh, AllocError>
    requires setting { IsSetting setting.now }
    requires cells { IsCut free.now.cells }
    requires tile { IsInTile setting.now free.now.tile free.now.cells }
    ensures value { IfOk result (λ tile. tile ≡ strip_mesh_of setting.now free.now) }
    ensures fit { IfOk result (IsFit setting.now) }
    ensures cover { IfOk result CoversCells }
    ensures linked { IfOk result LinksConnected }
    ensures back { IfOk result (λ tile. AreTwoWay tile.links) }
    ensures listed { IfOk result (ListsCrossings setting.now) }
{
    let free = free.duplicate(alloc)?;
    strip_mesh_over(alloc, free, setting)
}

/// What `strip_mesh` does, of free cells that the mesh takes over.
pub fn strip_mesh_over(
    alloc: Global,
    free: FreeLayer,
    setting: &Setting,
) -> Result<TileMesh, AllocError>
    requires setting { IsSetting setting.now }
    requires cells { IsCut free.cells }
    requires tile { IsInTile setting.now free.tile free.cells }
    ensures value { IfOk result (λ tile. tile ≡ strip_mesh_of setting.now free) }
    ensures fit { IfOk result (IsFit setting.now) }
    ensures cover { IfOk result CoversCells }
    ensures linked { IfOk result LinksConnected }
    ensures back { IfOk result (λ tile. AreTwoWay tile.links) }
    ensures listed { IfOk result (ListsCrossings setting.now) }
{
    let strips = tabled_strips(alloc, free.cells.as_slice())?;
    strip_mesh_of_table(alloc, free, strips, setting)
}

/// What `strip_mesh` does, of free cells and their strips that the mesh takes over.
pub fn strip_mesh_of_table(
    alloc: Global,
    free: FreeLayer,
    strips: StripTable,
    setting: &Setting,
) -> Result<TileMesh, AllocError>
    requires setting { IsSetting setting.now }
    requires cells { IsCut free.cells }
    requires tile { IsInTile setting.now free.tile free.cells }
    requires strips { IsTableOf free.cells strips }
    ensures value { IfOk result (λ tile. tile ≡ strip_mesh_of setting.now free) }
    ensures fit { IfOk result (IsFit setting.now) }
    ensures cover { IfOk result CoversCells }
    ensures linked { IfOk result LinksConnected }
    ensures back { IfOk result (λ tile. AreTwoWay tile.links) }
    ensures listed { IfOk result (ListsCrossings setting.now) }
{
    let mesh = mesh(alloc, TileStrips::from_parts(free, strips), setting)?;
    Ok(mesh)
}

/// The mesh: its parts beside the free cells that they were made from.
#[tactic(auto, unfolding(mesh_types::specs::StripMeshes::strip_mesh_of))]
fn mesh(alloc: Global, strips: TileStrips, setting: &Setting) -> Result<TileMesh, AllocError>
    requires setting { IsSetting setting.now }
    requires rules { AreIndexed strips }
    requires tile { IsInTile setting.now strips.free.tile strips.free.cells }
    ensures { IfOk result (λ tile. tile ≡ strip_mesh_of setting.now strips.free) }
{
    let tile = strips.free.tile;
    let window = tile_bounds(setting, tile);
    let StripParts {
        polys,
        links,
        rim,
        storeys,
    } = strip_parts(alloc, &strips, &window)?;
    Ok(TileMesh {
        tile,
        free: PackedFreeLayer::own(strips.into_free()),
        polys,
        links,
        rim,
        storeys,
    })
}

/// What strips add to a mesh.
#[derive(Drop)]
struct StripParts {
    polys: Polygons,
    links: Links,
    rim: Items<RimEdge>,
    storeys: Storeys,
}

/// The polygons of strips, the links between them, the rim, and the storeys.
fn strip_parts(
    alloc: Global,
    strips: &TileStrips,
    window: &Window,
) -> Result<StripParts, AllocError>
    requires { AreIndexed strips.now }
    ensures polys { IfOk result (λ parts. parts.polys ≡ map strip_polygon (runs_in strips.now)) }
    ensures links { IfOk result (λ parts. parts.links ≡ strip_links strips.now.free.tile (runs_in strips.now)) }
    ensures rim { IfOk result (λ parts. parts.rim ≡ strip_rim window.now (runs_in strips.now)) }
    ensures storeys { IfOk result (λ parts. parts.storeys ≡ strip_storeys (runs_in strips.now)) }
{
    let polys = polygons(alloc, strips)?;
    let links = inner_links(alloc, strips)?;
    let rim = rim(alloc, strips, window)?;
    let storeys = storeys(alloc, strips)?;
    Ok(StripParts {
        polys,
        links,
        rim,
        storeys,
    })
}
