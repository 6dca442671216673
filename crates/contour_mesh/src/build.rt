//! The mesh of a tile by the outlines of its regions. What comes of meshing a tile by the outlines of its regions.

ghost use Rattle.std.specs.Prelude.{◌≡◌, ◌<◌, ◌≤◌, IfOk, All, length, map};
ghost use Rattle.nav_ground.specs.Limits.{IsSetting};
ghost use Rattle.nav_ground.specs.Cells.{IsCells, IsCut, IsInTile};
ghost use Rattle.nav_ground.specs.Tiling.{tile_count, tile_window};
ghost use Rattle.mesh_types.specs.Regions.{AreRegionsOf, regions_of};
ghost use Rattle.mesh_types.specs.Passages.{AreTwoWay, ListsCrossings};
ghost use Rattle.mesh_types.specs.FitTiles.{IsFit};
ghost use Rattle.mesh_types.specs.Doors.{doors_of, door_links};
ghost use Rattle.mesh_types.specs.DoorRim.{door_rim};
ghost use Rattle.mesh_types.specs.Facets.{facet_polygon, facets_of};
ghost use Rattle.mesh_types.specs.ContourMeshes.{parts_mesh};
ghost use Rattle.contour_walk.specs.Tables.{IsRim, IsTableOf};
ghost use Rattle.mono_regions.specs.Joining as strip_tables;
ghost use Rattle.contour_mesh.specs.declared.build.ContourMesh.{ContourMesh};
ghost use Rattle.contour_mesh.specs.Outcomes.{IsMeshOrCells, IfMade};
ghost use Rattle.contour_mesh.specs.Linked.{LinksFacing};
ghost use Rattle.contour_mesh.specs.Parts.{IsCutPart};
ghost use Rattle.contour_mesh.specs.SharedEdges.{OutlinesShareEdges};
ghost use Rattle.contour_mesh.specs.Orders.{JoinsCorners, MeetsFacing};
ghost use Rattle.contour_mesh.specs.Sides.{IsFieldWindow};
ghost use Rattle.mesh_types.specs.declared.region.PortalEdge.{PortalEdge};
ghost use Rattle.nav_ground.specs.declared.setting.Setting.{Setting};

use crate::crossings::side_tables;
use crate::doors::doors;
use crate::links::door_links;
use crate::parts::{footings, parts};
use crate::polygons::polygons;
use crate::rim::door_rim;
use crate::storeys::storeys;
use contour_walk::{RegionRim, RegionTable, region_table_over};
use mesh_types::{Links, Polygons, PortalEdge, RegionPart, Regions, RimEdge, TileMesh};
use mono_regions::{StripIndex, StripTable, regions_over, tabled_strips};
use nav_ground::{FreeLayer, PackedFreeLayer, Setting, TileNo};
use nav_lists::Items;
use std::alloc::{AllocError, Global};

/// The mesh of a tile by the outlines of its regions, from its free cells, which it takes over: the pieces of each outline as polygons, the
/// links between them, and the rim. Where some region has no outline, or one that cannot be cut, the free cells come back, with their strips.
pub fn contour_mesh_over(
    alloc: Global,
    free: FreeLayer,
    setting: &Setting,
) -> Result<ContourMesh, AllocError>
    requires setting { IsSetting setting.now }
    requires cells { IsCut free.cells }
    requires tile { IsInTile setting.now free.tile free.cells }
    ensures value { IfOk result (IsMeshOrCells setting.now free) }
    ensures fit { IfOk result (IfMade (IsFit setting.now)) }

    // Every two doors that face each other are linked, from each to the other, and each link has its reverse.
    ensures linked { IfOk result (IfMade (LinksFacing setting.now)) }
    ensures back { IfOk result (IfMade (λ mesh. AreTwoWay mesh.links)) }

    // Where two regions meet, their outlines have the same edges, the other way round.
    ensures shared { IfOk result (IfMade (λ tile. OutlinesShareEdges setting.now tile.free)) }

    // Each free cell with a kept neighbour across a side of the tile is listed by exactly one entry of the rim.
    ensures listed { IfOk result (IfMade (ListsCrossings setting.now)) }
{
    let strips = tabled_strips(alloc, free.cells.as_slice())?;
    let regions = regions_over(alloc, free.cells.as_slice(), &strips)?;
    let StripTable {
        table: neighbours,
        index,
    } = strips;
    let table = region_table_over(alloc, &free, setting, &regions, neighbours)?;
    let tables = RegionTables {
        regions: table,
        strips: index,
    };
    mesh_over_regions(alloc, free, setting, &regions, tables)
}

/// The tables of a tile: that of its regions, which has the neighbour table too, and where its strips begin.
#[derive(Drop)]
struct RegionTables {
    regions: RegionTable,
    strips: StripIndex,
}

/// The same by the regions of the tile and the tables.
fn mesh_over_regions(
    alloc: Global,
    free: FreeLayer,
    setting: &Setting,
    regions: &Regions,
    tables: RegionTables,
) -> Result<ContourMesh, AllocError>
    requires setting { IsSetting setting.now }
    requires cells { IsCut free.cells }
    requires tile { IsInTile setting.now free.tile free.cells }
    requires regions { AreRegionsOf free.cells regions.now }
    requires all { regions.now ≡ regions_of free.cells }
    requires table { IsTableOf free.cells regions.now.regions tables.regions }
    requires strips { strip_tables.IsTableOf free.cells (record { table = tables.regions.neighbours; index = tables.strips }) }
    requires window { tables.regions.window ≡ tile_window setting.now free.tile }
    ensures value { IfOk result (IsMeshOrCells setting.now free) }
    ensures fit { IfOk result (IfMade (IsFit setting.now)) }
    ensures linked { IfOk result (IfMade (LinksFacing setting.now)) }
    ensures back { IfOk result (IfMade (λ mesh. AreTwoWay mesh.links)) }
    ensures listed { IfOk result (IfMade (ListsCrossings setting.now)) }
{
    let cells = free.cells.as_slice();
    let source = RegionRim {
        cells,
        regions,
        table: &tables.regions,
    };
    match parts(alloc, source, setting.error)? {
        None => Ok(not_cut(free, tables)),
        Some(parts) => {
            let mesh = mesh(alloc, free, regions, &tables.regions, parts.as_slice())?;
            Ok(ContourMesh::Made(mesh))
        }
    }
}

/// The free cells again, with their strips.
fn not_cut(free: FreeLayer, tables: RegionTables) -> ContourMesh
    ensures { result ≡ ContourMesh.NotCut free (record { table = tables.regions.neighbours; index = tables.strips }) }
{
    let RegionTables {
        regions,
        strips: index,
    } = tables;
    let strips = StripTable {
        table: regions.neighbours,
        index,
    };
    ContourMesh::NotCut { free, strips }
}

/// The mesh of a tile by the parts of its regions.
fn mesh(
    alloc: Global,
    free: FreeLayer,
    regions: &Regions,
    table: &RegionTable,
    parts: &[RegionPart],
) -> Result<TileMesh, AllocError>
    requires cells { IsCells free.cells }
    requires regions { AreRegionsOf free.cells regions.now }
    requires all { regions.now ≡ regions_of free.cells }
    requires table { IsTableOf free.cells regions.now.regions table.now }
    requires window { IsFieldWindow table.now.window }
    requires parts { All IsCutPart parts.now }
    requires each { length parts.now ≤ length regions.now.regions }
    requires few { length (facets_of parts.now) ≤ 8000000 }
    ensures { IfOk result (λ mesh. (setting : Setting) → table.now.window ≡ tile_window setting free.tile → mesh ≡ parts_mesh setting free regions.now parts.now) }
{
    let cells = free.cells.as_slice();
    let source = RegionRim {
        cells,
        regions,
        table,
    };
    let polys = part_polygons(alloc, source, parts)?;
    let count = polys.len() as u32;
    let DoorLinks { links, rim } = part_ways(alloc, source, parts, free.tile, count)?;
    let storeys = storeys(alloc, source, parts)?;
    Ok(TileMesh {
        tile: free.tile,
        free: PackedFreeLayer::own(free),
        polys,
        links,
        rim,
        storeys,
    })
}

/// The polygons of parts.
fn part_polygons(
    alloc: Global,
    source: RegionRim,
    parts: &[RegionPart],
) -> Result<Polygons, AllocError>
    requires rim { IsRim source }
    requires parts { All IsCutPart parts.now }
    requires each { length parts.now ≤ length source.regions.now.regions }
    ensures { IfOk result (λ polys. polys ≡ map (facet_polygon source.entry.cells.now source.entry.regions.now) (facets_of parts.now)) }
{
    let footings = footings(alloc, source.cells, source.regions, source.table)?;
    polygons(alloc, parts, footings.as_slice())
}

/// The ways out of polygons: to others of the tile, and to its sides.
#[derive(Drop)]
struct DoorLinks {
    links: Links,
    rim: Items<RimEdge>,
}

/// The ways out of the polygons of parts, of which there are so many.
fn part_ways(
    alloc: Global,
    source: RegionRim,
    parts: &[RegionPart],
    tile: TileNo,
    polygons: u32,
) -> Result<DoorLinks, AllocError>
    requires rim { IsRim source }
    requires regions { AreRegionsOf source.cells.now source.regions.now }
    requires window { IsFieldWindow source.table.now.window }
    requires parts { All IsCutPart parts.now }
    requires each { length parts.now ≤ length source.regions.now.regions }
    requires few { polygons ≤ 8000000 }
    requires polygons { polygons ≡ length (facets_of parts.now) }
    ensures links { IfOk result (λ ways. ways.links ≡ door_links tile (doors_of (facets_of parts.now))) }
    ensures rim { IfOk result (λ ways. ways.rim ≡ door_rim source.entry.table.now.window source.entry.cells.now source.entry.regions.now (doors_of (facets_of parts.now))) }
{
    let doors = doors(alloc, parts)?;
    let doors = doors.as_slice();
    let links = door_links(alloc, doors, tile, polygons)?;
    let rim = rim(alloc, source, doors)?;
    Ok(DoorLinks { links, rim })
}

/// What the rim lists for doors.
fn rim(alloc: Global, source: RegionRim, doors: &[PortalEdge]) -> Result<Items<RimEdge>, AllocError>
    requires rim { IsRim source }
    requires window { IsFieldWindow source.table.now.window }
    ensures { IfOk result (λ rim. rim ≡ door_rim source.entry.table.now.window source.entry.cells.now source.entry.regions.now doors.now) }
{
    let tables = side_tables(alloc, source.cells, source.regions, source.table, doors)?;
    door_rim(alloc, &source.table.window, &tables, doors)
}

/// The mesh of a tile by the outlines of its regions, or the tile's free cells again.
#[derive(Drop)]
pub enum ContourMesh {
    /// Each region has an outline that can be cut.
    Made(TileMesh),
    /// Some region has no outline, or one that cannot be cut: the free cells as they were handed in, and their strips.
    NotCut { free: FreeLayer, strips: StripTable },
}
