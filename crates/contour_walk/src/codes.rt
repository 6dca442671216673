//! The edges of cells with their codes. The tables of a tile from which the codes of edges are read.

ghost use Rattle.std.specs.Prelude.{◌≡◌, ◌+◌, ◌%◌, ◌<◌, ◌≤◌, IfOk, length, slice_index_or};
ghost use Rattle.nav_ground.specs.Limits.{IsSetting};
ghost use Rattle.nav_ground.specs.Cells.{IsCell, IsCells};
ghost use Rattle.nav_ground.specs.Directions.{number};
ghost use Rattle.nav_ground.specs.Tiling.{tile_count, tile_window};
ghost use Rattle.nav_ground.specs.declared.cell.Cell.{Cell};
ghost use Rattle.nav_ground.specs.declared.cell.CellRef.{CellRef};
ghost use Rattle.mesh_types.specs.StripPolygons.{corner};
ghost use Rattle.mesh_types.specs.Crossings.{is_crossing};
ghost use Rattle.mesh_types.specs.Regions.{AreRegionsOf};
ghost use Rattle.mesh_types.specs.Contours.{cell_in, edge_of, code_beyond, region_beyond};
ghost use Rattle.cell_table.specs.Table.{neighbour_table};
ghost use Rattle.contour_walk.specs.Tables.{index_of, IsRim, IsTableOf};

use crate::owners::owners;
use cell_table::neighbour_table;
use mesh_types::{Code, Regions, UnitEdge};
use nav_base::Point;
use nav_ground::{CellRef, Direction, FreeLayer, PackedCell, Setting, Window, tile_bounds};
use nav_lists::Items;
use std::alloc::{AllocError, Global};

/// The tables of a tile's free cells and regions.
pub fn region_table(
    alloc: Global,
    free: &FreeLayer,
    setting: &Setting,
    regions: &Regions,
) -> Result<RegionTable, AllocError>
    requires setting { IsSetting setting.now }
    requires tile { free.now.tile < tile_count setting.now }
    requires cells { IsCells free.now.cells }
    requires regions { AreRegionsOf free.now.cells regions.now }
    ensures window { IfOk result (λ table. table.window ≡ tile_window setting.now free.now.tile) }
    ensures tables { IfOk result (λ table. IsTableOf free.now.cells regions.now.regions table) }
{
    let neighbours = neighbour_table(alloc, free.cells.as_slice())?;
    region_table_over(alloc, free, setting, regions, Items::from_vec(neighbours))
}

/// What `region_table` does, where the cells' neighbour table is at hand.
pub fn region_table_over(
    alloc: Global,
    free: &FreeLayer,
    setting: &Setting,
    regions: &Regions,
    neighbours: Items<[u32; 4]>,
) -> Result<RegionTable, AllocError>
    requires setting { IsSetting setting.now }
    requires tile { free.now.tile < tile_count setting.now }
    requires cells { IsCells free.now.cells }
    requires regions { AreRegionsOf free.now.cells regions.now }
    requires neighbours { neighbours ≡ neighbour_table free.now.cells }
    ensures window { IfOk result (λ table. table.window ≡ tile_window setting.now free.now.tile) }
    ensures tables { IfOk result (λ table. IsTableOf free.now.cells regions.now.regions table) }
{
    let owners = owners(
        alloc,
        free.cells.as_slice(),
        neighbours.as_slice(),
        regions.regions.as_slice(),
    )?;
    Ok(RegionTable {
        window: tile_bounds(setting, free.tile),
        neighbours,
        owners: Items::from_vec(owners),
    })
}

/// The edge toward a direction of the cell at a place, by the index of that cell.
pub fn edge(rim: RegionRim, index: usize, at: CellRef, dir: Direction) -> UnitEdge
    requires rim { IsRim rim }
    requires index { index ≡ index_of rim.cells.now at }
    requires x { at.x < 1024 }
    requires z { at.z < 1024 }
    ensures { result ≡ edge_of rim.entry.table.now.window rim.entry.cells.now rim.entry.regions.now (number dir) at }
{
    UnitEdge {
        from: beginning(dir, at),
        to: beginning(before(dir), at),
        code: code(rim, index, dir),
    }
}

/// The direction a quarter turn back: that of the edge which begins where the edge toward a direction ends.
fn before(dir: Direction) -> Direction
    ensures { number result ≡ (number dir + 3) % 4 }
{
    match dir {
        Direction::Left => Direction::Below,
        Direction::Above => Direction::Left,
        Direction::Right => Direction::Above,
        Direction::Below => Direction::Right,
    }
}

/// The corner at which the edge of a place toward a direction begins.
fn beginning(dir: Direction, at: CellRef) -> Point
    requires x { at.x < 1024 }
    requires z { at.z < 1024 }
    ensures { result ≡ Rattle.mesh_types.specs.Contours.edge_beginning (number dir) at }
{
    match dir {
        Direction::Left => corner(at.x, at.z + 1),
        Direction::Above => corner(at.x + 1, at.z + 1),
        Direction::Right => corner(at.x + 1, at.z),
        Direction::Below => corner(at.x, at.z),
    }
}

/// A corner in whole cells.
fn corner(x: u32, z: u32) -> Point
    requires x { x ≤ 1024 }
    requires z { z ≤ 1024 }
    ensures { result ≡ corner x z }
{
    Point {
        x: x as i32,
        z: z as i32,
    }
}

/// The code of the edge toward a direction of the cell at a place, by the index of that cell; a wall where there is none.
fn code(rim: RegionRim, index: usize, dir: Direction) -> Code
    requires rim { IsRim rim }
    ensures { (at : CellRef) → index ≡ index_of rim.entry.cells.now at → result ≡ code_beyond rim.entry.table.now.window rim.entry.cells.now rim.entry.regions.now (number dir) (cell_in rim.entry.cells.now at) }
{
    let cells = rim.cells;
    if index < cells.len() {
        code_of(rim, index, dir)
    } else {
        Code::Wall
    }
}

/// The code of the edge toward a direction of the cell with an index.
fn code_of(rim: RegionRim, index: usize, dir: Direction) -> Code
    requires rim { IsRim rim }
    requires index { index < length rim.cells.now }
    ensures { (d : Cell) → result ≡ code_beyond rim.entry.table.now.window rim.entry.cells.now rim.entry.regions.now (number dir) (slice_index_or rim.entry.cells.now index d) }
{
    if is_crossing(&rim.table.window, dir, &rim.cells[index]) {
        return Code::Side(dir.index() as u32);
    }
    match region_beyond(rim, index, dir) {
        Some(region) => Code::Region(region),
        None => Code::Wall,
    }
}

/// The number of the region of the free cell that a cell names in a direction.
fn region_beyond(rim: RegionRim, index: usize, dir: Direction) -> Option<u32>
    requires rim { IsRim rim }
    requires index { index < length rim.cells.now }
    ensures { (d : Cell) → result ≡ region_beyond rim.entry.cells.now rim.entry.regions.now (number dir) (slice_index_or rim.entry.cells.now index d) }
{
    let cells = rim.cells;
    let next = rim.table.neighbours.as_slice()[index][dir.index()] as usize;
    if next >= cells.len() {
        return None;
    }
    let owner = rim.table.owners.as_slice()[next];
    if (owner as usize) < rim.regions.regions.len() {
        Some(owner)
    } else {
        None
    }
}

/// Whether a cell has a kept neighbour across the side of the tile in a direction.
pub fn is_crossing(window: &Window, dir: Direction, cell: &PackedCell) -> bool
    requires { IsCell cell.now }
    ensures { result ≡ is_crossing window.now (number dir) cell.now }
{
    is_at_side(window, dir, cell.at()) && cell.next(dir).is_some()
}

/// Whether the neighbouring column of a place in a direction lies outside the tile.
fn is_at_side(window: &Window, dir: Direction, at: CellRef) -> bool
    requires x { at.x < 1024 }
    requires z { at.z < 1024 }
    ensures { result ≡ Rattle.mesh_types.specs.Crossings.is_at_side window.now (number dir) at }
{
    match dir {
        Direction::Left => at.x as i32 <= window.x0,
        Direction::Above => window.z1 <= at.z as i32,
        Direction::Right => window.x1 <= at.x as i32,
        Direction::Below => at.z as i32 <= window.z0,
    }
}

/// What lies beyond each edge of each cell of a tile, for its regions.
#[derive(Drop)]
pub struct RegionTable {
    /// The columns of the tile.
    pub window: Window,
    /// For each cell the indices of the cells that it names in the four directions, or the number of cells.
    pub neighbours: Items<[u32; 4]>,
    /// For each cell the number of its region, or the number of regions.
    pub owners: Items<u32>,
}

/// What the edges of a tile's regions are read from: its free cells, its regions, and the tables over both.
#[derive(Clone, Copy)]
pub struct RegionRim<'a> {
    /// By z, then x, then level.
    pub cells: &'a [PackedCell],
    /// The regions of those cells.
    pub regions: &'a Regions,
    /// The tables of those cells and regions.
    pub table: &'a RegionTable,
}
