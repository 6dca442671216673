//! The storeys of strips: each has one row, that of a strip's cells.

ghost use Rattle.std.specs.Prelude.{◌≡◌, IfOk, map};
ghost use Rattle.std.specs.List.{range_with_len};
ghost use Rattle.nav_ground.specs.Cells.{IsCells};
ghost use Rattle.nav_ground.specs.declared.cell.Cell.{Cell};
ghost use Rattle.mesh_types.specs.Storeys.{strip_storey};
ghost use Rattle.mesh_types.specs.StripMeshes.{strip_storeys};
ghost use Rattle.mono_regions.specs.Indices.{cell_at, AreIndices};
ghost use Rattle.strip_mesh.specs.Indexed.{AreIndexed, runs_in};

use crate::tile_strips::TileStrips;
use mesh_types::{FloorRow, Storey, Storeys};
use nav_ground::PackedCell;
use nav_lists::Items;
use std::alloc::{AllocError, Global};

/// The storeys of a tile: one for each strip, in order, which is that of the strip's polygon.
pub fn storeys(alloc: Global, strips: &TileStrips) -> Result<Storeys, AllocError>
    requires { AreIndexed strips.now }
    ensures { IfOk result (λ storeys. storeys ≡ strip_storeys (runs_in strips.now)) }
{
    let homes = homes(alloc, strips.count())?;
    let list = storey_list(alloc, strips)?;
    Storeys::new(alloc, homes, list)
}

/// For each polygon the place of its storey, where each polygon has one of its own.
fn homes(alloc: Global, count: u32) -> Result<Items<u32>, AllocError>
    ensures { IfOk result (λ homes. homes ≡ range_with_len 0 count) }
{
    let mut homes = Vec::with_capacity(alloc, count as usize)?;
    for strip in 0..count {
        homes.push(strip)?;
    }
    Ok(Items::from_vec(homes))
}

/// The storey of each strip, in order.
fn storey_list(alloc: Global, strips: &TileStrips) -> Result<Items<Storey>, AllocError>
    requires { AreIndexed strips.now }
    ensures { IfOk result (λ list. list ≡ map strip_storey (runs_in strips.now)) }
{
    let cells = strips.free.cells.as_slice();
    let count = strips.count();
    let mut list = Vec::with_capacity(alloc, count as usize)?;
    for strip in 0..count {
        list.push(strip_storey(alloc, cells, strips.run(strip))?)?;
    }
    Ok(Items::from_vec(list))
}

/// The storey of cells of one row, by their indices.
fn strip_storey(alloc: Global, cells: &[PackedCell], run: &[u32]) -> Result<Storey, AllocError>
    requires cells { IsCells cells.now }
    requires run { AreIndices cells.now run.now }
    ensures { IfOk result (λ storey. storey ≡ strip_storey (map (cell_at cells.now) run.now)) }
{
    let first = &cells[run[0] as usize];
    let floors = floors(alloc, cells, run)?;
    let mut rows = Vec::with_capacity(alloc, 1)?;
    rows.push(FloorRow {
        x0: first.at().x,
        floors,
    })?;
    Ok(Storey {
        area: first.area(),
        z0: first.at().z,
        rows: Items::from_vec(rows),
    })
}

/// The floors of cells, by their indices.
fn floors(alloc: Global, cells: &[PackedCell], run: &[u32]) -> Result<Items<u16>, AllocError>
    requires cells { IsCells cells.now }
    requires run { AreIndices cells.now run.now }
    ensures { IfOk result (λ floors. floors ≡ map (λ (cell : Cell). cell.floor) (map (cell_at cells.now) run.now)) }
{
    let mut floors = Vec::with_capacity(alloc, run.len())?;
    for at in run {
        floors.push(cells[*at as usize].floor() as u16)?;
    }
    Ok(Items::from_vec(floors))
}
