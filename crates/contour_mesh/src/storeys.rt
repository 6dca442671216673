//! The storeys of a tile's regions: the floors of their cells, row by row.

ghost use Rattle.std.specs.Prelude.{◌≡◌, ◌≤◌, ◌++◌, IfOk, OnOk, All, Any, length, map, replicate, ℕ};
ghost use Rattle.nav_ground.specs.Cells.{IsCells};
ghost use Rattle.nav_ground.specs.declared.cell.Cell.{Cell};
ghost use Rattle.mesh_types.specs.Regions.{AreRegionsOf, IsIn, IsStack, IsWoven, place_in, regions_of};
ghost use Rattle.mesh_types.specs.Facets.{Facet, facets_of};
ghost use Rattle.mesh_types.specs.ContourMeshes.{part_storeys};
ghost use Rattle.mesh_types.specs.Storeys.{region_storey, row_of};
ghost use Rattle.contour_walk.specs.Tables.{IsFit, IsRim};

use contour_walk::{RegionRim, index_of, left_end_over, next, place_in};
use mesh_types::{FloorRow, Region, RegionPart, Storey, Storeys, Strip};
use nav_ground::{Direction, PackedCell};
use nav_lists::Items;
use std::alloc::{AllocError, Global};

/// The storeys of a tile: one for each region, in order, which is that of each polygon of the region's part.
pub fn storeys(
    alloc: Global,
    source: RegionRim,
    parts: &[RegionPart],
) -> Result<Storeys, AllocError>
    requires rim { IsRim source }
    requires regions { AreRegionsOf source.cells.now source.regions.now }
    requires all { source.regions.now ≡ regions_of source.cells.now }
    requires few { length parts.now ≤ 2000000 }
    ensures { IfOk result (λ storeys. storeys ≡ part_storeys source.entry.cells.now source.entry.regions.now parts.now) }
{
    let homes = homes(alloc, parts)?;
    let list = storey_list(alloc, source)?;
    Storeys::new(alloc, homes, list)
}

/// For each polygon of parts the number of its region.
fn homes(alloc: Global, parts: &[RegionPart]) -> Result<Items<u32>, AllocError>
    requires { length parts.now ≤ 2000000 }
    ensures { IfOk result (λ homes. homes ≡ map (λ (facet : Facet). facet.region) (facets_of parts.now)) }
{
    let mut homes = Vec::new(alloc);
    for region in 0..parts.len() {
        push_times(&mut homes, region as u32, parts[region].pieces.len())?;
    }
    Ok(Items::from_vec(homes))
}

/// Appends a number so many times.
fn push_times(numbers: &mut Vec<u32>, number: u32, count: usize) -> Result<(), AllocError>
    ensures { OnOk result (numbers.new.items ≡ numbers.old.items ++ replicate count number) }
{
    for _time in 0..count {
        numbers.push(number)?;
    }
    Ok(())
}

/// The storey of each region, in order.
fn storey_list(alloc: Global, source: RegionRim) -> Result<Items<Storey>, AllocError>
    requires rim { IsRim source }
    requires regions { AreRegionsOf source.cells.now source.regions.now }
    ensures { IfOk result (λ list. list ≡ map (region_storey source.entry.cells.now) source.entry.regions.now.regions) }
{
    let table = source.table.neighbours.as_slice();
    let regions = source.regions.regions.as_slice();
    let mut list = Vec::with_capacity(alloc, regions.len())?;
    for region in regions {
        list.push(region_storey(alloc, source.cells, table, region)?)?;
    }
    Ok(Items::from_vec(list))
}

/// The storey of a region. Along the neighbour table the first cell of the next row is mostly found at once.
fn region_storey(
    alloc: Global,
    cells: &[PackedCell],
    table: &[[u32; 4]],
    region: &Region,
) -> Result<Storey, AllocError>
    requires cells { IsCells cells.now }
    requires stack { IsStack region.now }
    requires woven { IsWoven cells.now region.now }
    requires fit { All IsFit region.now.strips }
    ensures { IfOk result (λ storey. storey ≡ region_storey cells.now region.now) }
{
    let strips = region.strips.as_slice();
    let lowest = &strips[0];
    let mut rows = Vec::with_capacity(alloc, strips.len())?;
    let mut first = 0;
    let mut from = lowest.x0;
    for k in 0..strips.len() {
        let strip = &strips[k];
        let guess = left_end_over(table, first, Direction::Above, from, strip.x0);
        first = index_of(cells, guess, place_in(strip, strip.x0));
        from = strip.x0;
        rows.push(floor_row(alloc, cells, table, strip, first)?)?;
    }
    Ok(Storey {
        area: lowest.area,
        z0: lowest.z,
        rows: Items::from_vec(rows),
    })
}

/// The row of a strip. The first cell is looked for at a guess first, each other along the table.
fn floor_row(
    alloc: Global,
    cells: &[PackedCell],
    table: &[[u32; 4]],
    strip: &Strip,
    first: usize,
) -> Result<FloorRow, AllocError>
    requires cells { IsCells cells.now }
    requires strip { IsFit strip.now }
    requires there { (x : ℕ) → IsIn strip.now x → Any (λ (cell : Cell). cell.at ≡ place_in strip.now x) cells.now }
    ensures { IfOk result (λ row. row ≡ row_of cells.now strip.now) }
{
    let mut floors = Vec::with_capacity(alloc, strip.levels.len())?;
    let mut guess = first;
    for x in strip.x0..strip.x1 + 1 {
        let index = index_of(cells, guess, place_in(strip, x));
        floors.push(cells[index].floor() as u16)?;
        guess = next(table, index, Direction::Right);
    }
    Ok(FloorRow {
        x0: strip.x0,
        floors: Items::from_vec(floors),
    })
}
