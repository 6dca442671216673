//! The regions of a tile. The strips of a tile.

ghost use Rattle.std.specs.Prelude.{◌≡◌, ◌<◌, IfOk, length, map};
ghost use Rattle.nav_ground.specs.Cells.{IsCut};
ghost use Rattle.mesh_types.specs.StripPolygons.{strip_runs};
ghost use Rattle.mesh_types.specs.Regions.{numbers, chain_from, region_of, regions_of, AreRegionsOf};
ghost use Rattle.mono_regions.specs.Joining.{IsTableOf, joined_from, touched_from};
ghost use Rattle.mesh_types.specs.Strips.{strips_of};
ghost use Rattle.mono_regions.specs.Indices.{level_at, strip_at, index_runs, AreIndices};

use crate::index::IndexLists;
use crate::joins::{is_unjoined, joined_strips};
use crate::touching::{SeenStrips, StripTable, tabled_strips, touched_strips};
use mesh_types::{Region, Regions, Strip};
use nav_ground::{Direction, FreeLayer, PackedCell};
use nav_lists::Items;
use std::alloc::{AllocError, Global};

/// The regions of a tile's free cells: maximal chains of strips, each joined to one of the next row. A strip joins another where each is the
/// only one that the other touches in its row, every column that both hold has its two cells connected, and the areas are equal. Regions are
/// numbered by their first strips, in order. From Recast's monotone partitioning. Linear in the number of cells.
///
/// Each region is a stack of strips, at most one in a row, and each over a part of the one before. Two cells of a region in neighbouring
/// columns are connected. Each free cell is in exactly one strip of one region. Only memory can be refused.
pub fn regions(alloc: Global, free: &FreeLayer) -> Result<Regions, AllocError>
    requires { IsCut free.now.cells }
    ensures regions { IfOk result (λ regions. regions ≡ regions_of free.now.cells) }
    ensures kept { IfOk result (AreRegionsOf free.now.cells) }
{
    let cells = free.cells.as_slice();
    let strips = tabled_strips(alloc, cells)?;
    regions_over(alloc, cells, &strips)
}

/// What `regions` does, of cells whose strips are at hand.
pub fn regions_over(
    alloc: Global,
    cells: &[PackedCell],
    strips: &StripTable,
) -> Result<Regions, AllocError>
    requires { IsTableOf cells.now strips.now }
    ensures regions { IfOk result (λ regions. regions ≡ regions_of cells.now) }
    ensures kept { IfOk result (AreRegionsOf cells.now) }
{
    let below = touched_strips(alloc, cells, strips, Direction::Below)?;
    let joined = joined_strips(alloc, cells, strips, below.as_slice())?;
    regions_joined(alloc, cells, strips, below.as_slice(), joined.as_slice())
}

/// The regions of strips, from what each touches toward z - 1, and what each joins.
fn regions_joined(
    alloc: Global,
    cells: &[PackedCell],
    strips: &StripTable,
    below: &[SeenStrips],
    joined: &[Option<u32>],
) -> Result<Regions, AllocError>
    requires strips { IsTableOf cells.now strips.now }
    requires below { below.now ≡ map (touched_from cells.now 3) (numbers (strip_runs cells.now)) }
    requires joined { joined.now ≡ map (joined_from (strip_runs cells.now)) (numbers (strip_runs cells.now)) }
    ensures { IfOk result (λ regions. regions ≡ regions_of cells.now) }
{
    let mut regions = Vec::with_capacity(alloc, joined.len())?;
    for first in 0..joined.len() {
        if is_unjoined(joined, below[first], first as u32) {
            regions.push(region(alloc, cells, strips, joined, first as u32)?)?;
        }
    }
    Ok(Regions {
        regions: Items::from_vec(regions),
    })
}

/// The region that begins at a strip, from what each strip joins.
fn region(
    alloc: Global,
    cells: &[PackedCell],
    strips: &StripTable,
    joined: &[Option<u32>],
    first: u32,
) -> Result<Region, AllocError>
    requires strips { IsTableOf cells.now strips.now }
    requires joined { joined.now ≡ map (joined_from (strip_runs cells.now)) (numbers (strip_runs cells.now)) }
    requires there { first < length (strip_runs cells.now) }
    ensures { IfOk result (λ region. region ≡ region_of (strip_runs cells.now) (chain_from (strip_runs cells.now) (length (strip_runs cells.now)) first)) }
{
    let mut chain = Vec::new(alloc);
    let mut next = Some(first);
    while let Some(number) = next {
        chain.push(strip(alloc, cells, strips.index.runs.list(number as usize))?)?;
        next = joined[number as usize];
    }
    Ok(Region {
        strips: Items::from_vec(chain),
    })
}

/// The strips of a tile's free cells: maximal runs of connected cells of one area in one row, by z, then by the first column, then by the
/// level of the first cell.
pub fn strips(alloc: Global, free: &FreeLayer) -> Result<Vec<Strip>, AllocError>
    requires { IsCut free.now.cells }
    ensures { IfOk result (λ strips. strips.items ≡ strips_of free.now.cells) }
{
    let cells = free.cells.as_slice();
    let strips = tabled_strips(alloc, cells)?;
    strips_along(alloc, cells, &strips.index.runs)
}

/// The strips of cells, by the indices of the cells of each.
fn strips_along(
    alloc: Global,
    cells: &[PackedCell],
    runs: &IndexLists,
) -> Result<Vec<Strip>, AllocError>
    requires cells { IsCut cells.now }
    requires runs { runs.now ≡ index_runs cells.now }
    ensures { IfOk result (λ strips. strips.items ≡ strips_of cells.now) }
{
    let mut strips = Vec::with_capacity(alloc, runs.len())?;
    for number in 0..runs.len() {
        strips.push(strip(alloc, cells, runs.list(number))?)?;
    }
    Ok(strips)
}

/// The strip of cells along a row, by their indices.
pub fn strip(alloc: Global, cells: &[PackedCell], run: &[u32]) -> Result<Strip, AllocError>
    requires cells { IsCut cells.now }
    requires run { AreIndices cells.now run.now }
    ensures { IfOk result (λ strip. strip ≡ strip_at cells.now run.now) }
{
    let first = &cells[run[0] as usize];
    let at = first.at();
    Ok(Strip {
        z: at.z,
        x0: at.x,
        x1: at.x + run.len() as u32 - 1,
        levels: levels(alloc, cells, run)?,
        area: first.area(),
    })
}

/// The levels of cells, by their indices.
fn levels(alloc: Global, cells: &[PackedCell], run: &[u32]) -> Result<Items<u32>, AllocError>
    requires { AreIndices cells.now run.now }
    ensures { IfOk result (λ levels. levels ≡ map (level_at cells.now) run.now) }
{
    let mut levels = Vec::with_capacity(alloc, run.len())?;
    for at in run {
        levels.push(cells[*at as usize].at().level)?;
    }
    Ok(Items::from_vec(levels))
}
