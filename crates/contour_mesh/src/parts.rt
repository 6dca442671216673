//! The parts of a tile's regions: their outlines, cut into pieces. What the cells of a region give its polygons. The footings of a tile's
//! regions, in one pass over its cells.

ghost use Rattle.std.specs.Prelude.{◌≡◌, ◌<◌, [], true, None, IfOk, IfSome, All, length, unwrap_or, ℕ, Option, Some, slice_index_or};
ghost use Rattle.mesh_types.specs.Regions.{AreRegionsOf};
ghost use Rattle.mesh_types.specs.Simplified.{IsOutline};
ghost use Rattle.mesh_types.specs.Ears.{ears_of};
ghost use Rattle.mesh_types.specs.Parts.{cut_part, region_part, parts_of};
ghost use Rattle.contour_walk.specs.Tables.{IsRim, IsTableOf};
ghost use Rattle.contour_mesh.specs.Parts.{IsCutPart};
ghost use Rattle.contour_mesh.specs.declared.parts.RegionFloors.{RegionFloors};
ghost use Rattle.contour_mesh.specs.Footings.{AreFootings, footing_with, footing_at};

use contour_simplify::simplify;
use contour_walk::{RegionRim, RegionTable, contour_over};
use ear_cut::{EarRefusal, ears};
use mesh_types::{Outline, Region, RegionPart, Regions, Simplified};
use nav_ground::PackedCell;
use nav_lists::Items;
use poly_merge::merge;
use std::alloc::{AllocError, Global};

/// The parts of a tile's regions, in order, from what the edges of their contours are read from; none where some region has no outline, or one that cannot be cut. Outlines keep to the contours
/// within an error, in hundredths of a squared cell.
pub fn parts(
    alloc: Global,
    source: RegionRim,
    error: u32,
) -> Result<Option<Items<RegionPart>>, AllocError>
    requires rim { IsRim source }
    requires regions { AreRegionsOf source.cells.now source.regions.now }
    ensures value { IfOk result (λ parts. parts ≡ parts_of source.entry.table.now.window error source.entry.cells.now source.entry.regions.now) }
    ensures each { IfOk result (λ parts. IfSome parts (All IsCutPart)) }
{
    let flat = has_small_flat(alloc, source, error)?;
    if flat {
        return Ok(None);
    }
    let mut parts = Vec::new(alloc);
    for id in 0..source.regions.regions.len() as u32 {
        let Some(part) = region_part(alloc, source, error, id)? else {
            return Ok(None);
        };
        parts.push(part)?;
    }
    Ok(Some(Items::from_vec(parts)))
}

/// Whether some region of one or two cells has no outline. Where a region of a tile has none, one of these has none nearly always; so they
/// are looked at before any outline is cut.
fn has_small_flat(alloc: Global, source: RegionRim, error: u32) -> Result<bool, AllocError>
    requires rim { IsRim source }
    requires regions { AreRegionsOf source.cells.now source.regions.now }
    ensures { IfOk result (λ found. found ≡ true → None ≡ parts_of source.entry.table.now.window error source.entry.cells.now source.entry.regions.now) }
{
    for id in 0..source.regions.regions.len() as u32 {
        let found = is_small_flat(alloc, source, error, id)?;
        if found {
            return Ok(true);
        }
    }
    Ok(false)
}

/// Whether the region with a number has one or two cells and no outline.
fn is_small_flat(alloc: Global, source: RegionRim, error: u32, id: u32) -> Result<bool, AllocError>
    requires rim { IsRim source }
    requires regions { AreRegionsOf source.cells.now source.regions.now }
    requires there { id < length source.regions.now.regions }
    ensures { IfOk result (λ found. found ≡ true → None ≡ region_part source.entry.table.now.window error source.entry.cells.now source.entry.regions.now id) }
{
    if !is_small(&source.regions.regions.as_slice()[id as usize]) {
        return Ok(false);
    }
    is_flat(alloc, source, error, id)
}

/// Whether a region has one or two cells.
fn is_small(region: &Region) -> bool {
    match region.strips.as_slice() {
        [strip] => strip.levels.len() <= 2,
        [first, second] => first.levels.len() == 1 && second.levels.len() == 1,
        _ => false,
    }
}

/// Whether the region with a number has no outline.
fn is_flat(alloc: Global, source: RegionRim, error: u32, id: u32) -> Result<bool, AllocError>
    requires rim { IsRim source }
    requires regions { AreRegionsOf source.cells.now source.regions.now }
    requires there { id < length source.regions.now.regions }
    ensures { IfOk result (λ found. found ≡ true → None ≡ region_part source.entry.table.now.window error source.entry.cells.now source.entry.regions.now id) }
{
    let contour = contour_over(alloc, source, id)?;
    match simplify(alloc, contour.as_slice(), error)? {
        Simplified::Flat => Ok(true),
        Simplified::Outline(_) => Ok(false),
    }
}

/// The part of the region with a number; none where it has no outline, or one that cannot be cut.
fn region_part(
    alloc: Global,
    source: RegionRim,
    error: u32,
    id: u32,
) -> Result<Option<RegionPart>, AllocError>
    requires rim { IsRim source }
    requires regions { AreRegionsOf source.cells.now source.regions.now }
    requires there { id < length source.regions.now.regions }
    ensures value { IfOk result (λ part. part ≡ region_part source.entry.table.now.window error source.entry.cells.now source.entry.regions.now id) }
    ensures part { IfOk result (λ part. IfSome part IsCutPart) }
{
    let edges = contour_over(alloc, source, id)?;
    match simplify(alloc, edges.as_slice(), error)? {
        Simplified::Flat => Ok(None),
        Simplified::Outline(outline) => cut_part(alloc, outline),
    }
}

/// An outline and its pieces; none where it cannot be cut.
fn cut_part(alloc: Global, outline: Outline) -> Result<Option<RegionPart>, AllocError>
    requires { IsOutline outline }
    ensures value { IfOk result (λ part. part ≡ cut_part outline (ears_of outline.corners)) }
    ensures part { IfOk result (λ part. IfSome part IsCutPart) }
{
    let triangles = match ears(alloc, &outline) {
        Ok(triangles) => triangles,
        Err(EarRefusal::NoEar { .. }) => return Ok(None),
        Err(EarRefusal::OutOfMemory) => return Err(AllocError),
    };
    let pieces = merge(alloc, &outline, triangles)?;
    Ok(Some(RegionPart { outline, pieces }))
}

/// The area of a region's cells, and the least and the greatest floor of them, in height units.
#[derive(Clone, Copy)]
pub struct RegionFloors {
    pub area: u32,
    pub low: u32,
    pub high: u32,
}

/// For each region the footing of its cells, from the number of the region of each cell.
pub fn footings(
    alloc: Global,
    cells: &[PackedCell],
    regions: &Regions,
    table: &RegionTable,
) -> Result<Vec<Option<RegionFloors>>, AllocError>
    requires { IsTableOf cells.now regions.now.regions table.now }
    ensures { IfOk result (λ footings. AreFootings cells.now regions.now footings.items) }
{
    let owners = table.owners.as_slice();
    let mut footings = vec![in alloc; None; regions.regions.len()]?;
    for index in 0..cells.len() {
        note(footings.as_mut_slice(), owners[index], &cells[index]);
    }
    Ok(footings)
}

/// Takes a cell into the footing with a number, if there is one.
fn note(footings: &mut [Option<RegionFloors>], number: u32, cell: &PackedCell)
    ensures same { length footings.new ≡ length footings.old }
    ensures here { number < length footings.old → slice_index_or footings.new number None ≡ Some (footing_with (slice_index_or footings.old number None) cell.now) }
    ensures others { (k : ℕ) → (k ≡ number → ⊥) → slice_index_or footings.new k None ≡ slice_index_or footings.old k None }
{
    if (number as usize) < footings.len() {
        footings[number as usize] = Some(footing_with(footings[number as usize], cell));
    }
}

/// The footing of the cells so far, if there were any, with one cell more.
fn footing_with(seen: Option<RegionFloors>, cell: &PackedCell) -> RegionFloors
    ensures { result ≡ footing_with seen cell.now }
{
    match seen {
        None => RegionFloors {
            area: cell.area(),
            low: cell.floor(),
            high: cell.floor(),
        },
        Some(seen) => RegionFloors {
            area: seen.area,
            low: seen.low.min(cell.floor()),
            high: seen.high.max(cell.floor()),
        },
    }
}

/// The footing of a region.
pub fn footing_at(footings: &[Option<RegionFloors>], region: usize) -> RegionFloors
    requires { region < length footings.now }
    ensures { result ≡ footing_at footings.now region }
{
    footings[region].unwrap_or(RegionFloors {
        area: 0,
        low: 0,
        high: 0,
    })
}
