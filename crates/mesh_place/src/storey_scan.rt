//! The places of a polygon, row by row of its storey and cell by cell, within a reach.

ghost use Rattle.std.specs.Prelude.{◌≡◌, ◌<◌, ◌≤◌, ◌+◌, ◌-◌, get_or, IfSome, Some, length, slice_get};
ghost use Rattle.mesh_types.specs.Places.{storey_at};
ghost use Rattle.mesh_types.specs.Soundness.{IsSound};
ghost use Rattle.mesh_types.specs.Storeys.{IsFloorRow, IsStorey};
ghost use Rattle.mesh_place.specs.Nearest.{CanAskNear};
ghost use Rattle.mesh_place.specs.Searches.{IsFound, IsFoundNear, IsSearch, IsMeasurable, IsPart, IsRowLimit, IsRowOf, IsInRow, around_of, cells_touched};

use crate::cells::{NearCell, RowLimit, in_near_cell};
use crate::columns::{ColumnRange, columns_around, columns_touched, out_along, rows_around};
use crate::near::{Near, measure_or_most};
use mesh_types::{Extent, FloorRow, Mesh, MeshPlace, PolyRef, Polygon, Storey};

/// What is sought within a reach, in sixteenths of a cell, that is no greater than the one asked for.
#[derive(Clone, Copy)]
pub struct NearSearch {
    pub asked: Near,
    pub reach: u32,
    pub around: Around,
}

/// The columns and the rows within reach, or those that a box touches.
#[derive(Clone, Copy)]
pub struct Around {
    pub columns: ColumnRange,
    pub rows: ColumnRange,
}

/// A polygon, by its reference and as it is, with the columns and the rows that its box touches: no other cell has a point that it holds.
#[derive(Clone, Copy)]
pub struct PolygonPart {
    pub at: PolyRef,
    pub polygon: Polygon,
    pub touched: Around,
}

/// The search for what is asked within a reach.
pub(crate) fn search_within(asked: &Near, reach: u32) -> NearSearch
    requires asked { CanAskNear asked.now }
    requires reach { reach ≤ asked.now.reach }
    ensures search { IsSearch result }
    ensures asked { result.asked ≡ asked.now }
    ensures reach { result.reach ≡ reach }
{
    NearSearch {
        asked: *asked,
        reach,
        around: places_around(asked, reach),
    }
}

/// The columns and the rows within a reach.
fn places_around(asked: &Near, reach: u32) -> Around
    requires asked { CanAskNear asked.now }
    requires reach { reach ≤ asked.now.reach }
    ensures { result ≡ around_of asked.now.point reach }
{
    Around {
        columns: columns_around(asked.point, reach),
        rows: rows_around(asked.point, reach),
    }
}

/// The columns and the rows that a box of whole cells touches.
pub(crate) fn cells_touched(extent: Extent) -> Around
    ensures { result ≡ cells_touched extent }
{
    Around {
        columns: columns_touched(extent.low.x, extent.high.x),
        rows: columns_touched(extent.low.z, extent.high.z),
    }
}

/// What was found, or a nearer place of a polygon, over a cell of its storey.
pub(crate) fn in_storey(
    mesh: &Mesh,
    part: &PolygonPart,
    storey: &Storey,
    search: &NearSearch,
    best: Option<MeshPlace>,
) -> Option<MeshPlace>
    requires sound { IsSound mesh.now }
    requires part { IsPart mesh.now search.now.asked part.now }
    requires home { storey_at mesh.now part.now.at ≡ Some storey.now }
    requires storey { IsStorey storey.now }
    requires search { IsSearch search.now }
    requires best { IsFound mesh.now search.now.asked best }
    ensures { IsFoundNear mesh.now search.now best result (λ place. place.polygon ≡ part.now.at) }
{
    let last = search.around.rows.last.min(part.touched.rows.last);
    let end = (storey.z0 + storey.rows.len() as u32).min(last + 1);
    let least = search.around.rows.first.max(part.touched.rows.first);
    let first = storey.z0.max(least).min(end);
    let mut nearest = best;
    for z in first..end {
        nearest = in_row(mesh, part, row_at(storey, z), z, search, nearest);
    }
    nearest
}

/// What was found, or a nearer place of a polygon, over a cell of a row of its storey.
fn in_row(
    mesh: &Mesh,
    part: &PolygonPart,
    row: &FloorRow,
    z: u32,
    search: &NearSearch,
    best: Option<MeshPlace>,
) -> Option<MeshPlace>
    requires sound { IsSound mesh.now }
    requires part { IsPart mesh.now search.now.asked part.now }
    requires row { IsRowOf mesh.now part.now.at row.now z }
    requires inside { z < 1024 }
    requires rules { IsFloorRow row.now }
    requires search { IsSearch search.now }
    requires best { IsFound mesh.now search.now.asked best }
    ensures { IsFoundNear mesh.now search.now best result (IsInRow row.now part.now.at z (row.now.x0 + length row.now.floors)) }
{
    let last = search.around.columns.last.min(part.touched.columns.last);
    let end = (row.x0 + row.floors.len() as u32).min(last + 1);
    let least = search.around.columns.first.max(part.touched.columns.first);
    let first = row.x0.max(least).min(end);
    let limit = row_limit(mesh.setting.agent.climb, &search.asked, z, best);
    let mut nearest = best;
    for x in first..end {
        let y = floor_of(row, x);
        nearest = in_near_cell(mesh, part, NearCell { x, z, y }, search, &limit, nearest);
    }
    nearest
}

/// What the cells of a row are measured against, where so much was found before it.
fn row_limit(climb: u32, asked: &Near, z: u32, best: Option<MeshPlace>) -> RowLimit
    requires asked { CanAskNear asked.now }
    requires along { z < 1024 }
    requires best { IfSome best (IsMeasurable asked.now) }
    ensures limit { IsRowLimit climb asked.now z result }
    ensures earlier { result.earlier ≡ best }
{
    let aside = out_along(z, asked.point);
    RowLimit {
        earlier: best,
        most: measure_or_most(climb, asked, best),
        aside: aside * aside,
    }
}

/// The floor of a row's column.
fn floor_of(row: &FloorRow, x: u32) -> u32
    requires left { row.now.x0 ≤ x }
    requires right { x < row.now.x0 + length row.now.floors }
    ensures { result ≡ get_or row.now.floors (x - row.now.x0) 0 }
{
    u32::from(row.floors.as_slice()[(x - row.x0) as usize])
}

/// The row of a storey at a place.
fn row_at(storey: &Storey, z: u32) -> &FloorRow
    requires storey { IsStorey storey.now }
    requires above { storey.now.z0 ≤ z }
    requires below { z < storey.now.z0 + length storey.now.rows }
    ensures value { slice_get storey.now.rows (z - storey.now.z0) ≡ Some result.now }
    ensures rules { IsFloorRow result.now }
{
    &storey.rows.as_slice()[(z - storey.z0) as usize]
}
