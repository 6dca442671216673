//! The floor of a storey at a point.

ghost use Rattle.std.specs.Prelude.{◌≡◌, ◌<◌, ◌≤◌, ◌+◌, ◌-◌, length};
ghost use Rattle.nav_base.specs.Point.{HasCoordinates};
ghost use Rattle.mesh_types.specs.Storeys.{IsFloorRow, IsStorey};
ghost use Rattle.mesh_place.specs.Floors.{IsFloorToward, is_nearer, height_off, nearer_floor, nearer_of_row, column_in, cell_floor};

use crate::columns::{column_gap, span_under};
use mesh_types::{FloorRow, Storey};
use nav_base::Point;

/// A floor, and the square of how far its cell is from a point.
#[derive(Clone, Copy)]
pub struct NearFloor {
    pub y: u32,
    pub aside: u64,
}

/// A point, and a height toward which a floor is chosen where several cells are equally near.
#[derive(Clone, Copy)]
pub struct Aim {
    pub p: Point,
    pub y: u32,
}

/// Of the cells of a storey nearest to a point the one whose floor is nearest to a height; none where the storey has no cell. Where a cell
/// lies under the point, no other row is looked at.
pub(crate) fn floor_toward(storey: &Storey, aim: Aim) -> Option<NearFloor>
    requires storey { IsStorey storey.now }
    requires point { HasCoordinates aim.p }
    ensures { IsFloorToward storey.now aim 0 (length storey.now.rows) result }
{
    let rows = storey.rows.len();
    let under = span_under(aim.p.z);
    let end = rows.min((under.last as usize + 1).saturating_sub(storey.z0 as usize));
    let first = end.min((under.first as usize).saturating_sub(storey.z0 as usize));
    match floor_in_rows(storey, aim, first, end) {
        Some(floor) if floor.aside == 0 => Some(floor),
        _ => floor_in_rows(storey, aim, 0, rows),
    }
}

/// The same of the rows from one up to before another, by their places from 0.
fn floor_in_rows(storey: &Storey, aim: Aim, first: usize, end: usize) -> Option<NearFloor>
    requires storey { IsStorey storey.now }
    requires point { HasCoordinates aim.p }
    requires order { first ≤ end }
    requires inside { end ≤ length storey.now.rows }
    ensures { IsFloorToward storey.now aim first end result }
{
    let rows = storey.rows.as_slice();
    let mut best = None;
    for row in first..end {
        best = nearer_of_row(&rows[row], storey.z0 + row as u32, aim, best);
    }
    best
}

/// What was found, or a nearer floor of a row: one of its columns nearest to the point, of which there are two where the point lies on
/// their border.
fn nearer_of_row(row: &FloorRow, z: u32, aim: Aim, best: Option<NearFloor>) -> Option<NearFloor>
    requires row { IsFloorRow row.now }
    requires along { z ≤ 1024 }
    requires point { HasCoordinates aim.p }
    ensures { result ≡ nearer_of_row row.now z aim best }
{
    let under = span_under(aim.p.x);
    let left = column_in(row, under.first);
    let right = column_in(row, under.last);
    let nearer = nearer_floor(aim.y, best, cell_floor(row, left, z, aim.p));
    if left == right {
        return nearer;
    }
    nearer_floor(aim.y, nearer, cell_floor(row, right, z, aim.p))
}

/// The column of a row that is nearest to a column.
fn column_in(row: &FloorRow, x: u32) -> u32
    requires row { IsFloorRow row.now }
    ensures value { result ≡ column_in row.now x }
    ensures left { row.now.x0 ≤ result }
    ensures right { result < row.now.x0 + length row.now.floors }
{
    x.min(row.x0 + row.floors.len() as u32 - 1).max(row.x0)
}

/// The floor of a row's column, with how far it is from a point.
fn cell_floor(row: &FloorRow, x: u32, z: u32, p: Point) -> NearFloor
    requires row { IsFloorRow row.now }
    requires left { row.now.x0 ≤ x }
    requires right { x < row.now.x0 + length row.now.floors }
    requires along { z ≤ 1024 }
    requires point { HasCoordinates p }
    ensures { result ≡ cell_floor row.now x z p }
{
    NearFloor {
        y: u32::from(row.floors.as_slice()[(x - row.x0) as usize]),
        aside: column_gap(x, z, p),
    }
}

/// What was found, or a floor that is nearer.
fn nearer_floor(y: u32, best: Option<NearFloor>, floor: NearFloor) -> Option<NearFloor>
    ensures { result ≡ nearer_floor y best floor }
{
    if is_nearer(y, floor, best) {
        Some(floor)
    } else {
        best
    }
}

/// Whether a floor is nearer to the point than what was found, or as near and nearer to a height.
fn is_nearer(y: u32, floor: NearFloor, best: Option<NearFloor>) -> bool
    ensures { result ≡ is_nearer y floor best }
{
    match best {
        None => true,
        Some(best) => {
            floor.aside < best.aside
                || (floor.aside == best.aside && height_off(y, floor.y) < height_off(y, best.y))
        }
    }
}

/// How far two heights are apart.
pub(crate) fn height_off(y: u32, floor: u32) -> u32
    ensures { result ≡ height_off y floor }
{
    floor.saturating_sub(y).max(y.saturating_sub(floor))
}
