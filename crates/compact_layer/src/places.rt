//! Neighbours by place. Columns by number, so that the cells of a field, in order, have columns in order.

ghost use Rattle.std.specs.Prelude.{◌≡◌, ◌<◌, length, slice_index_or, IsTrue, ◌≤◌};
ghost use Rattle.nav_ground.specs.declared.cell.Cell.{Cell};
ghost use Rattle.nav_ground.specs.Cells.{IsCells, IsCompact, is_toward};
ghost use Rattle.nav_ground.specs.Directions.{number};
ghost use Rattle.compact_layer.specs.Places.{IsPlaceOf, HasColumnToward, is_before, neighbour_of};
ghost use Rattle.compact_layer.specs.Columns.{IsPlace, column_of, column_toward};

use crate::compact_field::CompactField;
use nav_ground::{CellRef, Direction, PackedCell};

/// The place of the cell that the cell at a place is connected to in a direction, 0 for x - 1, 1 for z + 1, 2 for x + 1, 3 for z - 1; none
/// where it is connected to none there. The place is that of a cell of the list.
pub fn neighbour(compact: &CompactField, at: CellRef, dir: u32) -> Option<CellRef>
    requires rules { IsCompact compact.now.cells }
    requires there { IsPlaceOf compact.now.cells at }
    requires dir { dir < 4 }
    ensures { result ≡ neighbour_of compact.now.cells at dir }
{
    let toward = Direction::of(dir);
    let cells = compact.cells.as_slice();
    let here = index_of(cells, at);
    let level = cells[here].next(toward)?;
    Some(place_toward(toward, at, level))
}

/// The index of the cell at a place, by halves.
fn index_of(cells: &[PackedCell], at: CellRef) -> usize
    requires rules { IsCells cells.now }
    requires there { IsPlaceOf cells.now at }
    ensures bound { result < length cells.now }
    ensures at { (d : Cell) → (slice_index_or cells.now result d).at ≡ at }
{
    cells.partition_point(|cell| is_before(cell.at(), at))
}

/// Whether a place comes before another, by z, then x, then level.
fn is_before(a: CellRef, b: CellRef) -> bool
    ensures { result ≡ is_before a b }
{
    a.z < b.z || a.z == b.z && (a.x < b.x || a.x == b.x && a.level < b.level)
}

/// The place of a level in the neighbouring column in a direction.
fn place_toward(dir: Direction, at: CellRef, level: u32) -> CellRef
    requires { HasColumnToward (number dir) at }
    ensures toward { IsTrue (is_toward (number dir) at result) }
    ensures level { result.level ≡ level }
{
    match dir {
        Direction::Left => CellRef {
            x: at.x - 1,
            z: at.z,
            level,
        },
        Direction::Above => CellRef {
            x: at.x,
            z: at.z + 1,
            level,
        },
        Direction::Right => CellRef {
            x: at.x + 1,
            z: at.z,
            level,
        },
        Direction::Below => CellRef {
            x: at.x,
            z: at.z - 1,
            level,
        },
    }
}

/// The number of a place's column.
pub fn column_of(at: CellRef) -> u32
    requires { IsPlace at }
    ensures value { result ≡ column_of at }
    ensures least { 2048 ≤ result }
    ensures most { result < 2099200 }
{
    (at.z + 1) * 2048 + at.x
}

/// The number of the neighbouring column in a direction.
pub fn column_toward(dir: Direction, at: CellRef) -> u32
    requires { IsPlace at }
    ensures { result ≡ column_toward (number dir) at }
{
    let column = column_of(at);
    match dir {
        Direction::Left => column - 1,
        Direction::Above => column + 2048,
        Direction::Right => column + 1,
        Direction::Below => column - 2048,
    }
}
