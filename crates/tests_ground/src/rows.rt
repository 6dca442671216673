//! Cells that are written as rows.

ghost use Rattle.std.specs.Prelude.{◌≡◌, ◌≤◌, IfOk, map};
ghost use Rattle.nav_ground.specs.Levels.{IsSmallLevel};
ghost use Rattle.nav_ground.specs.SmallCells.{IsSmall};
ghost use Rattle.tests_ground.specs.Rows.{cell_of, named_by, whole_cell_of};

use crate::checks::same;
use nav_ground::{Cell, CellRef, PackedCell};
use nav_lists::{Items, Shared};
use std::alloc::{AllocError, Global};
use std::process::Abort;

/// The x, z and level of a cell, and the levels that it names toward x - 1, z + 1, x + 1 and z - 1, or `NO` where it names none.
pub(crate) type Row = (u16, u16, u16, u8, u8, u8, u8);

/// Stands for a level that is not named: a table of plain numbers is proved far sooner than one of options.
pub(crate) const NO: u8 = 255;

/// A level that is named, or none.
fn named(level: u8) -> Option<u32>
    ensures level { result ≡ named_by level }
    ensures small { IsSmallLevel result }
{
    if level == NO {
        None
    } else {
        Some(level as u32)
    }
}

/// The cells of rows, in order.
pub(crate) fn cells_of(alloc: Global, rows: &[Row]) -> Result<Vec<PackedCell>, AllocError>
    ensures { IfOk result (λ cells. cells.items ≡ map cell_of rows.now) }
{
    let mut cells = Vec::new(alloc);
    for row in rows {
        let (x, z, level, left, above, right, below) = *row;
        let whole = ((x, z, level), (7, 65535, 63), (left, above, right, below));
        cells.push(small_cell(&whole))?;
    }
    Ok(cells)
}

/// The x, z and level of a cell, its floor, ceiling and area, and the levels that it names, or `NO` where it names none.
pub(crate) type CellRow = ((u16, u16, u16), (u16, u16, u8), (u8, u8, u8, u8));

pub(crate) fn place(at: (u16, u16, u16)) -> CellRef
    ensures value { result ≡ record { x = at.0; z = at.1; level = at.2 } }
    ensures x { result.x ≤ 65535 }
    ensures z { result.z ≤ 65535 }
    ensures level { result.level ≤ 65535 }
{
    CellRef {
        x: at.0 as u32,
        z: at.1 as u32,
        level: at.2 as u32,
    }
}

/// The cell of a row.
fn cell(row: &CellRow) -> Cell
    ensures value { result ≡ whole_cell_of row.now }
    ensures small { IsSmall result }
{
    let (at, (floor, ceiling, area), (left, above, right, below)) = *row;
    Cell {
        at: place(at),
        floor: floor as u32,
        ceiling: ceiling as u32,
        area: area as u32,
        next: [named(left), named(above), named(right), named(below)],
    }
}

/// The cell of a row, as lists keep it.
fn small_cell(row: &CellRow) -> PackedCell
    ensures { result ≡ whole_cell_of row.now }
{
    PackedCell::new(&cell(row))
}

/// The cells of whole rows, in order.
pub(crate) fn whole_cells_of(alloc: Global, rows: &[CellRow]) -> Result<Vec<PackedCell>, AllocError>
    ensures { IfOk result (λ cells. cells.items ≡ map whole_cell_of rows.now) }
{
    let mut cells = Vec::new(alloc);
    for row in rows {
        cells.push(small_cell(row))?;
    }
    Ok(cells)
}

/// The cells of whole rows, in order, as a layer keeps them.
pub(crate) fn stored(
    alloc: Global,
    rows: &[CellRow],
) -> Result<Shared<Items<PackedCell>>, AllocError>
    ensures { IfOk result (λ cells. cells ≡ map whole_cell_of rows.now) }
{
    let cells = whole_cells_of(alloc, rows)?;
    Ok(Shared::new(alloc, Items::from_vec(cells))?)
}

/// Cells are just those of rows.
pub(crate) fn check_cells(rt: &impl Abort, cells: &[PackedCell], rows: &[CellRow]) {
    same(rt, cells.len(), rows.len());
    for (found, row) in cells.iter().zip(rows.iter()) {
        same(rt, found.get(), cell(row));
    }
}

/// Whether two lists have the same cells.
pub(crate) fn are_same(a: &[PackedCell], b: &[PackedCell]) -> bool {
    a.len() == b.len() && a.iter().zip(b.iter()).all(|(a, b)| a.get() == b.get())
}
