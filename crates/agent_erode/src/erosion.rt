//! The kept cells of a field.

ghost use Rattle.std.specs.Prelude.{◌≡◌, Bool, IfOk, map, filter, length};
ghost use Rattle.nav_ground.specs.declared.cell.Cell.{Cell};
ghost use Rattle.nav_ground.specs.Cells.{IsCells, IsCompact};
ghost use Rattle.nav_ground.specs.Clearance.{is_kept, kept_cells, marked, places_of, cells_in};

use crate::reach::marks;
use crate::windows::{cells_near, is_near};
use compact_layer::CompactField;
use nav_ground::{CellRef, PackedCell, Window};
use std::alloc::{AllocError, Global};

/// For each cell of a field, in order, whether it is kept for a radius in cells: whether no walk from a boundary cell to it is cheaper
/// than twice the radius.
pub fn kept_marks(alloc: Global, cells: &[PackedCell], radius: u32) -> Result<Vec<bool>, AllocError>
    requires { IsCompact cells.now }
    ensures { IfOk result (λ marks. marks.items ≡ map (is_kept cells.now radius) cells.now) }
{
    marks(alloc, cells, radius)
}

/// The places of the cells of a field that are kept for a radius in cells, in order.
pub fn erode(alloc: Global, compact: &CompactField, radius: u32) -> Result<Vec<CellRef>, AllocError>
    requires { IsCompact compact.now.cells }
    ensures { IfOk result (λ kept. kept.items ≡ places_of (kept_cells compact.now.cells radius)) }
{
    let cells = compact.cells.as_slice();
    let marks = marks(alloc, cells, radius)?;
    places_marked(alloc, cells, marks.as_slice())
}

/// The places of the cells that are marked, in order.
fn places_marked(
    alloc: Global,
    cells: &[PackedCell],
    marks: &[bool],
) -> Result<Vec<CellRef>, AllocError>
    requires { length marks.now ≡ length cells.now }
    ensures { IfOk result (λ places. (p : Cell → Bool) → marks.now ≡ map p cells.now → places.items ≡ places_of (filter p cells.now)) }
{
    let mut places = Vec::new(alloc);
    for (i, cell) in cells.iter().enumerate() {
        if marks[i] {
            places.push(cell.at())?;
        }
    }
    Ok(places)
}

/// The places of those kept cells whose columns lie in a window, in order. Only the cells of the window and of `radius` columns on each
/// side of it are looked at: no walk cheaper than twice the radius comes from further away.
pub fn erode_window(
    alloc: Global,
    compact: &CompactField,
    window: Window,
    radius: u32,
) -> Result<Vec<CellRef>, AllocError>
    requires { IsCompact compact.now.cells }
    ensures { IfOk result (λ kept. kept.items ≡ places_of (cells_in window (kept_cells compact.now.cells radius))) }
{
    let near = cells_near(alloc, compact.cells.as_slice(), window, radius)?;
    let cells = near.as_slice();
    let marks = marks(alloc, cells, radius)?;
    places_within(alloc, cells, marks.as_slice(), window)
}

/// The places of those cells of a list that are open, keep a radius in cells among the open ones, and lie in a window, in order. A cell is
/// open where the truth value beside it is true; a boundary cell has fewer than four connections to open cells of the list. Connections may
/// lead out of the list, and need not be named back.
pub fn kept(
    alloc: Global,
    wide: &[PackedCell],
    uncovered: &[bool],
    window: Window,
    radius: u32,
) -> Result<Vec<CellRef>, AllocError>
    requires cells { IsCells wide.now }
    requires beside { length uncovered.now ≡ length wide.now }
    ensures { IfOk result (λ kept. kept.items ≡ places_of (cells_in window (kept_cells (marked wide.now uncovered.now) radius))) }
{
    let chosen = open_cells(alloc, wide, uncovered)?;
    let cells = chosen.as_slice();
    let marks = marks(alloc, cells, radius)?;
    places_within(alloc, cells, marks.as_slice(), window)
}

/// The cells beside which a truth value is true, in order.
fn open_cells(
    alloc: Global,
    cells: &[PackedCell],
    uncovered: &[bool],
) -> Result<Vec<PackedCell>, AllocError>
    requires { length uncovered.now ≡ length cells.now }
    ensures { IfOk result (λ chosen. chosen.items ≡ marked cells.now uncovered.now) }
{
    let mut chosen = Vec::new(alloc);
    for (i, cell) in cells.iter().enumerate() {
        if uncovered[i] {
            chosen.push(*cell)?;
        }
    }
    Ok(chosen)
}

/// The places of the cells that are marked and lie in a window, in order.
fn places_within(
    alloc: Global,
    cells: &[PackedCell],
    marks: &[bool],
    window: Window,
) -> Result<Vec<CellRef>, AllocError>
    requires { length marks.now ≡ length cells.now }
    ensures { IfOk result (λ places. (p : Cell → Bool) → marks.now ≡ map p cells.now → places.items ≡ places_of (cells_in window (filter p cells.now))) }
{
    let mut places = Vec::new(alloc);
    for (i, cell) in cells.iter().enumerate() {
        let place = cell.at();
        if marks[i] && is_near(window, 0, place) {
            places.push(place)?;
        }
    }
    Ok(places)
}
