//! The areas that cells are left with under obstacles, obstacle by obstacle.

ghost use Rattle.std.specs.Prelude.{◌≡◌, ℕ, ◌<◌, ◌≤◌, ◌≤ℤ◌, pos, true, false, IfOk, All, List, [], map, length, slice_index_or, None, Option};
ghost use Rattle.nav_ground.specs.declared.cell.Cell.{Cell};
ghost use Rattle.nav_ground.specs.Limits.{IsShape};
ghost use Rattle.nav_ground.specs.Cells.{IsCells};
ghost use Rattle.nav_ground.specs.Shapes.{Covers};
ghost use Rattle.nav_ground.specs.FreeCells.{is_blocked};
ghost use Rattle.obstacle_mark.specs.AreasLeft.{area_left};
ghost use Rattle.obstacle_mark.specs.Columns.{IsInRow};

use nav_ground::{CellRef, PackedCell, Shape, bounds, covers, sets};
use std::alloc::{AllocError, Global};

/// The area that each cell is left with under the obstacles; none where one of them blocks it.
pub fn areas_left(
    alloc: Global,
    cells: &[PackedCell],
    shapes: &[Shape],
) -> Result<Vec<Option<u32>>, AllocError>
    requires cells { IsCells cells.now }
    requires shapes { All IsShape shapes.now }
    ensures { IfOk result (λ areas. areas.items ≡ map (area_left (is_blocked shapes.now) shapes.now) cells.now) }
{
    let mut areas = own_areas(alloc, cells)?;
    for shape in shapes {
        cover(cells, areas.as_mut_slice(), shape);
    }
    Ok(areas)
}

/// The area that each cell has by itself.
fn own_areas(alloc: Global, cells: &[PackedCell]) -> Result<Vec<Option<u32>>, AllocError>
    ensures { IfOk result (λ areas. areas.items ≡ map (area_left (is_blocked []) []) cells.now) }
{
    let mut areas = Vec::with_capacity(alloc, cells.len())?;
    for cell in cells {
        areas.push(Some(cell.area()))?;
    }
    Ok(areas)
}

/// Takes one more obstacle into the areas that cells are left with. Only the cells in the columns that it can reach are looked at.
fn cover(cells: &[PackedCell], areas: &mut [Option<u32>], shape: &Shape)
    requires cells { IsCells cells.now }
    requires shape { IsShape shape.now }
    requires beside { length areas.old ≡ length cells.now }
    ensures { (k : ℕ) (d : Cell) → k < length cells.now → slice_index_or areas.new k None
        ≡ Rattle.obstacle_mark.specs.AreasLeft.area_after shape.now (slice_index_or cells.now k d) (slice_index_or areas.old k None) }
{
    let reach = reach_of(shape);
    let first = reach.first_z.max(first_row(cells));
    let end = reach.end_z.min(end_row(cells));
    for z in first..end {
        cover_row(cells, areas, shape, reach, z);
    }
}

/// Takes one more obstacle into the areas of the cells in one row of the columns that it can reach; the row is given by its z.
fn cover_row(
    cells: &[PackedCell],
    areas: &mut [Option<u32>],
    shape: &Shape,
    reach: ColumnRect,
    z: u32,
)
    requires cells { IsCells cells.now }
    requires shape { IsShape shape.now }
    requires beside { length areas.old ≡ length cells.now }
    ensures inside { (k : ℕ) (d : Cell) → k < length cells.now → IsInRow reach.first_x reach.end_x z (slice_index_or cells.now k d).at
        → slice_index_or areas.new k None
        ≡ Rattle.obstacle_mark.specs.AreasLeft.area_after shape.now (slice_index_or cells.now k d) (slice_index_or areas.old k None) }
    ensures outside { (k : ℕ) (d : Cell) → k < length cells.now
        → (IsInRow reach.first_x reach.end_x z (slice_index_or cells.now k d).at → ⊥)
        → slice_index_or areas.new k None ≡ slice_index_or areas.old k None }
{
    let mut i = cells_before(cells, reach.first_x, z);
    while i < cells.len() && is_before(cells[i].at(), reach.end_x, z) {
        areas[i] = area_after(shape, &cells[i], areas[i]);
        i += 1;
    }
}

/// What a cell is left with once one more obstacle comes.
fn area_after(shape: &Shape, cell: &PackedCell, before: Option<u32>) -> Option<u32>
    requires { IsShape shape.now }
    ensures { result ≡ Rattle.obstacle_mark.specs.AreasLeft.area_after shape.now cell.now before }
{
    let area = before?;
    let at = cell.at();
    if covers(shape, at.x, at.z, cell.floor()) {
        sets(shape)
    } else {
        Some(area)
    }
}

/// A rectangle of columns: x from `first_x` on, before `end_x`, and z from `first_z` on, before `end_z`.
#[derive(Clone, Copy)]
struct ColumnRect {
    first_x: u32,
    end_x: u32,
    first_z: u32,
    end_z: u32,
}

/// The columns that an obstacle can reach.
fn reach_of(shape: &Shape) -> ColumnRect
    requires { IsShape shape.now }
    ensures x { (x z floor : ℕ) → Covers shape.now x z floor → (result.first_x ≤ x) × (x < result.end_x) }
    ensures z { (x z floor : ℕ) → Covers shape.now x z floor → (result.first_z ≤ z) × (z < result.end_z) }
{
    let window = bounds(shape);
    ColumnRect {
        first_x: or_zero(window.x0),
        end_x: or_zero(window.x1) + 1,
        first_z: or_zero(window.z0),
        end_z: or_zero(window.z1) + 1,
    }
}

/// A number, or 0 where it is below 0.
fn or_zero(number: i32) -> u32
    ensures small { result < 2147483648 }
    ensures least { (n : ℕ) → number ≤ℤ pos n → result ≤ n }
    ensures most { (n : ℕ) → pos n ≤ℤ number → n ≤ result }
{
    number.max(0) as u32
}

/// The z of the first row that has cells; 0 where there are none.
fn first_row(cells: &[PackedCell]) -> u32
    requires { IsCells cells.now }
    ensures { (k : ℕ) (d : Cell) → k < length cells.now → result ≤ (slice_index_or cells.now k d).at.z }
{
    match cells.first() {
        Some(cell) => cell.at().z,
        None => 0,
    }
}

/// The z after that of the last row that has cells; 0 where there are none.
fn end_row(cells: &[PackedCell]) -> u32
    requires { IsCells cells.now }
    ensures { (k : ℕ) (d : Cell) → k < length cells.now → (slice_index_or cells.now k d).at.z < result }
{
    match cells.last() {
        Some(cell) => cell.at().z + 1,
        None => 0,
    }
}

/// How many of the cells come before a column.
fn cells_before(cells: &[PackedCell], x: u32, z: u32) -> usize
    requires { IsCells cells.now }
    ensures most { result ≤ length cells.now }
    ensures before { (k : ℕ) (d : Cell) → k < result
        → Rattle.obstacle_mark.specs.Columns.is_before x z (slice_index_or cells.now k d).at ≡ true }
    ensures after { (k : ℕ) (d : Cell) → result ≤ k → k < length cells.now
        → Rattle.obstacle_mark.specs.Columns.is_before x z (slice_index_or cells.now k d).at ≡ false }
{
    cells.partition_point(|cell| is_before(cell.at(), x, z))
}

/// Whether a place comes before a column, in the order of cells.
fn is_before(at: CellRef, x: u32, z: u32) -> bool
    ensures { result ≡ Rattle.obstacle_mark.specs.Columns.is_before x z at }
{
    at.z < z || (at.z == z && at.x < x)
}
