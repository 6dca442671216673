//! The neighbour table of a list of cells. The neighbour table of cells that name each other. Columns by number, so that cells in order
//! have columns in order.

ghost use Rattle.std.specs.Prelude.{◌≡◌, ◌<◌, ◌≤◌, ℕ, true, false, IfOk, length, slice_index_or};
ghost use Rattle.nav_ground.specs.declared.cell.Cell.{Cell};
ghost use Rattle.nav_ground.specs.Cells.{IsCell, IsCells, IsCut};
ghost use Rattle.nav_ground.specs.Directions.{number};
ghost use Rattle.cell_table.specs.Columns.{is_before, column_of};
ghost use Rattle.cell_table.specs.Table.{index_of, neighbour_table, indices_named};
ghost use Rattle.cell_table.specs.Mutual.{row_back, named_back};

use nav_ground::{CellRef, Direction, PackedCell};
use std::alloc::{AllocError, Global};

/// Where the cells that are named are looked for first, direction by direction: one place after the one that was found last. As cells are
/// gone through in order, mostly so are those that they name.
#[derive(Clone, Copy)]
struct NeighbourCursors {
    left: usize,
    above: usize,
    right: usize,
    below: usize,
}

/// For each cell the indices of the cells that it names in the four directions; the number of cells stands where it names none of the
/// list.
pub fn neighbour_table(alloc: Global, cells: &[PackedCell]) -> Result<Vec<[u32; 4]>, AllocError>
    requires { IsCells cells.now }
    ensures { IfOk result (λ table. table.items ≡ neighbour_table cells.now) }
{
    let mut guesses = NeighbourCursors {
        left: 0,
        above: 0,
        right: 0,
        below: 0,
    };
    let mut table = Vec::with_capacity(alloc, cells.len())?;
    for cell in cells {
        table.push(indices_named(cells, &mut guesses, cell))?;
    }
    Ok(table)
}

/// The indices of the cells that a cell names in the four directions.
fn indices_named(
    cells: &[PackedCell],
    guesses: &mut NeighbourCursors,
    cell: &PackedCell,
) -> [u32; 4]
    requires cells { IsCells cells.now }
    requires cell { IsCell cell.now }
    ensures { result ≡ indices_named cells.now cell.now }
{
    let at = cell.at();
    [
        index_named(cells, &mut guesses.left, cell, at, Direction::Left),
        index_named(cells, &mut guesses.above, cell, at, Direction::Above),
        index_named(cells, &mut guesses.right, cell, at, Direction::Right),
        index_named(cells, &mut guesses.below, cell, at, Direction::Below),
    ]
}

/// The index of the cell that a cell names in a direction, or the number of cells.
#[inline(always)]
pub fn index_named(
    cells: &[PackedCell],
    guess: &mut usize,
    cell: &PackedCell,
    at: CellRef,
    dir: Direction,
) -> u32
    requires cells { IsCells cells.now }
    requires cell { IsCell cell.now }
    requires at { at ≡ cell.now.at }
    ensures { result ≡ Rattle.cell_table.specs.Table.index_named cells.now cell.now (number dir) }
{
    match cell.next(dir) {
        Some(level) => index_of(cells, guess, column_toward(dir, at), level),
        None => cells.len() as u32,
    }
}

/// The index of the cell with a column and a level, or the number of cells where none has them. It is looked for at a guess first.
#[inline(always)]
fn index_of(cells: &[PackedCell], guess: &mut usize, column: u64, level: u32) -> u32
    requires { IsCells cells.now }
    ensures { result ≡ index_of cells.now column level }
{
    let index = *guess;
    if index < cells.len() && is_at(column, level, cells[index].at()) {
        *guess = index + 1;
        index as u32
    } else {
        index_beside(cells, guess, column, level)
    }
}

/// The same for a cell that is not where it was looked for, but mostly near.
#[inline(never)]
fn index_beside(cells: &[PackedCell], guess: &mut usize, column: u64, level: u32) -> u32
    requires { IsCells cells.now }
    ensures { result ≡ index_of cells.now column level }
{
    let least = cells_before(cells, *guess, column, level);
    if least < cells.len() && is_at(column, level, cells[least].at()) {
        *guess = least + 1;
        least as u32
    } else {
        *guess = least;
        cells.len() as u32
    }
}

/// How many cells come before a column and a level, from a guess up and then down.
fn cells_before(cells: &[PackedCell], guess: usize, column: u64, level: u32) -> usize
    requires { IsCells cells.now }
    ensures most { result ≤ length cells.now }
    ensures before { (k : ℕ) (d : Cell) → k < result → is_before column level (slice_index_or cells.now k d).at ≡ true }
    ensures after { (k : ℕ) (d : Cell) → result ≤ k → k < length cells.now → is_before column level (slice_index_or cells.now k d).at ≡ false }
{
    let mut least = pass(cells, guess.min(cells.len()), column, level);
    while least > 0 && !is_before(column, level, cells[least - 1].at()) {
        least -= 1;
    }
    least
}

/// The first place from one on where no cell stands that comes before a column and a level.
fn pass(cells: &[PackedCell], from: usize, column: u64, level: u32) -> usize
    requires { from ≤ length cells.now }
    ensures most { result ≤ length cells.now }
    ensures next { (d : Cell) → result < length cells.now → is_before column level (slice_index_or cells.now result d).at ≡ false }
{
    let mut passed = from;
    while passed < cells.len() && is_before(column, level, cells[passed].at()) {
        passed += 1;
    }
    passed
}

/// Where the cells that are named are looked for first, as in `NeighbourCursors`.
#[derive(Clone, Copy)]
struct Behind {
    left: usize,
    below: usize,
}

/// What `neighbour_table` gives, of cells of which each that is named by another names it back: so each connection is looked for once, from
/// the later of its two cells, and stands in the rows of both.
pub fn mutual_table(alloc: Global, cells: &[PackedCell]) -> Result<Vec<[u32; 4]>, AllocError>
    requires { IsCut cells.now }
    ensures { IfOk result (λ table. table.items ≡ neighbour_table cells.now) }
{
    let mut behind = Behind { left: 0, below: 0 };
    let mut table = Vec::with_capacity(alloc, cells.len())?;
    for i in 0..cells.len() {
        let row = row_behind(cells, &mut behind, i);
        table.push(row)?;
        name_back(&mut table, row[0], Direction::Right, i as u32);
        name_back(&mut table, row[3], Direction::Above, i as u32);
    }
    Ok(table)
}

/// The row of a cell as far as it names cells before it: toward x - 1 and z - 1.
fn row_behind(cells: &[PackedCell], behind: &mut Behind, i: usize) -> [u32; 4]
    requires cells { IsCells cells.now }
    requires there { i < length cells.now }
    ensures { (d : Cell) → result ≡ row_back cells.now (slice_index_or cells.now i d) }
{
    let none = cells.len() as u32;
    let cell = &cells[i];
    let at = cell.at();
    [
        index_named(cells, &mut behind.left, cell, at, Direction::Left),
        none,
        none,
        index_named(cells, &mut behind.below, cell, at, Direction::Below),
    ]
}

/// Writes into the row of a cell, if there is one, that it names another in a direction.
#[inline(always)]
fn name_back(table: &mut Vec<[u32; 4]>, of: u32, dir: Direction, named: u32)
    ensures { table.new.items ≡ named_back table.old.items of (number dir) named }
{
    if (of as usize) < table.len() {
        table[of as usize][dir.index()] = named;
    }
}

/// The number of a place's column. A row of columns has 2048 numbers and the first begins at 2048, so that the columns beside the
/// largest field have numbers of their own.
pub fn column_of(at: CellRef) -> u64
    ensures value { result ≡ column_of at }
    ensures least { 2048 ≤ result }
{
    (u64::from(at.z) + 1) * 2048 + u64::from(at.x)
}

/// The number of the neighbouring column in a direction.
pub fn column_toward(dir: Direction, at: CellRef) -> u64
    ensures { result ≡ Rattle.cell_table.specs.Columns.column_toward (number dir) at }
{
    let column = column_of(at);
    match dir {
        Direction::Left => column - 1,
        Direction::Above => column + 2048,
        Direction::Right => column + 1,
        Direction::Below => column - 2048,
    }
}

/// Whether a place has a column and a level.
pub fn is_at(column: u64, level: u32, at: CellRef) -> bool
    ensures { result ≡ Rattle.cell_table.specs.Columns.is_at column level at }
{
    column_of(at) == column && level == at.level
}

/// Whether a place comes before that of a column and a level.
pub fn is_before(column: u64, level: u32, at: CellRef) -> bool
    ensures { result ≡ Rattle.cell_table.specs.Columns.is_before column level at }
{
    let own = column_of(at);
    own < column || (own == column && at.level < level)
}
