//! The places of taken cells, and which neighbours are among them.

ghost use Rattle.std.specs.Prelude.{◌≡◌, ℕ, ◌<◌, ◌≤◌, All, Bool, IfOk, IsTrue, List, map, length, slice_index_or, vec_len};
ghost use Rattle.nav_ground.specs.declared.cell.Cell.{Cell};
ghost use Rattle.nav_ground.specs.declared.cell.CellRef.{CellRef};
ghost use Rattle.nav_ground.specs.declared.shape.Shape.{Shape};
ghost use Rattle.nav_ground.specs.Directions.{number};
ghost use Rattle.obstacle_mark.specs.AreasLeft.{area_left};
ghost use Rattle.cell_table.specs.Columns.{IsPlace, column_of, column_toward};
ghost use Rattle.obstacle_mark.specs.Columns.{ArePlaces, IsPassed, LiesApart};
ghost use Rattle.obstacle_mark.specs.Places.{places_taken, level_kept, ArePassed};

use cell_table::{column_of, column_toward};
use nav_ground::{CellRef, Direction, PackedCell};
use std::alloc::{AllocError, Global};

/// How many of the taken places lie in columns before the neighbouring ones of a cell, direction by direction. As cells are gone
/// through in order these numbers only rise, so all of them together pass each taken place once a direction. Cells in columns before
/// `clear_before` have no taken place in the columns beside theirs.
#[derive(Clone, Copy)]
pub struct PassedPlaces {
    pub left: usize,
    pub above: usize,
    pub right: usize,
    pub below: usize,
    pub clear_before: u64,
}

/// The places of the cells that are left without an area, in order.
pub fn blocked_places(
    alloc: Global,
    cells: &[PackedCell],
    areas: &[Option<u32>],
) -> Result<Vec<CellRef>, AllocError>
    requires { length areas.now ≡ length cells.now }
    ensures few { IfOk result (λ places. vec_len places ≤ length cells.now) }
    ensures places { (taken : Cell → Bool) (shapes : List Shape) → areas.now ≡ map (area_left taken shapes) cells.now
        → IfOk result (λ places. places.items ≡ places_taken taken cells.now) }
{
    let mut places = Vec::new(alloc);
    for (i, cell) in cells.iter().enumerate() {
        if areas[i].is_none() {
            places.push(cell.at())?;
        }
    }
    Ok(places)
}

/// The levels that a cell names in the four directions, without those neighbours that are among the taken places.
pub fn next_kept(
    blocked: &[CellRef],
    passed: &mut PassedPlaces,
    cell: &PackedCell,
) -> [Option<u32>; 4]
    requires cell { IsPlace cell.now.at }
    requires blocked { ArePlaces blocked.now }
    requires passed { ArePassed blocked.now passed.old cell.now.at }
    ensures next { result ≡ Rattle.obstacle_mark.specs.Places.next_kept blocked.now cell.now }
    ensures passed { ArePassed blocked.now passed.new cell.now.at }
{
    [
        level_kept(blocked, &mut passed.left, cell, Direction::Left),
        level_kept(blocked, &mut passed.above, cell, Direction::Above),
        level_kept(blocked, &mut passed.right, cell, Direction::Right),
        level_kept(blocked, &mut passed.below, cell, Direction::Below),
    ]
}

/// The level that a cell names in a direction, unless that neighbour is one of the taken places.
fn level_kept(
    blocked: &[CellRef],
    passed: &mut usize,
    cell: &PackedCell,
    dir: Direction,
) -> Option<u32>
    requires cell { IsPlace cell.now.at }
    requires blocked { ArePlaces blocked.now }
    requires passed { IsPassed blocked.now passed.old (column_toward (number dir) cell.now.at) }
    ensures level { result ≡ level_kept blocked.now cell.now (number dir) }
    ensures passed { IsPassed blocked.now passed.new (column_toward (number dir) cell.now.at) }
{
    let column = column_toward(dir, cell.at());
    *passed = pass(blocked, *passed, column);
    let level = cell.next(dir)?;
    if is_there(blocked, *passed, column, level) {
        None
    } else {
        Some(level)
    }
}

/// Whether no taken place lies in one of the columns beside a cell's. The places are passed only where that is not known yet.
pub fn is_clear(blocked: &[CellRef], passed: &mut PassedPlaces, at: CellRef) -> bool
    requires at { IsPlace at }
    requires blocked { ArePlaces blocked.now }
    requires passed { ArePassed blocked.now passed.old at }
    ensures clear { IsTrue result → All (LiesApart (column_of at)) blocked.now }
    ensures passed { ArePassed blocked.now passed.new at }
{
    let column = column_of(at);
    if column < passed.clear_before {
        return true;
    }
    pass_beside(blocked, passed, at);
    column < passed.clear_before
}

/// Passes the taken places in columns before those beside a cell's, and finds the next column that has one beside it.
fn pass_beside(blocked: &[CellRef], passed: &mut PassedPlaces, at: CellRef)
    requires at { IsPlace at }
    requires blocked { ArePlaces blocked.now }
    requires passed { ArePassed blocked.now passed.old at }
    ensures { ArePassed blocked.now passed.new at }
{
    let column = column_of(at);
    let left = pass(blocked, passed.left, column - 1);
    let above = pass(blocked, passed.above, column + 2048);
    let right = pass(blocked, passed.right, column + 1);
    let below = pass(blocked, passed.below, column - 2048);
    let before_row = (column_at(blocked, above) - 2048).min(column_at(blocked, right) - 1);
    let after_row = (column_at(blocked, left) + 1).min(column_at(blocked, below) + 2048);
    *passed = PassedPlaces {
        left,
        above,
        right,
        below,
        clear_before: before_row.min(after_row),
    };
}

/// A number above those of all columns.
const NO_COLUMN: u64 = 4_294_967_296;

/// The column of one of the places, or a number above all columns where there are no more.
fn column_at(places: &[CellRef], i: usize) -> u64
    requires { ArePlaces places.now }
    ensures least { 2048 ≤ result }
    ensures most { result ≤ 4294967296 }
    ensures later { (k : ℕ) (d : CellRef) → i ≤ k → k < length places.now → result ≤ column_of (slice_index_or places.now k d) }
{
    match places.get(i) {
        Some(at) => column_of(*at),
        None => NO_COLUMN,
    }
}

/// How many of the places lie in columns before one, where so many are known to do.
pub fn pass(places: &[CellRef], known: usize, column: u64) -> usize
    requires places { ArePlaces places.now }
    requires known { IsPassed places.now known column }
    ensures passed { IsPassed places.now result column }
    ensures next { (d : CellRef) → result < length places.now → column ≤ column_of (slice_index_or places.now result d) }
{
    let mut passed = known;
    while passed < places.len() && column_of(places[passed]) < column {
        passed += 1;
    }
    passed
}

/// Whether one of the places has a column and a level, where the first of that column or of a later one is known.
pub fn is_there(places: &[CellRef], first: usize, column: u64, level: u32) -> bool
    requires places { ArePlaces places.now }
    requires passed { IsPassed places.now first column }
    requires next { (d : CellRef) → first < length places.now → column ≤ column_of (slice_index_or places.now first d) }
    ensures { result ≡ Rattle.obstacle_mark.specs.Places.is_there column level places.now }
{
    let mut i = first;
    while i < places.len() && column_of(places[i]) == column {
        if level == places[i].level {
            return true;
        }
        i += 1;
    }
    false
}
