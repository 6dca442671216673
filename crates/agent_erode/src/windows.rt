//! The cells in a rectangle of columns.

ghost use Rattle.std.specs.Prelude.{◌≡◌, ◌&&◌, ◌+ℤ◌, ◌-ℤ◌, ◌<◌, ◌≤◌, ℕ, true, false, filter, IfOk, int_le, length, pos, All};
ghost use Rattle.std.specs.List.Sorted.{IsPartitionPoint};
ghost use Rattle.nav_ground.specs.declared.cell.Cell.{Cell};
ghost use Rattle.nav_ground.specs.Cells.{IsCells};
ghost use Rattle.nav_ground.specs.CellRuns.{IsRunOf, cells_of_run, cells_of_runs};
ghost use Rattle.nav_ground.specs.Tiling.{is_in_window, widened};
ghost use Rattle.nav_ground.specs.Clearance.{cells_in};
ghost use Rattle.agent_erode.specs.Runs.{is_in_run, IsBetween};

use nav_ground::{CellRef, CellRun, PackedCell, Window, gathered};
use std::alloc::{AllocError, Global};

/// The cells in a rectangle with a margin of so many columns on each side. Of each of its rows only the cells in the rectangle are gone
/// through; where they begin and end is found by halving.
pub fn cells_near(
    alloc: Global,
    cells: &[PackedCell],
    window: Window,
    margin: u32,
) -> Result<Vec<PackedCell>, AllocError>
    requires { IsCells cells.now }
    ensures { IfOk result (λ near. near.items ≡ cells_in (widened window margin) cells.now) }
{
    let runs = runs_near(alloc, cells, window, margin)?;
    gathered(alloc, cells, runs.as_slice())
}

/// Where the cells in a rectangle with a margin of so many columns on each side stand: a run for each of its rows, found by halving.
/// Only memory can be refused.
pub fn runs_near(
    alloc: Global,
    cells: &[PackedCell],
    window: Window,
    margin: u32,
) -> Result<Vec<CellRun>, AllocError>
    requires { IsCells cells.now }
    ensures within { IfOk result (λ runs. All (IsRunOf cells.now) runs.items) }
    ensures near { IfOk result (λ runs. cells_of_runs cells.now runs.items ≡ cells_in (widened window margin) cells.now) }
{
    let rows = rows_of(window, margin);
    let (first, end) = ends_of(window.x0, window.x1, margin);
    let mut runs = Vec::with_capacity(alloc, rows.end.saturating_sub(rows.first) as usize)?;
    for row in rows.first..rows.end {
        runs.push(run_of(cells, row, first, end))?;
    }
    Ok(runs)
}

/// Where the cells of a row from a first column on and before an end stand.
fn run_of(cells: &[PackedCell], row: u32, first: u32, end: u32) -> CellRun
    requires cells { IsCells cells.now }
    requires ends { first ≤ end }
    ensures within { IsRunOf cells.now result }
    ensures cells { cells_of_run cells.now result ≡ filter (is_in_run row first end) cells.now }
{
    CellRun {
        from: cells_before(cells, row, first) as u32,
        to: cells_before(cells, row, end) as u32,
    }
}

/// Rows of columns of a field, those with z from `first` on and before `end`.
#[derive(Clone, Copy)]
pub struct RowWindow {
    pub first: u32,
    pub end: u32,
}

/// The rows that a rectangle with a margin of so many columns on each side has of the largest field.
pub fn rows_of(window: Window, margin: u32) -> RowWindow
    ensures all { (x z : ℕ) → z < 1024 → is_in_window (widened window margin) x z ≡ true → (result.first ≤ z) × (z < result.end) }
    ensures only { (z : ℕ) → result.first ≤ z → z < result.end → IsBetween (window.z0 -ℤ pos margin) z (window.z1 +ℤ pos margin) }
{
    let (first, end) = ends_of(window.z0, window.z1, margin);
    RowWindow { first, end }
}

/// The first of the numbers below 1024 that lie from a least one to a greatest one or past them by a margin at most, and the one behind the last.
fn ends_of(least: i32, most: i32, margin: u32) -> (u32, u32)
    ensures order { result.0 ≤ result.1 }
    ensures all { (n : ℕ) → n < 1024 → IsBetween (least -ℤ pos margin) n (most +ℤ pos margin) → (result.0 ≤ n) × (n < result.1) }
    ensures only { (n : ℕ) → result.0 ≤ n → n < result.1 → IsBetween (least -ℤ pos margin) n (most +ℤ pos margin) }
{
    let margin = i64::from(margin);
    let first = (i64::from(least) - margin).clamp(0, 1024);
    let end = (i64::from(most) + margin + 1).clamp(first, 1024);
    (first as u32, end as u32)
}

/// How many of the cells lie before a column of a row, in that row or in rows before it.
fn cells_before(cells: &[PackedCell], row: u32, x: u32) -> usize
    requires { IsCells cells.now }
    ensures most { result ≤ length cells.now }
    ensures parted { IsPartitionPoint (λ (cell : Cell). Rattle.agent_erode.specs.Runs.is_before_column row x cell.at ≡ true)
        (λ (cell : Cell). Rattle.agent_erode.specs.Runs.is_before_column row x cell.at ≡ false) cells.now result }
{
    cells.partition_point(|cell| is_before_column(cell.at(), row, x))
}

/// Whether a place lies before a column of a row, in that row or in a row before it.
fn is_before_column(at: CellRef, row: u32, x: u32) -> bool
    ensures { result ≡ Rattle.agent_erode.specs.Runs.is_before_column row x at }
{
    at.z < row || (at.z == row && at.x < x)
}

/// Whether a place lies in a rectangle with a margin of so many columns on each side.
pub fn is_near(window: Window, margin: u32, at: CellRef) -> bool
    ensures { result ≡ is_in_window (widened window margin) at.x at.z }
{
    is_between(window.x0, window.x1, margin, at.x) && is_between(window.z0, window.z1, margin, at.z)
}

/// Whether a number lies from a least one to a greatest one, or past them by a margin at most.
fn is_between(least: i32, most: i32, margin: u32, number: u32) -> bool
    ensures { result ≡ (int_le (least -ℤ pos margin) (pos number) && int_le (pos number) (most +ℤ pos margin)) }
{
    let margin = i64::from(margin);
    is_within(
        i64::from(least) - margin,
        i64::from(number),
        i64::from(most) + margin,
    )
}

/// Whether a number is not below a least one and not above a greatest one.
fn is_within(least: i64, number: i64, most: i64) -> bool
    ensures { result ≡ (int_le least number && int_le number most) }
{
    least <= number && number <= most
}
