//! Runs of a list of cells: lists whose parts stand in a longer one, so that no cell is stored twice. The wide cells of a layer.

ghost use Rattle.std.specs.Prelude.{◌≡◌, ◌↔◌, ◌∷◌, [], ◌≤◌, All, IfOk, IfSome, IsTrue, length};
ghost use Rattle.nav_ground.specs.CellRuns.{IsRunOf, IsFirst, HasPassed, cells_of_run, cells_of_runs, cells_behind, list_under};

use crate::packed::PackedCell;
use nav_lists::{Duplicate, Items, Shared};
use std::alloc::{AllocError, Global};
use std::marker::Model;

/// The cells of a list from one index up to another.
#[derive(Clone, Copy)]
pub struct CellRun {
    /// The index of the first.
    pub from: u32,
    /// The index behind the last.
    pub to: u32,
}

/// A place among runs: what is left of the run at hand, and how many runs are begun.
#[derive(Clone, Copy)]
pub(crate) struct RunCursor {
    pub(crate) left: CellRun,
    pub(crate) begun: usize,
}

/// The cells of some runs of a list, one run after the other, in a list of their own. Only memory can be refused.
pub fn gathered(
    alloc: Global,
    cells: &[PackedCell],
    runs: &[CellRun],
) -> Result<Vec<PackedCell>, AllocError>
    requires { All (IsRunOf cells.now) runs.now }
    ensures { IfOk result (λ gathered. gathered.items ≡ cells_of_runs cells.now runs.now) }
{
    let mut gathered = Vec::with_capacity(alloc, room(runs))?;
    for run in runs {
        gathered.extend_from_slice(run_cells(cells, *run))?;
    }
    Ok(gathered)
}

/// How many cells some runs have.
fn room(runs: &[CellRun]) -> usize {
    let mut room: usize = 0;
    for run in runs {
        room = room.saturating_add(run.to.saturating_sub(run.from) as usize);
    }
    room
}

/// The cells of a run.
fn run_cells(cells: &[PackedCell], run: CellRun) -> &[PackedCell]
    requires { IsRunOf cells.now run }
    ensures { result.now ≡ cells_of_run cells.now run }
{
    &cells[run.from as usize..run.to as usize]
}

/// Whether some runs of a list have the same cells, in order, as some runs of another list.
pub(crate) fn are_same_runs(
    cells: &[PackedCell],
    runs: &[CellRun],
    others: &[PackedCell],
    other_runs: &[CellRun],
) -> bool
    requires runs { All (IsRunOf cells.now) runs.now }
    requires other_runs { All (IsRunOf others.now) other_runs.now }
    ensures { IsTrue result ↔ (cells_of_runs cells.now runs.now ≡ cells_of_runs others.now other_runs.now) }
{
    let mut spot = RunCursor {
        left: CellRun { from: 0, to: 0 },
        begun: 0,
    };
    for run in runs {
        match passed(others, other_runs, spot, run_cells(cells, *run)) {
            Some(behind) => spot = behind,
            None => return false,
        }
    }
    is_end(others, other_runs, spot)
}

/// The place behind some cells that come next; none where it is not they that do.
fn passed(
    cells: &[PackedCell],
    runs: &[CellRun],
    spot: RunCursor,
    next: &[PackedCell],
) -> Option<RunCursor>
    requires runs { All (IsRunOf cells.now) runs.now }
    requires left { IsRunOf cells.now spot.left }
    ensures left { IfSome result (λ behind. IsRunOf cells.now behind.left) }
    ensures passed { HasPassed cells.now runs.now (cells_behind cells.now runs.now spot) next.now result }
{
    let mut here = spot;
    for cell in next {
        match passed_one(cells, runs, here, cell) {
            Some(behind) => here = behind,
            None => return None,
        }
    }
    Some(here)
}

/// The place behind a cell that comes next; none where it is not that one that does.
fn passed_one(
    cells: &[PackedCell],
    runs: &[CellRun],
    spot: RunCursor,
    next: &PackedCell,
) -> Option<RunCursor>
    requires runs { All (IsRunOf cells.now) runs.now }
    requires left { IsRunOf cells.now spot.left }
    ensures left { IfSome result (λ behind. IsRunOf cells.now behind.left) }
    ensures passed { HasPassed cells.now runs.now (cells_behind cells.now runs.now spot) (next.now ∷ []) result }
{
    let here = at_cell(cells, runs, spot);
    if is_first(cells, here.left, next) {
        Some(RunCursor {
            left: CellRun {
                from: here.left.from + 1,
                to: here.left.to,
            },
            begun: here.begun,
        })
    } else {
        None
    }
}

/// Whether a run begins with a cell.
fn is_first(cells: &[PackedCell], run: CellRun, first: &PackedCell) -> bool
    requires { IsRunOf cells.now run }
    ensures { IsTrue result ↔ IsFirst cells.now run first.now }
{
    run.from < run.to && cells[run.from as usize].is(first)
}

/// Whether no cells are behind a place.
fn is_end(cells: &[PackedCell], runs: &[CellRun], spot: RunCursor) -> bool
    requires runs { All (IsRunOf cells.now) runs.now }
    requires left { IsRunOf cells.now spot.left }
    ensures { IsTrue result ↔ (cells_behind cells.now runs.now spot ≡ []) }
{
    let here = at_cell(cells, runs, spot);
    here.left.from >= here.left.to
}

/// The same place at a run of which a cell is left; where no cell is left at all, a place at the end.
fn at_cell(cells: &[PackedCell], runs: &[CellRun], spot: RunCursor) -> RunCursor
    requires runs { All (IsRunOf cells.now) runs.now }
    requires left { IsRunOf cells.now spot.left }
    ensures left { IsRunOf cells.now result.left }
    ensures same { cells_behind cells.now runs.now result ≡ cells_behind cells.now runs.now spot }
    ensures end { result.left.to ≤ result.left.from → length runs.now ≤ result.begun }
{
    let _ = cells;
    let mut left = spot.left;
    let mut begun = spot.begun;
    while left.from >= left.to && begun < runs.len() {
        left = runs[begun];
        begun += 1;
    }
    RunCursor { left, begun }
}

/// A list of cells, seen by contracts as that list, which has memory of its own for the runs alone of which it is made: their cells stand in
/// a shared list, in a ground in one for the wide cells of all its layers.
#[derive(Drop)]
pub struct PaddedCells {
    cells: Option<Shared<Items<PackedCell>>>,
    runs: Vec<CellRun>,
}

impl Model for PaddedCells {
    ghost use Rattle.std.specs.Prelude.{List, All};
    ghost use Rattle.nav_ground.specs.declared.cell.Cell.{Cell};

    ghost Value = { List Cell };

    ghost use Rattle.nav_ground.specs.CellRuns.{IsRunOf, cells_of_runs, list_under};

    ghost view = { λ a. cells_of_runs (list_under a.cells) a.runs.items };

    ghost invariant = { λ a. All (IsRunOf (list_under a.cells)) a.runs.items };
}

impl PaddedCells {
    /// No cells; it takes no memory.
    pub fn none(alloc: Global) -> PaddedCells
        ensures { result ≡ [] }
    {
        PaddedCells {
            cells: None,
            runs: Vec::new(alloc),
        }
    }

    /// The cells of some runs of a shared list, one run after the other.
    pub fn over(cells: Shared<Items<PackedCell>>, runs: Vec<CellRun>) -> PaddedCells
        requires { All (IsRunOf cells) runs.items }
        ensures { result ≡ cells_of_runs cells runs.items }
    {
        PaddedCells {
            cells: Some(cells),
            runs,
        }
    }

    /// The cells, in order, in a list of their own. Only memory can be refused.
    pub fn all(&self, alloc: Global) -> Result<Vec<PackedCell>, AllocError>
        ensures { IfOk result (λ cells. cells.items ≡ self.now) }
    {
        gathered(alloc, under(&self.cells), self.runs.as_slice())
    }

    /// Whether the cells are those of another list, in the same order.
    pub fn is(&self, other: &PaddedCells) -> bool
        ensures { IsTrue result ↔ (self.now ≡ other.now) }
    {
        are_same_runs(
            under(&self.cells),
            self.runs.as_slice(),
            under(&other.cells),
            other.runs.as_slice(),
        )
    }
}

impl Duplicate for PaddedCells {
    fn duplicate(&self, alloc: Global) -> Result<Self, AllocError> {
        let cells = match &self.cells {
            Some(cells) => Some(cells.share()?),
            None => None,
        };
        Ok(PaddedCells {
            cells,
            runs: Vec::from_slice(alloc, self.runs.as_slice())?,
        })
    }
}

/// The list in which cells stand; without one there are none.
fn under(cells: &Option<Shared<Items<PackedCell>>>) -> &[PackedCell]
    ensures { result.now ≡ list_under cells.now }
{
    match cells {
        Some(cells) => cells.get().as_slice(),
        None => &[],
    }
}
