//! The sweep that connects the cells of a field. Steps between cells of neighbouring columns.

ghost use Rattle.std.specs.Prelude.{◌≡◌, ◌+◌, ◌<◌, ◌≤◌, map, length, slice_index_or, false};
ghost use Rattle.nav_ground.specs.declared.cell.Cell.{Cell};
ghost use Rattle.nav_ground.specs.Limits.{IsAgent};
ghost use Rattle.nav_ground.specs.Directions.{number};
ghost use Rattle.nav_ground.specs.Connection.{level_toward, connected_cell, is_connected};
ghost use Rattle.compact_layer.specs.Columns.{column_of, column_toward};
ghost use Rattle.compact_layer.specs.Stacks.{IsStanding, AreStacked, IsPassed, ArePassed, is_passed, next_levels};

use crate::places::{column_of, column_toward};
use nav_ground::{Agent, Cell, Direction, PackedCell};

/// How many cells are passed in each direction: those that come before the one that the cell at hand may be connected to. As cells are
/// gone through in order these numbers only rise, so all of them together pass each cell once a direction.
#[derive(Clone, Copy)]
pub struct PassedColumns {
    pub left: usize,
    pub above: usize,
    pub right: usize,
    pub below: usize,
}

/// Connects the cells of a field with one another, in place.
pub fn connect(cells: &mut [PackedCell], agent: &Agent)
    requires cells { AreStacked cells.old }
    requires agent { IsAgent agent.now }
    ensures { cells.new ≡ map (connected_cell agent.now cells.old) cells.old }
{
    let mut passed = PassedColumns {
        left: 0,
        above: 0,
        right: 0,
        below: 0,
    };
    for i in 0..cells.len() {
        let cell = cells[i].get();
        let next = next_levels(cells, &mut passed, &cell, agent);
        cells[i] = PackedCell::new(&Cell { next, ..cell });
    }
}

/// The levels of the cells that a cell is connected to in the four directions.
fn next_levels(
    cells: &[PackedCell],
    passed: &mut PassedColumns,
    cell: &Cell,
    agent: &Agent,
) -> [Option<u32>; 4]
    requires cells { AreStacked cells.now }
    requires passed { ArePassed cells.now agent.now.height passed.old cell.now }
    requires cell { IsStanding cell.now }
    requires agent { IsAgent agent.now }
    ensures next { result ≡ next_levels agent.now cells.now cell.now }
    ensures passed { ArePassed cells.now agent.now.height passed.new cell.now }
{
    [
        level_toward(cells, &mut passed.left, cell, Direction::Left, agent),
        level_toward(cells, &mut passed.above, cell, Direction::Above, agent),
        level_toward(cells, &mut passed.right, cell, Direction::Right, agent),
        level_toward(cells, &mut passed.below, cell, Direction::Below, agent),
    ]
}

/// The level of the cell that a cell is connected to in a direction. Only the lowest cell of that column with room for the agent over
/// the own floor can be it: each cell above it has its floor over that one's ceiling, which is more than a step up.
fn level_toward(
    cells: &[PackedCell],
    passed: &mut usize,
    cell: &Cell,
    dir: Direction,
    agent: &Agent,
) -> Option<u32>
    requires cells { AreStacked cells.now }
    requires passed { IsPassed cells.now passed.old (Rattle.compact_layer.specs.Columns.column_toward (number dir) cell.now.at) (cell.now.floor + agent.now.height) }
    requires cell { IsStanding cell.now }
    requires agent { IsAgent agent.now }
    ensures level { result ≡ level_toward agent.now cells.now cell.now (number dir) }
    ensures passed { IsPassed cells.now passed.new (Rattle.compact_layer.specs.Columns.column_toward (number dir) cell.now.at) (cell.now.floor + agent.now.height) }
{
    let column = column_toward(dir, cell.at);
    *passed = pass(cells, *passed, column, cell.floor + agent.height);
    let other = cells.get(*passed)?;
    if column_of(other.at()) == column && is_connected(agent, cell, other) {
        Some(other.at().level)
    } else {
        None
    }
}

/// How many cells come before the first of a column with its ceiling at a height or above it, where so many are known to do.
fn pass(cells: &[PackedCell], known: usize, column: u32, height: u32) -> usize
    requires cells { AreStacked cells.now }
    requires known { IsPassed cells.now known column height }
    ensures passed { IsPassed cells.now result column height }
    ensures next { (d : Cell) → result < length cells.now → is_passed column height (slice_index_or cells.now result d) ≡ false }
{
    let mut passed = known;
    while passed < cells.len() && is_passed(&cells[passed], column, height) {
        passed += 1;
    }
    passed
}

/// Whether a cell lies in a column before one, or in that column with its ceiling below a height.
fn is_passed(cell: &PackedCell, column: u32, height: u32) -> bool
    requires { IsStanding cell.now }
    ensures { result ≡ is_passed column height cell.now }
{
    let own = column_of(cell.at());
    own < column || own == column && cell.ceiling() < height
}

/// Whether an agent can step between two cells of neighbouring columns: its height fits between the greater floor and the lesser
/// ceiling, and the floors differ by at most its climb. That is Recast's test for the neighbours of a compact height field.
pub fn is_connected(agent: &Agent, a: &Cell, b: &PackedCell) -> bool
    requires agent { IsAgent agent.now }
    requires a { IsStanding a.now }
    requires b { IsStanding b.now }
    ensures { result ≡ is_connected agent.now a.now b.now }
{
    let floor = b.floor();
    let fits = a.floor.max(floor) + agent.height <= a.ceiling.min(b.ceiling());
    fits && a.floor <= floor + agent.climb && floor <= a.floor + agent.climb
}
