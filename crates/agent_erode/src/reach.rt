//! What walks reach, cost by cost. Which cells keep a radius from every boundary cell.

ghost use Rattle.std.specs.Prelude.{◌≡◌, ◌<◌, ◌≤◌, IfOk, OnOk, true, length, replicate, fold, slice_index, ◌+◌, ◌%◌, ◌*◌, map};
ghost use Rattle.cell_table.specs.Table.{neighbour};
ghost use Rattle.agent_erode.specs.Reaching.{Progress, nothing_reached, reached, axis_ends, turn_ends, diagonal_ends, after_axis_steps, after_diagonal_steps, after_round, has_gap, boundary};
ghost use Rattle.nav_ground.specs.Cells.{IsCells};
ghost use Rattle.nav_ground.specs.Clearance.{is_kept};
ghost use Rattle.nav_ground.specs.Directions.{number};
ghost use Rattle.agent_erode.specs.Clearances.{is_beyond};

use cell_table::neighbour_table;
use nav_ground::{Direction, PackedCell};
use std::alloc::{AllocError, Global};
use std::marker::Model;

/// Which cells are still kept, and the indices of the others in the order in which they were reached.
#[derive(Drop)]
pub struct Reached {
    kept: Vec<bool>,
    order: Vec<u32>,
}

impl Model for Reached {
    ghost Value = { Progress };

    ghost view = { λ reached. record { kept = reached.kept.items; order = reached.order.items } };
}

impl Reached {
    /// Nothing reached yet of so many cells.
    pub fn new(alloc: Global, count: usize) -> Result<Self, AllocError>
        ensures { IfOk result (λ reached. reached ≡ nothing_reached count) }
    {
        Ok(Reached {
            kept: all_kept(alloc, count)?,
            order: Vec::with_capacity(alloc, count)?,
        })
    }

    /// How many cells were reached.
    pub fn count(&self) -> usize
        ensures { result ≡ length self.now.order }
    {
        self.order.len()
    }

    /// The index of the cell that was reached after so many others.
    fn at(&self, place: usize) -> u32
        requires { place < length self.now.order }
        ensures { result ≡ slice_index self.now.order place }
    {
        self.order[place]
    }

    /// Which cells are kept.
    pub fn into_kept(self) -> Vec<bool>
        ensures { result.items ≡ self.kept }
    {
        self.kept
    }

    /// Reaches an index: a cell that is still kept is kept no more. An index past the cells changes nothing.
    fn reach(&mut self, to: u32) -> Result<(), AllocError>
        ensures { OnOk result (self.new ≡ reached self.old to) }
    {
        let place = to as usize;
        if place < self.kept.len() && self.kept[place] {
            self.kept[place] = false;
            self.order.push(to)?;
        }
        Ok(())
    }

    /// Reaches the cells with fewer than four neighbours, where walks begin.
    pub fn reach_boundary(&mut self, table: &[[u32; 4]]) -> Result<(), AllocError>
        requires { length table.now ≤ 2000000 }
        ensures { OnOk result (self.new ≡ fold reached self.old (boundary table.now (length table.now))) }
    {
        for i in 0..table.len() {
            if has_gap(table, i as u32) {
                self.reach(i as u32)?;
            }
        }
        Ok(())
    }

    /// Takes the steps that end at a cost: the axis steps from the cells that were reached two costs before, which stand in the order from
    /// `second` to before `first`, and the diagonal steps from those of three costs before, which stand from `third` to before `second`.
    pub fn round(
        &mut self,
        table: &[[u32; 4]],
        third: usize,
        second: usize,
        first: usize,
    ) -> Result<(), AllocError>
        requires third { third ≤ second }
        requires second { second ≤ first }
        requires first { first ≤ length self.old.order }
        ensures { OnOk result (self.new ≡ after_round table.now self.old third second first) }
    {
        self.step_along(table, second, first)?;
        self.step_diagonally(table, third, second)
    }

    /// Takes the axis steps from the cells that were reached from one place in the order to before another.
    fn step_along(&mut self, table: &[[u32; 4]], first: usize, end: usize) -> Result<(), AllocError>
        requires range { first ≤ end }
        requires there { end ≤ length self.old.order }
        ensures reached { OnOk result (self.new ≡ after_axis_steps table.now self.old first end) }
        ensures grows { OnOk result (length self.old.order ≤ length self.new.order) }
    {
        for place in first..end {
            self.axis_steps(table, self.at(place))?;
        }
        Ok(())
    }

    /// Takes the diagonal steps from the cells that were reached from one place in the order to before another.
    fn step_diagonally(
        &mut self,
        table: &[[u32; 4]],
        first: usize,
        end: usize,
    ) -> Result<(), AllocError>
        requires range { first ≤ end }
        requires there { end ≤ length self.old.order }
        ensures { OnOk result (self.new ≡ after_diagonal_steps table.now self.old first end) }
    {
        for place in first..end {
            self.diagonal_steps(table, self.at(place))?;
        }
        Ok(())
    }

    /// Takes the axis steps from a cell: each follows one connection.
    fn axis_steps(&mut self, table: &[[u32; 4]], from: u32) -> Result<(), AllocError>
        ensures { OnOk result (self.new ≡ fold reached self.old (axis_ends table.now from)) }
    {
        self.reach(neighbour(table, from, Direction::Left))?;
        self.reach(neighbour(table, from, Direction::Above))?;
        self.reach(neighbour(table, from, Direction::Right))?;
        self.reach(neighbour(table, from, Direction::Below))
    }

    /// Takes the diagonal steps from a cell: each follows two successive connections in perpendicular directions.
    fn diagonal_steps(&mut self, table: &[[u32; 4]], from: u32) -> Result<(), AllocError>
        ensures { OnOk result (self.new ≡ fold reached self.old (diagonal_ends table.now from)) }
    {
        self.turns(table, from, Direction::Left)?;
        self.turns(table, from, Direction::Above)?;
        self.turns(table, from, Direction::Right)?;
        self.turns(table, from, Direction::Below)
    }

    /// Takes the two diagonal steps from a cell that begin in a direction.
    fn turns(&mut self, table: &[[u32; 4]], from: u32, dir: Direction) -> Result<(), AllocError>
        ensures { OnOk result (self.new ≡ fold reached self.old (turn_ends table.now from (number dir))) }
    {
        let by = neighbour(table, from, dir);
        self.reach(neighbour(table, by, turned(dir)))?;
        self.reach(neighbour(table, by, turned(dir).opposite()))
    }
}

/// The direction a quarter turn from one, clockwise.
fn turned(dir: Direction) -> Direction
    ensures { number result ≡ (number dir + 1) % 4 }
{
    match dir {
        Direction::Left => Direction::Above,
        Direction::Above => Direction::Right,
        Direction::Right => Direction::Below,
        Direction::Below => Direction::Left,
    }
}

/// All of so many cells are kept.
pub fn all_kept(alloc: Global, count: usize) -> Result<Vec<bool>, AllocError>
    ensures { IfOk result (λ kept. kept.items ≡ replicate count true) }
{
    Ok(vec![in alloc; true; count]?)
}

/// The index in a table at a cell and a direction; past the table one that no cell has.
fn neighbour(table: &[[u32; 4]], from: u32, dir: Direction) -> u32
    ensures { result ≡ neighbour table.now from (number dir) }
{
    match table.get(from as usize) {
        Some(next) => next[dir.index()],
        None => u32::MAX,
    }
}

/// Whether a cell has fewer than four neighbours.
fn has_gap(table: &[[u32; 4]], from: u32) -> bool
    ensures { result ≡ has_gap table.now (length table.now) from }
{
    let count = table.len();
    !((neighbour(table, from, Direction::Left) as usize) < count
        && (neighbour(table, from, Direction::Above) as usize) < count
        && (neighbour(table, from, Direction::Right) as usize) < count
        && (neighbour(table, from, Direction::Below) as usize) < count)
}

/// For each cell whether no walk from a boundary cell to it is cheaper than twice the radius. The cells may be connected to others
/// that are not in the list, and need not be named back.
pub fn marks(alloc: Global, cells: &[PackedCell], radius: u32) -> Result<Vec<bool>, AllocError>
    requires { IsCells cells.now }
    ensures { IfOk result (λ marks. marks.items ≡ map (is_kept cells.now radius) cells.now) }
{
    if radius == 0 {
        return Ok(all_kept(alloc, cells.len())?);
    }
    let mut reached = Reached::new(alloc, cells.len())?;
    spread(alloc, &mut reached, cells, bound_of(radius))?;
    Ok(reached.into_kept())
}

/// Reaches, from none, the cells to which some walk from a boundary cell costs less than a bound.
///
/// Costs are gone through in order, from what was reached: the cells whose least cost is the last one stand in the order from `first` on,
/// those of the cost before it from `second` to before `first`, and those of the cost before that from `third` to before `second`. Each cell is
/// left once for its axis steps and once for its diagonal steps. Three costs without a new cell end it, since no step costs more than
/// three.
fn spread(
    alloc: Global,
    reached: &mut Reached,
    cells: &[PackedCell],
    bound: u64,
) -> Result<(), AllocError>
    requires cells { IsCells cells.now }
    requires reached { reached.old ≡ nothing_reached (length cells.now) }
    requires bound { 1 ≤ bound }
    ensures { OnOk result (reached.new.kept ≡ map (is_beyond cells.now bound) cells.now) }
{
    let table = neighbour_table(alloc, cells)?;
    let table = table.as_slice();
    reached.reach_boundary(table)?;
    let mut cost = 1;
    let mut first = 0;
    let mut second = 0;
    let mut third = 0;
    while cost < bound && third < reached.count() {
        let end = reached.count();
        reached.round(table, third, second, first)?;
        third = second;
        second = first;
        first = end;
        cost += 1;
    }
    Ok(())
}

/// What a walk to a kept cell costs at least: twice the radius.
fn bound_of(radius: u32) -> u64
    ensures { result ≡ 2 * radius }
{
    2 * u64::from(radius)
}
