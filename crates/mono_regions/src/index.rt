//! Which cells make which strip, by their indices. Lists of indices that stand one after the other in one array.

ghost use Rattle.std.specs.Prelude.{◌≡◌, ◌<◌, ◌++◌, ◌==◌, ◌&&◌, IfOk, OnOk, map, replicate, length, ◌≤◌, slice_index_or, slice_range, []};
ghost use Rattle.std.specs.List.{range_with_len};
ghost use Rattle.nav_ground.specs.Cells.{IsCut};
ghost use Rattle.nav_ground.specs.Directions.{number};
ghost use Rattle.cell_table.specs.Table.{neighbour_table};
ghost use Rattle.mono_regions.specs.Indices.{along, run_at, index_runs, owner_of, IsMarkedWith};
ghost use Rattle.mono_regions.specs.Lists.{AreCut, lists_between};

use nav_ground::{Direction, PackedCell};
use nav_lists::Items;
use std::alloc::{AllocError, Global};
use std::marker::Model;

/// The strips of a list of cells, by the indices of the cells.
#[derive(Drop)]
pub struct StripIndex {
    /// For each strip, in order, its cells from the first column on.
    pub runs: IndexLists,
    /// For each cell the number of its strip.
    pub owners: Items<u32>,
}

/// The strips of a list of cells, along its neighbour table, in the order of their first cells: a cell that stands in no strip before it is
/// the first of one.
pub fn strip_index(
    alloc: Global,
    cells: &[PackedCell],
    table: &[[u32; 4]],
) -> Result<StripIndex, AllocError>
    requires cells { IsCut cells.now }
    requires table { table.now ≡ neighbour_table cells.now }
    ensures runs { IfOk result (λ index. index.runs ≡ index_runs cells.now) }
    ensures owners { IfOk result (λ index. index.owners ≡ map (owner_of cells.now) (range_with_len 0 (length cells.now))) }
{
    let none = cells.len() as u32;
    let mut owners = unowned(alloc, cells.len(), none)?;
    let mut order = Vec::with_capacity(alloc, cells.len())?;
    let mut starts = Vec::with_capacity(alloc, cells.len().saturating_add(1))?;
    starts.push(0)?;
    let mut strip = 0;
    for first in 0..cells.len() {
        if owners[first] == none {
            push_run(&mut order, &mut owners, cells, table, first, strip)?;
            starts.push(order.len())?;
            strip += 1;
        }
    }
    Ok(StripIndex {
        runs: IndexLists::from_parts(order, starts),
        owners: Items::from_vec(owners),
    })
}

/// So many owners that are none.
fn unowned(alloc: Global, count: usize, none: u32) -> Result<Vec<u32>, AllocError>
    ensures { IfOk result (λ owners. owners.items ≡ replicate count none) }
{
    Ok(vec![in alloc; none; count]?)
}

/// Appends the cells of the strip that begins at a cell, and writes the strip's number at each.
fn push_run(
    order: &mut Vec<u32>,
    owners: &mut Vec<u32>,
    cells: &[PackedCell],
    table: &[[u32; 4]],
    first: usize,
    number: u32,
) -> Result<(), AllocError>
    requires cells { IsCut cells.now }
    requires table { table.now ≡ neighbour_table cells.now }
    requires there { first < length cells.now }
    requires owners { length owners.old.items ≡ length cells.now }
    ensures order { OnOk result (order.new.items ≡ order.old.items ++ run_at cells.now first) }
    ensures owners { OnOk result (IsMarkedWith (run_at cells.now first) number owners.old.items owners.new.items) }
{
    let mut at = first;
    while at < cells.len() {
        order.push(at as u32)?;
        owners[at] = number;
        at = along(cells, table, at, Direction::Right);
    }
    Ok(())
}

/// The index of the cell of the same area that a cell names in a direction, or the number of cells where there is none.
fn along(cells: &[PackedCell], table: &[[u32; 4]], at: usize, dir: Direction) -> usize
    requires cells { IsCut cells.now }
    requires table { table.now ≡ neighbour_table cells.now }
    requires there { at < length cells.now }
    ensures { result ≡ Rattle.mono_regions.specs.Indices.along cells.now (number dir) at }
{
    let to = table[at][dir.index()] as usize;
    if to < cells.len() && cells[to].area() == cells[at].area() {
        to
    } else {
        cells.len()
    }
}

/// Lists of indices, seen by contracts as the list of them. All indices stand in one array, list after list; beside it stand the places
/// where the lists begin, and at last the end.
#[derive(Drop)]
pub struct IndexLists {
    items: Vec<u32>,
    starts: Vec<usize>,
}

impl Model for IndexLists {
    ghost use Rattle.std.specs.Prelude.{List, ℕ};
    ghost use Rattle.mono_regions.specs.Lists.{AreCut, lists_between};

    ghost Value = { List (List ℕ) };

    ghost view = { λ a. lists_between a.items.items a.starts.items };

    ghost invariant = { λ a. AreCut a.items.items a.starts.items };
}

impl IndexLists {
    /// The lists that stand in an array one after the other, by where they begin, with the end at last.
    pub fn from_parts(items: Vec<u32>, starts: Vec<usize>) -> Self
        requires { AreCut items.items starts.items }
        ensures { result ≡ lists_between items.items starts.items }
    {
        IndexLists { items, starts }
    }

    /// How many lists there are.
    pub fn len(&self) -> usize
        ensures { result ≡ length self.now }
    {
        self.starts.len() - 1
    }

    /// The list with a number, from 0.
    pub fn list(&self, number: usize) -> &[u32]
        requires { number < length self.now }
        ensures { result.now ≡ slice_index_or self.now number [] }
    {
        between(
            self.items.as_slice(),
            self.starts[number],
            self.starts[number + 1],
        )
    }
}

/// The indices from one place up to another.
fn between(items: &[u32], first: usize, end: usize) -> &[u32]
    requires { (first ≤ end) × (end ≤ length items.now) }
    ensures { result.now ≡ slice_range items.now first end }
{
    &items[first..end]
}
