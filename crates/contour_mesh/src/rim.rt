//! What the rim of a tile lists for its doors. Tables of what stands at the positions of a tile's sides.

ghost use Rattle.std.specs.Prelude.{◌≡◌, ◌<◌, ◌≤◌, ◌+◌, ◌-◌, ◌^◌, ◌++◌, [], IfOk, IfSome, OnOk, All, false, length, map};
ghost use Rattle.std.specs.Option.{option_map_or};
ghost use Rattle.std.specs.List.{range_with_len};
ghost use Rattle.nav_ground.specs.Directions.{number};
ghost use Rattle.mesh_types.specs.Runs.{label_if};
ghost use Rattle.mesh_types.specs.Crossings.{level_pair};
ghost use Rattle.mesh_types.specs.DoorRim.{first_position, is_same_door};
ghost use Rattle.contour_mesh.specs.Sides.{IsFieldWindow};
ghost use Rattle.contour_mesh.specs.RimTables.{AreInOrder, IsRunAlong, door_place, is_listed_in, pair_in, entry_in, labels_in, entries_on, rim_in};

use crate::crossings::{AtPosition, SidePosition, first_at};
use crate::doors::{end_position, first_position, side_of};
use mesh_types::{LabelRun, LevelPair, PortalEdge, RimEdge, runs};
use nav_ground::{Direction, PackedCell, Window};
use nav_lists::Items;
use std::alloc::{AllocError, Global};

/// The rim of a tile, door by door: for each door on a side the maximal runs of positions that belong to it and have a kept neighbour across.
pub fn door_rim(
    alloc: Global,
    window: &Window,
    tables: &SideTables,
    doors: &[PortalEdge],
) -> Result<Items<RimEdge>, AllocError>
    requires window { IsFieldWindow window.now }
    requires order { AreInOrder tables.now }
    ensures { IfOk result (λ rim. rim ≡ rim_in window.now tables.now doors.now) }
{
    let mut labels = Vec::new(alloc);
    let mut rim = Vec::new(alloc);
    for door in doors {
        if let Some(side) = side_of(window, door) {
            let on = DoorSide { tables, door, side };
            push_entries(alloc, on, &mut labels, &mut rim)?;
        }
    }
    Ok(Items::from_vec(rim))
}

/// A door on a side, with the tables of the tile's sides.
#[derive(Clone, Copy)]
struct DoorSide<'a> {
    tables: &'a SideTables,
    door: &'a PortalEdge,
    side: Direction,
}

/// Where what stands at a place of a side is looked for first in the two tables: behind where what stands at the position before is, or would be.
#[derive(Clone, Copy)]
struct SideCursors {
    doors: usize,
    cells: usize,
}

/// Appends what the rim lists for a door on a side. The labels are room to work in.
fn push_entries(
    alloc: Global,
    on: DoorSide,
    labels: &mut Vec<Option<u32>>,
    rim: &mut Vec<RimEdge>,
) -> Result<(), AllocError>
    requires order { AreInOrder on.tables.now }
    ensures { OnOk result (rim.new.items ≡ rim.old.items ++ entries_on on.entry.tables.now on.entry.door.now (number on.entry.side)) }
{
    label_positions(on, labels)?;
    let parts = runs(alloc, labels.as_slice())?;
    push_runs(alloc, on, parts.as_slice(), rim)
}

/// Appends what the rim lists for a door on a side along runs of its positions.
fn push_runs(
    alloc: Global,
    on: DoorSide,
    parts: &[LabelRun],
    rim: &mut Vec<RimEdge>,
) -> Result<(), AllocError>
    requires order { AreInOrder on.tables.now }
    requires runs { All (IsRunAlong (number on.side) on.door.now) parts.now }
    ensures { OnOk result (rim.new.items ≡ rim.old.items ++ map (entry_in on.entry.tables.now on.entry.door.now (number on.entry.side)) parts.now) }
{
    for part in parts {
        rim.push(entry(alloc, on, *part)?)?;
    }
    Ok(())
}

/// Which of the positions over which a door runs belong to it and have a cell with a kept neighbour across.
fn label_positions(on: DoorSide, labels: &mut Vec<Option<u32>>) -> Result<(), AllocError>
    requires order { AreInOrder on.tables.now }
    ensures value { OnOk result (labels.new.items ≡ labels_in on.entry.tables.now on.entry.door.now (number on.entry.side)) }
    ensures inside { OnOk result (first_position (number on.entry.side) on.entry.door.now + length labels.new.items < 2 ^ 32) }
{
    labels.clear();
    let mut guesses = SideCursors { doors: 0, cells: 0 };
    for position in first_position(on.side, on.door)..end_position(on.side, on.door) {
        labels.push(label(on, &mut guesses, position))?;
    }
    Ok(())
}

/// The one label, for a position that belongs to a door and has a cell with a kept neighbour across.
fn label(on: DoorSide, guesses: &mut SideCursors, position: u32) -> Option<u32>
    requires { AreInOrder on.tables.now }
    ensures { result ≡ label_if (is_listed_in on.entry.tables.now on.entry.door.now (number on.entry.side) position) }
{
    if is_listed(on, guesses, position) {
        Some(0)
    } else {
        None
    }
}

/// Whether a position belongs to a door and has a cell with a kept neighbour across.
fn is_listed(on: DoorSide, guesses: &mut SideCursors, position: u32) -> bool
    requires { AreInOrder on.tables.now }
    ensures { result ≡ is_listed_in on.entry.tables.now on.entry.door.now (number on.entry.side) position }
{
    let place = place_of(on, position);
    is_door(
        first_at(on.tables.doors.as_slice(), &mut guesses.doors, place),
        on.door,
    ) && first_at(on.tables.cells.as_slice(), &mut guesses.cells, place).is_some()
}

/// The place that the region of a door has at a position.
fn place_of(on: DoorSide, position: u32) -> SidePosition
    ensures { result ≡ door_place on.entry.door.now (number on.entry.side) position }
{
    SidePosition {
        region: on.door.region,
        side: on.side.index() as u32,
        position,
    }
}

/// Whether a door is there and the same as another.
fn is_door(found: Option<PortalEdge>, door: &PortalEdge) -> bool
    ensures { result ≡ option_map_or (is_same_door door.now) found false }
{
    match found {
        None => false,
        Some(found) => door.polygon == found.polygon && door.edge == found.edge,
    }
}

/// What the rim lists for a door on a side along a run of its positions.
fn entry(alloc: Global, on: DoorSide, part: LabelRun) -> Result<RimEdge, AllocError>
    requires tables { AreInOrder on.tables.now }
    requires run { IsRunAlong (number on.side) on.door.now part }
    ensures { IfOk result (λ entry. entry ≡ entry_in on.entry.tables.now on.entry.door.now (number on.entry.side) part) }
{
    let first = first_position(on.side, on.door) + part.first;
    let count = part.last + 1 - part.first;
    Ok(RimEdge {
        poly: on.door.polygon,
        edge: on.door.edge,
        side: on.side.index() as u32,
        first,
        pairs: pairs(alloc, on, first, count)?,
    })
}

/// The levels at successive positions of a door.
fn pairs(
    alloc: Global,
    on: DoorSide,
    first: u32,
    count: u32,
) -> Result<Items<LevelPair>, AllocError>
    requires tables { AreInOrder on.tables.now }
    requires inside { first + count ≤ 2 ^ 32 }
    ensures { IfOk result (λ pairs. pairs ≡ map (pair_in on.entry.tables.now on.entry.door.now (number on.entry.side)) (range_with_len first count)) }
{
    let mut guess = 0;
    let mut pairs = Vec::with_capacity(alloc, count as usize)?;
    for place in 0..count {
        pairs.push(pair(on, &mut guess, first + place))?;
    }
    Ok(Items::from_vec(pairs))
}

/// The levels of the first cell that stands at a position in the region of a door.
fn pair(on: DoorSide, guess: &mut usize, position: u32) -> LevelPair
    requires tables { AreInOrder on.tables.now }
    ensures { result ≡ pair_in on.entry.tables.now on.entry.door.now (number on.entry.side) position }
{
    let place = place_of(on, position);
    match first_at(on.tables.cells.as_slice(), guess, place) {
        Some(cell) => level_pair(on.side, &cell),
        None => LevelPair { own: 0, other: 0 },
    }
}

/// The levels of a cell and of its neighbour across a side.
fn level_pair(side: Direction, cell: &PackedCell) -> LevelPair
    ensures { result ≡ level_pair (number side) cell.now }
{
    LevelPair {
        own: cell.at().level,
        other: cell.next(side).unwrap_or(0),
    }
}

/// By their places, in order: the doors at each position over which they run, and the cells that have kept neighbours across.
#[derive(Drop)]
pub struct SideTables {
    pub doors: Items<AtPosition<PortalEdge>>,
    pub cells: Items<AtPosition<PackedCell>>,
}
