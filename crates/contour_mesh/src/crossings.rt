//! The cells at the sides of a tile, as what their regions have there. Lists in the order of their places, and what stands at a place.
//! Positions on the sides of a tile, in its regions.

ghost use Rattle.std.specs.Prelude.{◌≡◌, ◌<◌, ◌++◌, [], ◌∷◌, IfOk, OnOk, nat_lt, if◌then◌else◌, Some, None, length, map, IsTrue, Option, option_map};
ghost use Rattle.std.specs.Option.{option_map_or};
ghost use Rattle.nav_ground.specs.Cells.{IsCell, IsCells};
ghost use Rattle.nav_ground.specs.Directions.{number};
ghost use Rattle.mesh_types.specs.Crossings.{is_crossing, position_of};
ghost use Rattle.contour_walk.specs.Tables.{IsTableOf};
ghost use Rattle.contour_mesh.specs.SidePlaces.{cell_at_side, crossings_in, placed_cells, side_place_cmp, is_place_before, is_same_place, stands_before, first_at, door_at, door_places, placed_doors, IsCountBefore};
ghost use Rattle.std.specs.List.Sorted.{IsSortedBy};
ghost use Rattle.mesh_types.specs.DoorRim.{positions_of};
ghost use Rattle.contour_mesh.specs.Orders.{IsSortOf};
ghost use Rattle.contour_mesh.specs.Sides.{IsFieldWindow};
ghost use Rattle.contour_mesh.specs.RimTables.{AreSideTables};

use crate::doors::{end_position, first_position, side_of};
use crate::rim::SideTables;
use contour_walk::{RegionTable, is_crossing};
use mesh_types::{PortalEdge, Regions};
use nav_ground::{CellRef, Direction, PackedCell, Window};
use nav_lists::Items;
use std::alloc::{AllocError, Global};
use std::cmp::Ordering;

/// The cells that have kept neighbours across the sides of their tile, at their positions there, in the order of the cells.
pub fn placed_cells(
    alloc: Global,
    cells: &[PackedCell],
    regions: &Regions,
    table: &RegionTable,
) -> Result<Vec<AtPosition<PackedCell>>, AllocError>
    requires cells { IsCells cells.now }
    requires table { IsTableOf cells.now regions.now.regions table.now }
    ensures { IfOk result (λ placed. placed.items ≡ placed_cells table.now.window regions.now cells.now) }
{
    let owners = table.owners.as_slice();
    let mut placed = Vec::new(alloc);
    for index in 0..cells.len() {
        let region = region_of(owners[index], regions.regions.len());
        push_cell(&mut placed, &table.window, &cells[index], region)?;
    }
    Ok(placed)
}

/// A number, if it is that of one of so many regions.
fn region_of(owner: u32, count: usize) -> Option<u32>
    ensures { result ≡ (if nat_lt owner count then Some owner else None) }
{
    if (owner as usize) < count {
        Some(owner)
    } else {
        None
    }
}

/// Appends a cell of a region at its position on each side across which it has a kept neighbour.
fn push_cell(
    placed: &mut Vec<AtPosition<PackedCell>>,
    window: &Window,
    cell: &PackedCell,
    region: Option<u32>,
) -> Result<(), AllocError>
    requires { IsCell cell.now }
    ensures { OnOk result (placed.new.items ≡ placed.old.items ++ option_map_or (crossings_in window.now cell.now) region []) }
{
    if let Some(region) = region {
        push_crossings(placed, window, cell, region)?;
    }
    Ok(())
}

fn push_crossings(
    placed: &mut Vec<AtPosition<PackedCell>>,
    window: &Window,
    cell: &PackedCell,
    region: u32,
) -> Result<(), AllocError>
    requires { IsCell cell.now }
    ensures { OnOk result (placed.new.items ≡ placed.old.items ++ crossings_in window.now cell.now region) }
{
    for side in 0..4 {
        push_crossing(placed, window, cell, region, Direction::of(side))?;
    }
    Ok(())
}

fn push_crossing(
    placed: &mut Vec<AtPosition<PackedCell>>,
    window: &Window,
    cell: &PackedCell,
    region: u32,
    side: Direction,
) -> Result<(), AllocError>
    requires { IsCell cell.now }
    ensures { OnOk result (placed.new.items
        ≡ placed.old.items ++ (if is_crossing window.now (number side) cell.now then cell_at_side region cell.now (number side) ∷ [] else [])) }
{
    if is_crossing(window, side, cell) {
        placed.push(AtPosition {
            place: SidePosition {
                region,
                side: side.index() as u32,
                position: position_of(side, cell.at()),
            },
            item: *cell,
        })?;
    }
    Ok(())
}

/// The position of a place along a side of a tile: z on the sides 0 and 2, x on the sides 1 and 3.
fn position_of(side: Direction, at: CellRef) -> u32
    ensures { result ≡ position_of (number side) at }
{
    match side {
        Direction::Left | Direction::Right => at.z,
        Direction::Above | Direction::Below => at.x,
    }
}

/// The tables of a tile's doors and cells.
pub fn side_tables(
    alloc: Global,
    cells: &[PackedCell],
    regions: &Regions,
    table: &RegionTable,
    doors: &[PortalEdge],
) -> Result<SideTables, AllocError>
    requires cells { IsCells cells.now }
    requires table { IsTableOf cells.now regions.now.regions table.now }
    requires window { IsFieldWindow table.now.window }
    ensures { IfOk result (AreSideTables table.now.window cells.now regions.now doors.now) }
{
    let mut placed_doors = placed_doors(alloc, &table.window, doors)?;
    order_places(&mut placed_doors)?;
    let mut placed_cells = placed_cells(alloc, cells, regions, table)?;
    order_places(&mut placed_cells)?;
    Ok(SideTables {
        doors: Items::from_vec(placed_doors),
        cells: Items::from_vec(placed_cells),
    })
}

/// Doors at the positions over which they run, door by door.
fn placed_doors(
    alloc: Global,
    window: &Window,
    doors: &[PortalEdge],
) -> Result<Vec<AtPosition<PortalEdge>>, AllocError>
    requires { IsFieldWindow window.now }
    ensures { IfOk result (λ placed. placed.items ≡ placed_doors window.now doors.now) }
{
    let mut placed = Vec::new(alloc);
    for door in doors {
        push_door(&mut placed, door, side_of(window, door))?;
    }
    Ok(placed)
}

/// Appends a door on a side at the positions over which it runs.
fn push_door(
    placed: &mut Vec<AtPosition<PortalEdge>>,
    door: &PortalEdge,
    side: Option<Direction>,
) -> Result<(), AllocError>
    ensures { OnOk result (placed.new.items
        ≡ placed.old.items ++ option_map_or (λ s. map (door_at door.now s) (positions_of s door.now)) (option_map number side) []) }
{
    if let Some(side) = side {
        push_positions(placed, door, side)?;
    }
    Ok(())
}

fn push_positions(
    placed: &mut Vec<AtPosition<PortalEdge>>,
    door: &PortalEdge,
    side: Direction,
) -> Result<(), AllocError>
    ensures { OnOk result (placed.new.items ≡ placed.old.items ++ map (door_at door.now (number side)) (positions_of (number side) door.now)) }
{
    for position in first_position(side, door)..end_position(side, door) {
        placed.push(AtPosition {
            place: SidePosition {
                region: door.region,
                side: side.index() as u32,
                position,
            },
            item: *door,
        })?;
    }
    Ok(())
}

/// Puts things in the order of their places; those of one place stand as they stood.
fn order_places<T: Copy>(placed: &mut Vec<AtPosition<T>>) -> Result<(), AllocError>
    ensures { OnOk result (IsSortOf stands_before placed.old.items placed.new.items) }
{
    placed.sort_by(|a, b| place_order(a.place, b.place))
}

/// What stands first at a place. It is looked for at the guess first; the guess is then left behind it, where what stands at the next place
/// mostly is.
pub fn first_at<T: Copy>(
    placed: &[AtPosition<T>],
    guess: &mut usize,
    place: SidePosition,
) -> Option<T>
    requires { IsSortedBy stands_before placed.now }
    ensures { result ≡ first_at placed.now place }
{
    let first = count_before(placed, *guess, place);
    *guess = first;
    if first >= placed.len() {
        return None;
    }
    if !is_same_place(placed[first].place, place) {
        return None;
    }
    *guess = first.saturating_add(1);
    Some(placed[first].item)
}

/// How many come before a place: the guess, where what stands there shows it, else found by halving.
fn count_before<T: Copy>(placed: &[AtPosition<T>], guess: usize, place: SidePosition) -> usize
    requires { IsSortedBy stands_before placed.now }
    ensures { IsCountBefore place placed.now result }
{
    if is_first_there(placed, guess, place) {
        return guess;
    }
    placed.partition_point(|other| is_before(other.place, place))
}

/// Whether what stands at an index stands at a place, and is the first that does.
fn is_first_there<T: Copy>(placed: &[AtPosition<T>], index: usize, place: SidePosition) -> bool
    requires { IsSortedBy stands_before placed.now }
    ensures { IsTrue result → IsCountBefore place placed.now index }
{
    if index >= placed.len() {
        return false;
    }
    if !is_same_place(placed[index].place, place) {
        return false;
    }
    if index == 0 {
        return true;
    }
    is_before(placed[index - 1].place, place)
}

/// Which of two places comes first: by region, side and position.
fn place_order(a: SidePosition, b: SidePosition) -> Ordering
    ensures { result ≡ side_place_cmp a b }
{
    let side = a.side.cmp(&b.side).then(a.position.cmp(&b.position));
    a.region.cmp(&b.region).then(side)
}

fn is_before(a: SidePosition, b: SidePosition) -> bool
    ensures { result ≡ is_place_before a b }
{
    place_order(a, b).is_lt()
}

fn is_same_place(a: SidePosition, b: SidePosition) -> bool
    ensures { result ≡ is_same_place a b }
{
    a.region == b.region && a.side == b.side && a.position == b.position
}

/// A position on a side of a tile, as a region has it: z on the sides 0 and 2, x on the sides 1 and 3.
#[derive(Clone, Copy)]
pub struct SidePosition {
    pub region: u32,
    pub side: u32,
    pub position: u32,
}

/// What stands at a position.
#[derive(Clone, Copy)]
pub struct AtPosition<T> {
    pub place: SidePosition,
    pub item: T,
}
