//! Cells: the places where an agent can stand. The cells of one column among ordered cells.

ghost use Rattle.std.specs.Prelude.{◌≡◌, IfOk, filter};
ghost use Rattle.nav_ground.specs.CellColumns.{AreOrdered, is_before_column, is_in_column};
ghost use Rattle.nav_ground.specs.ColumnParts.{IsPartOf};

use crate::packed::PackedCell;
use crate::padded_cells::PaddedCells;
use crate::setting::TileNo;
use nav_lists::{Duplicate, Items, Shared};
use std::alloc::{AllocError, Global};

/// A cell by its place: its column, and its level, which is how many cells of the whole field lie below it in that column.
/// Levels are counted before agents keep from walls and before obstacles, so those in a layer may have gaps.
#[derive(Clone, Copy, PartialEq, Eq, Debug)]
pub struct CellRef {
    /// Its column along x, 0 to 1023.
    pub x: u32,
    /// Its column along z, 0 to 1023.
    pub z: u32,
    /// 0 for the lowest of its column.
    pub level: u32,
}

/// A place to stand: the top of a span with room above it.
#[derive(Clone, Copy, PartialEq, Eq, Debug)]
pub struct Cell {
    pub at: CellRef,
    /// The height to stand on, in height units, at most 8191.
    pub floor: u32,
    /// The height of what is above, in height units; 65535 where nothing is.
    pub ceiling: u32,
    /// What is stood on, 1 to 63.
    pub area: u32,
    /// For each direction (0 for x - 1, 1 for z + 1, 2 for x + 1, 3 for z - 1) the level of the connected cell of that neighbouring
    /// column, or none.
    pub next: [Option<u32>; 4],
}

/// A closed rectangle of columns: from x0 to x1 and from z0 to z1, both ends within. It may lie outside the field, and is empty where an
/// end is below its beginning.
#[derive(Clone, Copy, PartialEq, Eq, Debug)]
pub struct Window {
    pub x0: i32,
    pub x1: i32,
    pub z0: i32,
    pub z1: i32,
}

/// The cells of one tile as the ground was built, before obstacles.
#[derive(Drop)]
pub struct Layer {
    pub tile: TileNo,
    /// By z, then x, then level. The meshes of its tile share them.
    pub cells: Shared<Items<PackedCell>>,
    /// How far agents keep from obstacles, in cells: the agent's radius where the setting says clear, else 0, and then obstacles block
    /// only what they cover.
    pub radius: u32,
    /// Where the setting says clear: all cells, also those too near a wall, of the tile widened by the radius on each side, in the same
    /// order, each with all its connections. Else empty. In a ground they stand in one list that all its layers share.
    pub wide: PaddedCells,
}

/// The cells of one tile that the obstacles leave free, in the order of its layer.
#[derive(Drop)]
pub struct FreeLayer {
    pub tile: TileNo,
    pub cells: Items<PackedCell>,
}

impl Duplicate for Layer {
    fn duplicate(&self, alloc: Global) -> Result<Self, AllocError> {
        Ok(Layer {
            tile: self.tile,
            cells: self.cells.duplicate(alloc)?,
            radius: self.radius,
            wide: self.wide.duplicate(alloc)?,
        })
    }
}

impl Duplicate for FreeLayer {
    fn duplicate(&self, alloc: Global) -> Result<Self, AllocError> {
        Ok(FreeLayer {
            tile: self.tile,
            cells: self.cells.duplicate(alloc)?,
        })
    }
}

/// Where the cells of a column stand in a list: from an index on, and how many.
#[derive(Clone, Copy)]
pub(crate) struct ColumnCells {
    pub(crate) first: usize,
    pub(crate) count: usize,
}

/// The cells of a column, from the bottom up, found by halving.
pub(crate) fn column(
    alloc: Global,
    cells: &[PackedCell],
    x: u32,
    z: u32,
) -> Result<Vec<PackedCell>, AllocError>
    requires { AreOrdered cells.now }
    ensures { IfOk result (λ column. column.items ≡ filter (is_in_column x z) cells.now) }
{
    let part = part_of(cells, x, z);
    let rest = &cells[part.first..];
    Vec::from_slice(alloc, &rest[..part.count])
}

/// Where the cells of a column stand.
pub(crate) fn part_of(cells: &[PackedCell], x: u32, z: u32) -> ColumnCells
    requires { AreOrdered cells.now }
    ensures { IsPartOf x z cells.now result }
{
    let first = cells.partition_point(|cell| is_before_column(cell, x, z));
    let rest = &cells[first..];
    let count = rest.partition_point(|cell| is_in_column(cell, x, z));
    ColumnCells { first, count }
}

fn is_before_column(cell: &PackedCell, x: u32, z: u32) -> bool
    ensures { result ≡ is_before_column x z cell.now }
{
    let at = cell.at();
    at.z < z || (at.z == z && at.x < x)
}

fn is_in_column(cell: &PackedCell, x: u32, z: u32) -> bool
    ensures { result ≡ is_in_column x z cell.now }
{
    let at = cell.at();
    at.x == x && at.z == z
}
