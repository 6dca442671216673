//! How many cells storeys have, and between which floors they lie. Searches pass over storeys and tiles by them.

ghost use Rattle.std.specs.Prelude.{◌≡◌, IfOk, All, sum_by};
ghost use Rattle.mesh_types.specs.Storeys.{AreStoreys, IsStorey};
ghost use Rattle.mesh_types.specs.Reaches.{
  AreReaches,
  HaveArea,
  IsBetween,
  IsReach,
  IsRowBetween,
  IsStoreyBetween,
  IsTileReach,
  IsWithin,
  cell_count,
};

use crate::storeys::{FloorRow, Storey};
use nav_lists::Items;
use std::alloc::{AllocError, Global};

/// The floors between which those of some cells lie, in height units.
#[derive(Clone, Copy, PartialEq, Eq)]
pub struct FloorReach {
    pub least: u16,
    pub greatest: u16,
}

/// How many cells a storey has, and between which floors they lie.
#[derive(Clone, Copy, PartialEq, Eq)]
pub struct StoreyReach {
    pub cells: u32,
    pub floors: FloorReach,
}

/// How many cells the storeys of a tile have, and between which floors they lie.
#[derive(Clone, Copy, PartialEq, Eq)]
pub struct TileReach {
    pub cells: u128,
    pub floors: FloorReach,
    /// The area of all storeys; 0 where they are of several.
    pub area: u32,
}

/// The reach of no cells.
pub(crate) const NO_FLOORS: FloorReach = FloorReach {
    least: 65535,
    greatest: 0,
};

/// The reach of each storey, in order.
pub(crate) fn reaches(alloc: Global, list: &[Storey]) -> Result<Items<StoreyReach>, AllocError>
    requires { AreStoreys list.now }
    ensures { IfOk result (λ reaches. AreReaches list.now reaches) }
{
    let mut reaches = Vec::with_capacity(alloc, list.len())?;
    for storey in list {
        reaches.push(storey_reach(storey))?;
    }
    Ok(Items::from_vec(reaches))
}

/// The reach of a storey.
fn storey_reach(storey: &Storey) -> StoreyReach
    requires { IsStorey storey.now }
    ensures { IsReach storey.now result }
{
    let rows = storey.rows.as_slice();
    let mut cells = 0;
    let mut floors = NO_FLOORS;
    for row in rows {
        cells += row.floors.len() as u32;
        floors = with_row(floors, row.floors.as_slice());
    }
    StoreyReach { cells, floors }
}

/// The least reach that a reach and the floors of a row lie in.
fn with_row(reach: FloorReach, floors: &[u16]) -> FloorReach
    ensures wider { IsWithin reach result }
    ensures there { All (IsBetween result) floors.now }
{
    let mut wide = reach;
    for floor in floors {
        wide = with_reach(
            wide,
            FloorReach {
                least: *floor,
                greatest: *floor,
            },
        );
    }
    wide
}

/// The least reach that two reaches lie in.
fn with_reach(one: FloorReach, other: FloorReach) -> FloorReach
    ensures one { IsWithin one result }
    ensures other { IsWithin other result }
{
    FloorReach {
        least: one.least.min(other.least),
        greatest: one.greatest.max(other.greatest),
    }
}

/// The reach of all storeys of a tile, from that of each.
pub(crate) fn tile_reach(list: &[Storey], reaches: &[StoreyReach]) -> TileReach
    requires storeys { AreStoreys list.now }
    requires reaches { AreReaches list.now reaches.now }
    ensures { IsTileReach list.now result }
{
    TileReach {
        cells: all_cells(list, reaches),
        floors: all_floors(list, reaches),
        area: common_area(list),
    }
}

/// How many cells storeys have.
fn all_cells(list: &[Storey], reaches: &[StoreyReach]) -> u128
    requires storeys { AreStoreys list.now }
    requires reaches { AreReaches list.now reaches.now }
    ensures { result ≡ sum_by cell_count list.now }
{
    let mut cells = 0;
    for reach in reaches {
        cells += u128::from(reach.cells);
    }
    cells
}

/// The least reach that those of storeys lie in.
fn all_floors(list: &[Storey], reaches: &[StoreyReach]) -> FloorReach
    requires { AreReaches list.now reaches.now }
    ensures { All (IsStoreyBetween result) list.now }
{
    let mut floors = NO_FLOORS;
    for reach in reaches {
        floors = with_reach(floors, reach.floors);
    }
    floors
}

/// The area of all storeys; 0 where they are of several.
fn common_area(list: &[Storey]) -> u32
    ensures { HaveArea result list.now }
{
    let area = match list.first() {
        Some(storey) => storey.area,
        None => 0,
    };
    for storey in list {
        if storey.area != area {
            return 0;
        }
    }
    area
}
