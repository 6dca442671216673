//! The storeys of a tile: the cells of its regions or strips with their floors. Places on a mesh.

ghost use Rattle.std.specs.Prelude.{◌≡◌, ◌<◌, IfOk, IfSome, Some, length, slice_get};
ghost use Rattle.std.specs.Option.{option_copied};
ghost use Rattle.mesh_types.specs.Storeys.{AreStoreys, IsStorey, no_storeys};
ghost use Rattle.mesh_types.specs.Places.{storey_in, storey_at};
ghost use Rattle.mesh_types.specs.Reaches.{IsReach, IsTileReach};

use crate::links::PolyRef;
use crate::mesh::Mesh;
use crate::reaches::{NO_FLOORS, StoreyReach, TileReach, reaches, tile_reach};
use nav_base::Point;
use nav_lists::{Duplicate, Items};
use std::alloc::{AllocError, Global};
use std::marker::Model;

/// The floors of a row of a storey, column by column.
#[derive(Drop)]
pub struct FloorRow {
    /// The first column, in cells.
    pub x0: u32,
    /// The floor of each cell, from the first column on, in height units.
    pub floors: Items<u16>,
}

/// The cells of a region or a strip, row by row, each column with one cell at most.
#[derive(Drop)]
pub struct Storey {
    /// The area of its cells, 1 to 63.
    pub area: u32,
    /// The first row, in cells.
    pub z0: u32,
    /// By row, from the first on.
    pub rows: Items<FloorRow>,
}

/// The storeys of a tile, and for each of its polygons which of them is its own.
#[derive(Drop)]
pub struct Storeys {
    homes: Items<u32>,
    list: Items<Storey>,
    reaches: Items<StoreyReach>,
    whole: TileReach,
}

impl Model for Storeys {
    ghost use Rattle.mesh_types.specs.Storeys.{TileStoreys, AreStoreys};
    ghost use Rattle.mesh_types.specs.Reaches.{AreReaches, IsTileReach};

    ghost Value = { TileStoreys };

    ghost view = { λ a. record { homes = a.homes; list = a.list } };

    ghost invariant = { λ a. AreStoreys a.list × AreReaches a.list a.reaches × IsTileReach a.list a.whole };
}

impl Storeys {
    /// Storeys, and for each polygon the place of its storey among them, from 0.
    pub fn new(alloc: Global, homes: Items<u32>, list: Items<Storey>) -> Result<Storeys, AllocError>
        requires { AreStoreys list }
        ensures { IfOk result (λ storeys. storeys ≡ record { homes = homes; list = list }) }
    {
        let reaches = reaches(alloc, list.as_slice())?;
        let whole = tile_reach(list.as_slice(), reaches.as_slice());
        Ok(Storeys {
            homes,
            list,
            reaches,
            whole,
        })
    }

    /// The storeys of a tile without polygons; they take no memory.
    pub fn none(alloc: Global) -> Storeys
        ensures { result ≡ no_storeys }
    {
        Storeys {
            homes: Items::new(alloc),
            list: Items::new(alloc),
            reaches: Items::new(alloc),
            whole: TileReach {
                cells: 0,
                floors: NO_FLOORS,
                area: 0,
            },
        }
    }

    /// For each polygon the place of its storey in the list.
    pub fn homes(&self) -> &[u32]
        ensures { result.now ≡ self.now.homes }
    {
        self.homes.as_slice()
    }

    /// The storeys, in order.
    pub fn list(&self) -> &[Storey]
        ensures value { result.now ≡ self.now.list }
        ensures rules { AreStoreys result.now }
    {
        self.list.as_slice()
    }

    /// How many cells the storey with a place in the list has, and between which floors they lie.
    pub fn reach(&self, storey: usize) -> StoreyReach
        requires { storey < length self.now.list }
        ensures { (it : Storey) → slice_get self.now.list storey ≡ Some it → IsReach it result }
    {
        self.reaches.as_slice()[storey]
    }

    /// How many cells all storeys have, and between which floors they lie.
    pub fn whole(&self) -> TileReach
        ensures { IsTileReach self.now.list result }
    {
        self.whole
    }

    /// The storey of the polygon with a place in the tile, from 0; none where there is none.
    pub fn of(&self, polygon: usize) -> Option<&Storey>
        ensures value { option_copied result ≡ storey_in self.now polygon }
        ensures rules { IfSome result (λ storey. IsStorey storey.now) }
    {
        self.list.get(*self.homes.get(polygon)? as usize)
    }
}

/// The storey of the polygon that a reference names; none where there is none.
pub fn storey_of(mesh: &Mesh, at: PolyRef) -> Option<&Storey>
    ensures value { option_copied result ≡ storey_at mesh.now at }
    ensures rules { IfSome result (λ storey. IsStorey storey.now) }
{
    mesh.tiles
        .get(at.tile as usize)?
        .get()
        .storeys
        .of(at.index as usize)
}

/// A place on a mesh: a polygon, a point that it holds, and the floor there.
#[derive(Clone, Copy, PartialEq, Eq)]
pub struct MeshPlace {
    pub polygon: PolyRef,
    /// In sixteenths of a cell.
    pub point: Point,
    /// In height units.
    pub y: u32,
}

impl Duplicate for FloorRow {
    fn duplicate(&self, alloc: Global) -> Result<Self, AllocError> {
        Ok(FloorRow {
            x0: self.x0,
            floors: self.floors.duplicate(alloc)?,
        })
    }
}

impl Duplicate for Storey {
    fn duplicate(&self, alloc: Global) -> Result<Self, AllocError> {
        Ok(Storey {
            area: self.area,
            z0: self.z0,
            rows: self.rows.duplicate(alloc)?,
        })
    }
}

impl Duplicate for Storeys {
    fn duplicate(&self, alloc: Global) -> Result<Self, AllocError> {
        Storeys::new(
            alloc,
            self.homes.duplicate(alloc)?,
            self.list.duplicate(alloc)?,
        )
    }
}
