//! The mesh of a whole ground. The mesh of one tile.

ghost use Rattle.std.specs.Prelude.{◌≡◌, IfOk};
ghost use Rattle.mesh_types.specs.WholeMesh.{poly_at};

use crate::links::{Links, PolyRef};
use crate::polygon::Polygon;
use crate::polygons::Polygons;
use crate::storeys::Storeys;
use nav_ground::{PackedFreeLayer, Setting, TileNo};
use nav_lists::{Chunks, Duplicate, Items, Shared};
use std::alloc::{AllocError, Global};

/// The tiles of a ground, in order, and for each of them the links that leave it for the tiles across its sides. Meshes that differ in a few
/// tiles share the others, chunk by chunk.
#[derive(Drop)]
pub struct Mesh {
    /// Width and depth in columns, the tile's size, the agent, the costs of areas.
    pub setting: Setting,
    /// By tile number.
    pub tiles: Chunks<Shared<TileMesh>>,
    /// By tile number: the links that leave the tile's polygons over its borders.
    pub cross: Chunks<Shared<Links>>,
}

/// The polygon that a reference names; none exactly where there is no such polygon.
pub fn poly(mesh: &Mesh, at: PolyRef) -> Option<Polygon>
    ensures { result ≡ poly_at mesh.now at }
{
    match mesh.tiles.get(at.tile as usize) {
        Some(tile) => tile.get().polys.get(at.index as usize),
        None => None,
    }
}

/// A tile equal to the one that is lent, with memory of its own.
pub fn copy_tile(alloc: Global, tile: &TileMesh) -> Result<TileMesh, AllocError>
    ensures { IfOk result (λ copy. copy ≡ tile.now) }
{
    tile.duplicate(alloc)
}

/// A mesh equal to the one that is lent; the two share their tiles and lists of links.
pub fn copy_mesh(alloc: Global, mesh: &Mesh) -> Result<Mesh, AllocError>
    ensures { IfOk result (λ copy. copy ≡ mesh.now) }
{
    mesh.duplicate(alloc)
}

impl Duplicate for Mesh {
    fn duplicate(&self, alloc: Global) -> Result<Self, AllocError> {
        Ok(Mesh {
            setting: self.setting,
            tiles: self.tiles.duplicate(alloc)?,
            cross: self.cross.duplicate(alloc)?,
        })
    }
}

/// At one position of a tile's side: the level of the tile's own cell, and that of the cell across to which it is connected.
#[derive(Clone, Copy, PartialEq, Eq, Debug)]
pub struct LevelPair {
    /// The level of the tile's own cell in its column, counted from the bottom, 0.
    pub own: u32,
    /// The level of the cell across in its column.
    pub other: u32,
}

/// A part of a polygon's edge that runs along a side of the tile, at successive positions, each with a cell across that is no obstacle's
/// matter: kept by the ground, whether blocked or not. A position is z on the sides 0 and 2, and x on the sides 1 and 3.
#[derive(Drop)]
pub struct RimEdge {
    /// The polygon's place in the tile, from 0.
    pub poly: u32,
    /// The edge's place in the polygon, from 0.
    pub edge: u32,
    /// The direction in which the tile ends there: 0 is x - 1, 1 is z + 1, 2 is x + 1, 3 is z - 1.
    pub side: u32,
    /// The least position, in cells.
    pub first: u32,
    /// The levels at each position, from the first on.
    pub pairs: Items<LevelPair>,
}

/// A tile's free cells, its polygons, the links between them, and what its rim offers to the tiles across.
#[derive(Drop)]
pub struct TileMesh {
    /// The tile's number, row by row, from 0.
    pub tile: TileNo,
    /// The cells that no obstacle covers.
    pub free: PackedFreeLayer,
    pub polys: Polygons,
    /// The links between polygons of this tile.
    pub links: Links,
    /// Where its polygons reach the tile's border.
    pub rim: Items<RimEdge>,
    /// The free cells by region or by strip, with their floors, and which of these is each polygon's own.
    pub storeys: Storeys,
}

impl Duplicate for RimEdge {
    fn duplicate(&self, alloc: Global) -> Result<Self, AllocError> {
        Ok(RimEdge {
            poly: self.poly,
            edge: self.edge,
            side: self.side,
            first: self.first,
            pairs: self.pairs.duplicate(alloc)?,
        })
    }
}

impl Duplicate for TileMesh {
    fn duplicate(&self, alloc: Global) -> Result<Self, AllocError> {
        Ok(TileMesh {
            tile: self.tile,
            free: self.free.duplicate(alloc)?,
            polys: self.polys.duplicate(alloc)?,
            links: self.links.duplicate(alloc)?,
            rim: self.rim.duplicate(alloc)?,
            storeys: self.storeys.duplicate(alloc)?,
        })
    }
}
