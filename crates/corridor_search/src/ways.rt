//! The links of a mesh as flat lists, for searches of all of it. Nothing is promised of them.

ghost use Rattle.std.specs.Prelude.{◌<◌, length};

use crate::weights::{extent_at, root};
use mesh_types::{Extent, Mesh, PolyRef, TileMesh};
use nav_ground::Setting;
use std::alloc::{AllocError, Global};

/// A way from one polygon to another, by the other's number.
#[derive(Clone, Copy)]
pub(crate) struct FlatArc {
    pub(crate) to: u32,
    pub(crate) weight: u32,
}

/// The ways from each polygon. Polygons are numbered tile by tile.
#[derive(Drop)]
pub(crate) struct FlatArcs {
    /// By number, and after the last: where the ways from there begin.
    starts: Vec<u32>,
    ways: Vec<FlatArc>,
    /// The greatest weight of a way.
    heaviest: u32,
}

impl FlatArcs {
    /// The ways of a mesh.
    pub(crate) fn of(alloc: Global, mesh: &Mesh) -> Result<Self, AllocError> {
        let level = FlatMesh::of(alloc, mesh)?;
        let mut ways = FlatArcs {
            starts: Vec::with_capacity(alloc, level.spots.len().saturating_add(1))?,
            ways: Vec::new(alloc),
            heaviest: 0,
        };
        ways.starts.push(0)?;
        for tile in 0..mesh.tiles.len() {
            ways.add_tile(mesh, &level, tile)?;
        }
        Ok(ways)
    }

    /// The ways inside a tile, by the places of its polygons.
    pub(crate) fn inside(alloc: Global, mesh: &Mesh, tile: usize) -> Result<Self, AllocError> {
        let mut ways = FlatArcs {
            starts: Vec::new(alloc),
            ways: Vec::new(alloc),
            heaviest: 0,
        };
        ways.starts.push(0)?;
        if let Some(tile) = mesh.tiles.get(tile) {
            let tile = tile.get();
            for index in 0..tile.polys.len() {
                ways.add_inside(&mesh.setting, tile, index)?;
            }
        }
        Ok(ways)
    }

    /// Adds the ways from a polygon of a tile to others there.
    fn add_inside(
        &mut self,
        setting: &Setting,
        tile: &TileMesh,
        index: usize,
    ) -> Result<(), AllocError>
        requires { index < length tile.now.polys }
    {
        let left = spot_of(setting, tile.polys.extent(index));
        for polygon in tile.links.entered_from(low_half(index)) {
            let place = polygon.index as usize;
            if place < tile.polys.len() {
                let weight = lesser_weight(left, spot_of(setting, tile.polys.extent(place)));
                self.ways.push(FlatArc {
                    to: polygon.index,
                    weight,
                })?;
            }
        }
        self.starts.push(low_half(self.ways.len()))?;
        Ok(())
    }

    /// Adds the ways from the polygons of a tile.
    fn add_tile(&mut self, mesh: &Mesh, level: &FlatMesh, tile: usize) -> Result<(), AllocError>
        requires { tile < length mesh.now.tiles }
    {
        let inside = mesh.tiles.at(tile).get();
        let outside = mesh.cross.get(tile);
        let first = number_at(level.firsts.as_slice(), tile);
        for index in 0..inside.polys.len() {
            let place = low_half(index);
            let left = level.spot(first.wrapping_add(place));
            self.add(level, left, inside.links.entered_from(place))?;
            if let Some(links) = outside {
                self.add(level, left, links.get().entered_from(place))?;
            }
            self.starts.push(low_half(self.ways.len()))?;
        }
        Ok(())
    }

    /// Adds ways from a polygon to others.
    fn add(
        &mut self,
        level: &FlatMesh,
        left: FlatVertex,
        polygons: &[PolyRef],
    ) -> Result<(), AllocError> {
        for polygon in polygons {
            let to = number_at(level.firsts.as_slice(), polygon.tile as usize).wrapping_add(
                polygon.index,
            );
            let weight = lesser_weight(left, level.spot(to));
            self.heaviest = self.heaviest.max(weight);
            self.ways.push(FlatArc { to, weight })?;
        }
        Ok(())
    }

    /// How many polygons there are.
    pub(crate) fn polygons(&self) -> usize {
        self.starts.len().saturating_sub(1)
    }

    /// The ways from a polygon.
    pub(crate) fn from(&self, number: u32) -> &[FlatArc] {
        let place = number as usize;
        if self.starts.len() <= place + 1 {
            return &[];
        }
        let first = self.starts[place] as usize;
        let end = self.starts[place + 1] as usize;
        if first <= end && end <= self.ways.len() {
            &self.ways.as_slice()[first..end]
        } else {
            &[]
        }
    }

    /// The greatest weight of a way.
    pub(crate) fn heaviest(&self) -> u32 {
        self.heaviest
    }
}

/// The middle of a polygon's box, in half cells, and what its area costs.
#[derive(Clone, Copy)]
struct FlatVertex {
    x: i32,
    z: i32,
    cost: u32,
}

/// Where the polygons of a mesh stand, by number.
#[derive(Drop)]
struct FlatMesh {
    /// By tile: the number of its first polygon.
    firsts: Vec<u32>,
    spots: Vec<FlatVertex>,
}

impl FlatMesh {
    /// The polygons of a mesh.
    fn of(alloc: Global, mesh: &Mesh) -> Result<Self, AllocError> {
        let mut level = FlatMesh {
            firsts: Vec::with_capacity(alloc, mesh.tiles.len())?,
            spots: Vec::new(alloc),
        };
        for tile in 0..mesh.tiles.len() {
            let polygons = &mesh.tiles.at(tile).get().polys;
            level.firsts.push(low_half(level.spots.len()))?;
            for place in 0..polygons.len() {
                level
                    .spots
                    .push(spot_of(&mesh.setting, polygons.extent(place)))?;
            }
        }
        Ok(level)
    }

    /// Where a polygon stands; at (0, 0) where there is none.
    fn spot(&self, number: u32) -> FlatVertex {
        match self.spots.get(number as usize) {
            Some(spot) => *spot,
            None => FlatVertex {
                x: 0,
                z: 0,
                cost: 1,
            },
        }
    }
}

/// Where a polygon with an extent stands.
fn spot_of(setting: &Setting, extent: Extent) -> FlatVertex {
    let costs: &[u32] = &setting.costs;
    FlatVertex {
        x: extent.low.x.wrapping_add(extent.high.x),
        z: extent.low.z.wrapping_add(extent.high.z),
        cost: number_at(costs, extent.area as usize).max(1),
    }
}

/// The lowest 32 bits of a number.
pub(crate) fn low_half(number: usize) -> u32 {
    (number % 4294967296) as u32
}

/// The number at a place; 0 past the end.
pub(crate) fn number_at(numbers: &[u32], place: usize) -> u32 {
    match numbers.get(place) {
        Some(number) => *number,
        None => 0,
    }
}

/// What a link between two polygons of a mesh weighs at the lesser of the costs of their areas.
pub(crate) fn weight_between(mesh: &Mesh, left: PolyRef, entered: PolyRef) -> u32 {
    lesser_weight(
        spot_of(&mesh.setting, extent_at(mesh, left)),
        spot_of(&mesh.setting, extent_at(mesh, entered)),
    )
}

/// What a link between two polygons weighs at the lesser of the costs of their areas.
fn lesser_weight(left: FlatVertex, entered: FlatVertex) -> u32 {
    let across = left.x.abs_diff(entered.x).wrapping_mul(8);
    let along = left.z.abs_diff(entered.z).wrapping_mul(8);
    let square = across
        .wrapping_mul(across)
        .wrapping_add(along.wrapping_mul(along));
    root(u64::from(square))
        .max(1)
        .wrapping_mul(left.cost.min(entered.cost))
}
