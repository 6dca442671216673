//! The spot with a number.

ghost use Rattle.std.specs.Prelude.{◌≡◌, ◌<◌, IfSome, slice_get};
ghost use Rattle.nav_ground.specs.Limits.{IsSetting};
ghost use Rattle.mesh_types.specs.Soundness.{IsSound};
ghost use Rattle.mesh_types.specs.Storeys.{IsFloorRow, IsStorey};
ghost use Rattle.random_place.specs.Spots.{IsInField, row_spots, spots_of, storey_spots, tile_spots};

use crate::counts::{count_in_tile, count_open};
use mesh_types::{FloorRow, Mesh, Storey, Storeys};

/// A cell of a storey of a mesh.
#[derive(Clone, Copy, PartialEq, Eq)]
pub struct StoreyCell {
    /// The tile's number.
    pub tile: u32,
    /// The storey's place in the tile, from 0.
    pub storey: usize,
    /// In cells.
    pub x: u32,
    pub z: u32,
    /// In height units.
    pub floor: u32,
}

/// A storey by its tile's number and its place in the tile.
#[derive(Clone, Copy)]
pub struct Home {
    pub tile: u32,
    pub storey: usize,
}

/// The spot with a number, from 0; none where there are fewer.
pub(crate) fn spot_at(mesh: &Mesh, areas: u64, number: u128) -> Option<StoreyCell>
    requires sound { IsSound mesh.now }
    requires setting { IsSetting mesh.now.setting }
    ensures value { result ≡ slice_get (spots_of mesh.now areas) number }
    ensures inside { IfSome result IsInField }
{
    let mut left = number;
    for tile in 0..mesh.tiles.len() {
        let storeys = &mesh.tiles.at(tile).get().storeys;
        let count = count_in_tile(storeys, areas);
        if left < count {
            return spot_in_tile(storeys, areas, tile as u32, left);
        }
        left -= count;
    }
    None
}

/// The spot with a number, from 0, of those of a tile; none where there are fewer.
pub(crate) fn spot_in_tile(
    storeys: &Storeys,
    areas: u64,
    tile: u32,
    number: u128,
) -> Option<StoreyCell>
    ensures value { result ≡ slice_get (tile_spots areas tile storeys.now.list) number }
    ensures inside { IfSome result IsInField }
{
    let list = storeys.list();
    let mut left = number;
    for storey in 0..list.len() {
        let here = &list[storey];
        let count = u128::from(count_open(here, storeys.reach(storey), areas));
        if left < count {
            return spot_in_storey(here, Home { tile, storey }, left as usize);
        }
        left -= count;
    }
    None
}

/// The spot with a number, from 0, of those of a storey; none where there are fewer.
fn spot_in_storey(storey: &Storey, home: Home, number: usize) -> Option<StoreyCell>
    requires { IsStorey storey.now }
    ensures value { result ≡ slice_get (storey_spots home storey.now) number }
    ensures inside { IfSome result IsInField }
{
    let rows = storey.rows.as_slice();
    let mut left = number;
    for row in 0..rows.len() {
        let here = &rows[row];
        let count = here.floors.len();
        if left < count {
            return spot_in_row(here, home, storey.z0 + row as u32, left);
        }
        left -= count;
    }
    None
}

/// The spot with a number, from 0, of those of a row; none where there are fewer.
fn spot_in_row(row: &FloorRow, home: Home, z: u32, number: usize) -> Option<StoreyCell>
    requires row { IsFloorRow row.now }
    requires along { z < 1024 }
    ensures value { result ≡ slice_get (row_spots home z row.now) number }
    ensures inside { IfSome result IsInField }
{
    let floor = row.floors.get(number)?;
    Some(StoreyCell {
        tile: home.tile,
        storey: home.storey,
        x: row.x0 + number as u32,
        z,
        floor: u32::from(*floor),
    })
}
