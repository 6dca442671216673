//! How many spots there are in a mesh, a tile and a storey.

ghost use Rattle.std.specs.Prelude.{◌≡◌, ◌^◌, ◌≤◌, ◌<◌, length};
ghost use Rattle.nav_ground.specs.Limits.{IsSetting};
ghost use Rattle.mesh_types.specs.Reaches.{IsReach};
ghost use Rattle.mesh_types.specs.Soundness.{IsSound};
ghost use Rattle.mesh_types.specs.Storeys.{IsStorey};
ghost use Rattle.random_place.specs.Spots.{open_cells, open_cells_in, spots_of};

use mesh_place::is_open;
use mesh_types::{Mesh, Storey, StoreyReach, Storeys};

/// How many spots a mesh has. The storeys of a tile have no limit but memory, so that the count is in 128 bits.
pub(crate) fn count_spots(mesh: &Mesh, areas: u64) -> u128
    requires sound { IsSound mesh.now }
    requires setting { IsSetting mesh.now.setting }
    ensures value { result ≡ length (spots_of mesh.now areas) }
    ensures bound { result < 2 ^ 112 }
{
    let mut count = 0;
    for tile in 0..mesh.tiles.len() {
        count += count_in_tile(&mesh.tiles.at(tile).get().storeys, areas);
    }
    count
}

/// How many cells the storeys of a tile have that are of an open area. Storeys are looked at one by one only where they are of several areas,
/// some of them closed.
pub(crate) fn count_in_tile(storeys: &Storeys, areas: u64) -> u128
    ensures value { result ≡ open_cells_in areas storeys.now.list }
    ensures bound { result ≤ 2 ^ 84 }
{
    if storeys.list().is_empty() {
        return 0;
    }
    let whole = storeys.whole();
    if areas == u64::MAX {
        return whole.cells;
    }
    if whole.area == 0 || whole.area > 63 {
        return count_by_storey(storeys, areas);
    }
    if is_open(areas, whole.area) {
        whole.cells
    } else {
        0
    }
}

/// The same, storey by storey.
fn count_by_storey(storeys: &Storeys, areas: u64) -> u128
    ensures value { result ≡ open_cells_in areas storeys.now.list }
    ensures bound { result ≤ 2 ^ 84 }
{
    let list = storeys.list();
    let mut count = 0;
    for storey in 0..list.len() {
        let here = &list[storey];
        count += u128::from(count_open(here, storeys.reach(storey), areas));
    }
    count
}

/// How many cells a storey has, by its reach; none where its area is not open.
pub(crate) fn count_open(storey: &Storey, reach: StoreyReach, areas: u64) -> u32
    requires storey { IsStorey storey.now }
    requires reach { IsReach storey.now reach }
    ensures value { result ≡ open_cells areas storey.now }
    ensures bound { result ≤ 1048576 }
{
    if is_open(areas, storey.area) {
        reach.cells
    } else {
        0
    }
}
