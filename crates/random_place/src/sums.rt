//! How many spots there are up to each tile of a mesh. Sums that are kept spare later draws the count of all spots.

ghost use Rattle.std.specs.Prelude.{◌≡◌, ◌≤◌, ◌<◌, ◌^◌, IfOk, IfSome, length, nat_le, slice_get, true, false};
ghost use Rattle.std.specs.List.Sorted.{IsPartitionPoint};
ghost use Rattle.nav_ground.specs.Limits.{IsSetting};
ghost use Rattle.mesh_types.specs.Soundness.{IsSound};
ghost use Rattle.random_place.specs.Spots.{IsInField, spots_of};
ghost use Rattle.random_place.specs.Sums.{AreSpotSums, IsRising, sum_of_first};

use crate::counts::count_in_tile;
use crate::spots::{StoreyCell, spot_in_tile};
use mesh_types::Mesh;
use nav_lists::Items;
use std::alloc::{AllocError, Global};

/// For each tile of a mesh how many spots it and the tiles before it have, of some areas.
#[derive(Drop)]
pub struct SpotSums {
    /// Bit a, from 0 for the lowest: spots of area a are counted.
    pub areas: u64,
    /// By tile number.
    pub ends: Items<u128>,
}

/// The sums of a mesh.
pub(crate) fn sum_spots(alloc: Global, mesh: &Mesh, areas: u64) -> Result<SpotSums, AllocError>
    requires sound { IsSound mesh.now }
    requires setting { IsSetting mesh.now.setting }
    ensures sums { IfOk result (AreSpotSums mesh.now) }
    ensures areas { IfOk result (λ sums. sums.areas ≡ areas) }
{
    let mut ends = Vec::with_capacity(alloc, mesh.tiles.len())?;
    let mut count = 0;
    for tile in 0..mesh.tiles.len() {
        count += count_in_tile(&mesh.tiles.at(tile).get().storeys, areas);
        ends.push(count)?;
    }
    Ok(SpotSums {
        areas,
        ends: Items::from_vec(ends),
    })
}

/// The spot with a number, from 0, by the sums; none where there are fewer.
pub(crate) fn spot_by_sums(mesh: &Mesh, sums: &SpotSums, number: u128) -> Option<StoreyCell>
    requires sound { IsSound mesh.now }
    requires setting { IsSetting mesh.now.setting }
    requires sums { AreSpotSums mesh.now sums.now }
    ensures value { result ≡ slice_get (spots_of mesh.now sums.now.areas) number }
    ensures inside { IfSome result IsInField }
{
    let ends = sums.ends.as_slice();
    let tile = tiles_up_to(ends, number);
    if tile >= ends.len() {
        return None;
    }
    let storeys = &mesh.tiles.at(tile).get().storeys;
    let left = number - sum_of_first(ends, tile);
    spot_in_tile(storeys, sums.areas, tile as u32, left)
}

/// How many tiles there are whose spots, and those of the tiles before them, are no more than a number.
fn tiles_up_to(ends: &[u128], number: u128) -> usize
    requires { IsRising ends.now }
    ensures most { result ≤ length ends.now }
    ensures point { IsPartitionPoint (λ end. nat_le end number ≡ true) (λ end. nat_le end number ≡ false) ends.now result }
{
    ends.partition_point(|end| is_up_to(*end, number))
}

/// Whether a sum is no more than a number.
fn is_up_to(sum: u128, number: u128) -> bool
    ensures { result ≡ nat_le sum number }
{
    sum <= number
}

/// How many spots the first tiles have, so many of them.
pub(crate) fn sum_of_first(ends: &[u128], tiles: usize) -> u128
    requires { tiles ≤ length ends.now }
    ensures { result ≡ sum_of_first ends.now tiles }
{
    if tiles == 0 { 0 } else { ends[tiles - 1] }
}
