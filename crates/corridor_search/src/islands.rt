//! Islands around goals: where a goal stands on a small one that no link leads to, no walk leads there.

ghost use Rattle.std.specs.Prelude.{◌≡◌, ◌<◌, true, false, ℕ, Contains, All, IfOk, IfSome, OnOk};
ghost use Rattle.nav_ground.specs.Limits.{IsSetting};
ghost use Rattle.mesh_types.specs.Soundness.{IsSound};
ghost use Rattle.corridor_search.specs.MeshGraphs.{IsApart};
ghost use Rattle.corridor_search.specs.Islands.{inner_of, outer_of, IsFromInside, IsLeftAlone, IsReached, AreFar};

use crate::mesh_graph::{entered_inside, entered_outside};
use mesh_types::{Link, Mesh, PolyRef};
use std::alloc::{AllocError, Global};

/// How many polygons an island that is looked at may have.
const MOST: usize = 128;

/// How many slots the table of an island's polygons has, a power of two.
const SLOTS: usize = 512;

/// Whether it is seen from the goal that no walk leads there: the polygons that links lead to from it are few, the start is none of them,
/// and no link leads to them from outside.
pub(crate) fn is_cut_off(
    alloc: Global,
    mesh: &Mesh,
    from: PolyRef,
    to: PolyRef,
) -> Result<bool, AllocError>
    requires sound { IsSound mesh.now }
    requires setting { IsSetting mesh.now.setting }
    ensures { IfOk result (λ apart. apart ≡ true → IsApart mesh.now from to) }
{
    let island = island_of(alloc, mesh, from, to)?;
    let island = island.as_slice();
    if island.len() > MOST || !has(island, to) || has(island, from) {
        return Ok(false);
    }
    let tiles = tiles_of(alloc, island)?;
    Ok(is_left_alone(mesh, island, tiles.as_slice()))
}

/// The polygons that links lead to from the goal, the nearest first; some of them where they are more than `MOST`, or where the start is met.
/// Nothing is promised of them: they are tested.
fn island_of(
    alloc: Global,
    mesh: &Mesh,
    from: PolyRef,
    to: PolyRef,
) -> Result<Vec<PolyRef>, AllocError> {
    let mut island = Vec::with_capacity(alloc, MOST + 1)?;
    let mut slots = [0; SLOTS];
    add(&mut island, &mut slots, &[to])?;
    let mut place = 0;
    while place < MOST && place < island.len() && island.len() <= MOST {
        let at = island[place];
        if at == from {
            break;
        }
        add(&mut island, &mut slots, entered_inside(mesh, at))?;
        add(&mut island, &mut slots, entered_outside(mesh, at))?;
        place += 1;
    }
    Ok(island)
}

/// Adds those of some polygons that an island does not have, until it has more than `MOST`. A slot holds the place of a polygon in the island,
/// counted from 1, or 0.
fn add(
    island: &mut Vec<PolyRef>,
    slots: &mut [u16; SLOTS],
    polygons: &[PolyRef],
) -> Result<(), AllocError> {
    for at in polygons {
        let count = island.len();
        if count > MOST {
            break;
        }
        if let Some(slot) = free_slot(island.as_slice(), slots, *at) {
            island.push(*at)?;
            slots[slot] = count as u16 + 1;
        }
    }
    Ok(())
}

/// The slot for a polygon that an island does not have; none where it has the polygon.
fn free_slot(island: &[PolyRef], slots: &[u16; SLOTS], at: PolyRef) -> Option<usize>
    ensures { IfSome result (λ slot. slot < 512) }
{
    let mixed = at.tile.wrapping_mul(2654435761) ^ at.index.wrapping_mul(2246822519);
    let first = (mixed >> 23) as usize;
    for step in 0..SLOTS {
        let slot = (first + step) % SLOTS;
        let place = slots[slot] as usize;
        if place == 0 {
            return Some(slot);
        }
        if island.get(place - 1) == Some(&at) {
            return None;
        }
    }
    None
}

/// Whether an island has a polygon.
fn has(island: &[PolyRef], at: PolyRef) -> bool
    ensures there { result ≡ true → Contains island.now at }
    ensures not { result ≡ false → Contains island.now at → ⊥ }
{
    for other in island {
        if *other == at {
            return true;
        }
    }
    false
}

/// Whether each link that leads to a polygon of an island leaves one. The tiles in which the island has polygons are among those given.
fn is_left_alone(mesh: &Mesh, island: &[PolyRef], tiles: &[u32]) -> bool
    requires sound { IsSound mesh.now }
    requires setting { IsSetting mesh.now.setting }
    requires reach { All (IsReached tiles.now) island.now }
    ensures { result ≡ true → IsLeftAlone mesh.now island.now }
{
    are_inner_alone(mesh, island, tiles) && are_outer_alone(mesh, island, tiles)
}

/// The tiles in which an island has polygons.
fn tiles_of(alloc: Global, island: &[PolyRef]) -> Result<Vec<u32>, AllocError>
    ensures { IfOk result (λ tiles. All (IsReached tiles.items) island.now) }
{
    let mut tiles = Vec::new(alloc);
    for at in island {
        add_tile(&mut tiles, at.tile)?;
    }
    Ok(tiles)
}

/// Adds a tile to some, where it is none of them.
fn add_tile(tiles: &mut Vec<u32>, tile: u32) -> Result<(), AllocError>
    ensures there { OnOk result (Contains tiles.new.items tile) }
    ensures kept { OnOk result ((t : ℕ) → Contains tiles.old.items t → Contains tiles.new.items t) }
{
    if !has_tile(tiles.as_slice(), tile as usize) {
        tiles.push(tile)?;
    }
    Ok(())
}

/// Whether a tile is one of some.
fn has_tile(tiles: &[u32], tile: usize) -> bool
    ensures there { result ≡ true → Contains tiles.now tile }
    ensures not { result ≡ false → Contains tiles.now tile → ⊥ }
{
    for other in tiles {
        if *other as usize == tile {
            return true;
        }
    }
    false
}

/// Whether that holds of the links inside tiles. No link inside a tile in which the island has no polygon leads to it.
fn are_inner_alone(mesh: &Mesh, island: &[PolyRef], tiles: &[u32]) -> bool
    requires sound { IsSound mesh.now }
    requires reach { All (IsReached tiles.now) island.now }
    ensures { result ≡ true → (t : ℕ) → All (IsFromInside island.now) (inner_of mesh.now t) }
{
    for tile in 0..mesh.tiles.len() {
        if has_tile(tiles, tile) && !are_alone(island, tiles, inner_of(mesh, tile)) {
            return false;
        }
    }
    true
}

/// Whether it holds of the links over the borders of tiles. They lead to tiles whose squares touch: in the same row of tiles, or the next.
fn are_outer_alone(mesh: &Mesh, island: &[PolyRef], tiles: &[u32]) -> bool
    requires sound { IsSound mesh.now }
    requires setting { IsSetting mesh.now.setting }
    requires reach { All (IsReached tiles.now) island.now }
    ensures { result ≡ true → (t : ℕ) → All (IsFromInside island.now) (outer_of mesh.now t) }
{
    let row = mesh.setting.width.div_ceil(mesh.setting.tile);
    for tile in 0..mesh.cross.len() {
        if is_beside(tiles, tile, row) && !are_alone(island, tiles, outer_of(mesh, tile)) {
            return false;
        }
    }
    true
}

/// Whether the numbers of a tile and of one of some tiles differ by no more than one more than given.
fn is_beside(tiles: &[u32], tile: usize, row: u32) -> bool
    ensures { result ≡ false → All (AreFar row tile) tiles.now }
{
    for other in tiles {
        if tile.abs_diff(*other as usize) <= row as usize + 1 {
            return true;
        }
    }
    false
}

/// Whether it holds of some links.
fn are_alone(island: &[PolyRef], tiles: &[u32], links: &[Link]) -> bool
    requires { All (IsReached tiles.now) island.now }
    ensures { result ≡ true → All (IsFromInside island.now) links.now }
{
    for link in links {
        if has_tile(tiles, link.to.tile as usize)
            && has(island, link.to)
            && !has(island, link.from)
        {
            return false;
        }
    }
    true
}

/// The links inside a tile.
pub(crate) fn inner_of(mesh: &Mesh, tile: usize) -> &[Link]
    ensures { result.now ≡ inner_of mesh.now tile }
{
    match mesh.tiles.get(tile) {
        Some(tile) => tile.get().links.as_slice(),
        None => &[],
    }
}

/// The links that leave a tile over its border.
pub(crate) fn outer_of(mesh: &Mesh, tile: usize) -> &[Link]
    ensures { result.now ≡ outer_of mesh.now tile }
{
    match mesh.cross.get(tile) {
        Some(links) => links.get().as_slice(),
        None => &[],
    }
}
