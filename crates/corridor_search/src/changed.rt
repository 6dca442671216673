//! Heights over landmarks where tiles of a mesh were replaced: rows that were written among those that were there, and the test of the links
//! that touch their tiles.

ghost use Rattle.std.specs.Prelude.{◌≡◌, ◌≤◌, ℕ, true, All, Contains, IfOk};
ghost use Rattle.nav_ground.specs.Limits.{IsSetting};
ghost use Rattle.nav_ground.specs.Tiling.{tiles_in_row};
ghost use Rattle.mesh_types.specs.Soundness.{IsSound};
ghost use Rattle.mesh_types.specs.Corridors.{IsLinkOf};
ghost use Rattle.corridor_search.specs.Islands.{inner_of, outer_of};
ghost use Rattle.corridor_search.specs.Changes.{AreGentleAround, AreSameBut, IsBeside, IsGentleInto, IsNear};
ghost use Rattle.corridor_search.specs.Landmarks.{IsGentle};

use crate::islands::{inner_of, outer_of};
use crate::keeping::{Rows, TileRows};
use crate::landmarks::{Landmarks, are_gentle_along, is_gentle};
use mesh_types::{Link, Mesh};
use nav_ground::TileNo;
use nav_lists::{Duplicate, Items, Shared};
use std::alloc::{AllocError, Global};

/// Rows of heights, and the tiles whose rows were written.
#[derive(Drop)]
pub(crate) struct WrittenRows {
    pub(crate) rows: Rows,
    pub(crate) tiles: Vec<TileNo>,
}

/// Rows with those of some tiles written over; all others are shared with the rows as they were.
pub(crate) fn with_rows(
    alloc: Global,
    old: &Rows,
    written: Vec<TileRows>,
) -> Result<WrittenRows, AllocError>
    ensures { IfOk result (λ made. AreSameBut made.tiles.items old.now made.rows) }
{
    let mut rows = old.duplicate(alloc)?;
    let mut tiles = Vec::with_capacity(alloc, written.len())?;
    for new in written {
        let TileRows { tile, rows: own } = new;
        rows.set(
            alloc,
            tile as usize,
            Shared::new(alloc, Items::from_vec(own))?,
        )?;
        tiles.push(tile)?;
    }
    Ok(WrittenRows { rows, tiles })
}

/// Whether the first tiles whose rows were written are those that are new, in the same order.
pub(crate) fn have_tiles(written: &[TileNo], news: &[TileNo]) -> bool
    ensures { result ≡ true → All (Contains written.now) news.now }
{
    for place in 0..news.len() {
        if written.len() <= place || written[place] != news[place] {
            return false;
        }
    }
    true
}

/// Whether along no link that touches one of some tiles a height rises or falls by more than the link weighs, nor a landmark reaches one end
/// alone.
pub(crate) fn are_gentle_around(mesh: &Mesh, marks: &Landmarks, tiles: &[TileNo]) -> bool
    requires sound { IsSound mesh.now }
    requires setting { IsSetting mesh.now.setting }
    ensures { result ≡ true → All (AreGentleAround mesh.now marks.now) tiles.now }
{
    for tile in tiles {
        if !is_gentle_around(mesh, marks, *tile) {
            return false;
        }
    }
    true
}

/// Whether it holds of the links that touch one tile.
fn is_gentle_around(mesh: &Mesh, marks: &Landmarks, tile: TileNo) -> bool
    requires sound { IsSound mesh.now }
    requires setting { IsSetting mesh.now.setting }
    ensures { result ≡ true → AreGentleAround mesh.now marks.now tile }
{
    let number = tile as usize;
    if !are_inner_gentle_in(mesh, marks, number) || !are_outer_gentle_from(mesh, marks, number) {
        return false;
    }
    are_gentle_beside(mesh, marks, tile)
}

/// Whether it holds of the links inside a tile.
fn are_inner_gentle_in(mesh: &Mesh, marks: &Landmarks, tile: usize) -> bool
    requires sound { IsSound mesh.now }
    requires setting { IsSetting mesh.now.setting }
    ensures { result ≡ true → All (IsGentle mesh.now marks.now) (inner_of mesh.now tile) }
{
    are_gentle_along(mesh, marks, inner_of(mesh, tile))
}

/// Whether it holds of the links that leave a tile over its border.
fn are_outer_gentle_from(mesh: &Mesh, marks: &Landmarks, tile: usize) -> bool
    requires sound { IsSound mesh.now }
    requires setting { IsSetting mesh.now.setting }
    ensures { result ≡ true → All (IsGentle mesh.now marks.now) (outer_of mesh.now tile) }
{
    are_gentle_along(mesh, marks, outer_of(mesh, tile))
}

/// Whether it holds of the links that enter a tile from tiles beside it: in the row of tiles before, in the same, and in the one behind.
fn are_gentle_beside(mesh: &Mesh, marks: &Landmarks, tile: TileNo) -> bool
    requires sound { IsSound mesh.now }
    requires setting { IsSetting mesh.now.setting }
    ensures { result ≡ true → (t : ℕ) → IsBeside (tiles_in_row mesh.now.setting) tile t → All (IsGentleInto mesh.now marks.now tile) (outer_of mesh.now t) }
{
    let row = mesh.setting.width.div_ceil(mesh.setting.tile) as usize;
    let number = tile as usize;
    let before = number.saturating_sub(row);
    if !are_gentle_near(mesh, marks, tile, before) || !are_gentle_near(mesh, marks, tile, number) {
        return false;
    }
    are_gentle_near(mesh, marks, tile, number + row)
}

/// Whether it holds of the links that enter a tile from one with a given number, or with the number before or behind.
fn are_gentle_near(mesh: &Mesh, marks: &Landmarks, tile: TileNo, middle: usize) -> bool
    requires sound { IsSound mesh.now }
    requires setting { IsSetting mesh.now.setting }
    requires small { middle ≤ 8589934592 }
    ensures { result ≡ true → (t : ℕ) → IsNear middle t → All (IsGentleInto mesh.now marks.now tile) (outer_of mesh.now t) }
{
    for beside in middle.saturating_sub(1)..middle + 2 {
        if !are_gentle_into(mesh, marks, tile, outer_of(mesh, beside)) {
            return false;
        }
    }
    true
}

/// Whether it holds of those of some links that enter a tile.
fn are_gentle_into(mesh: &Mesh, marks: &Landmarks, tile: TileNo, links: &[Link]) -> bool
    requires sound { IsSound mesh.now }
    requires setting { IsSetting mesh.now.setting }
    requires links { All (IsLinkOf mesh.now) links.now }
    ensures { result ≡ true → All (IsGentleInto mesh.now marks.now tile) links.now }
{
    for link in links {
        if !is_gentle_into(mesh, marks, tile, link) {
            return false;
        }
    }
    true
}

/// Whether it holds of one link, if it enters the tile.
fn is_gentle_into(mesh: &Mesh, marks: &Landmarks, tile: TileNo, link: &Link) -> bool
    requires sound { IsSound mesh.now }
    requires setting { IsSetting mesh.now.setting }
    requires link { IsLinkOf mesh.now link.now }
    ensures { result ≡ true → IsGentleInto mesh.now marks.now tile link.now }
{
    link.to.tile != tile || is_gentle(mesh, marks, link)
}
