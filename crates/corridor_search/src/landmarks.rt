//! Landmarks: heights of polygons, by which a search of a mesh that stands closes fewer of them.

ghost use Rattle.std.specs.Prelude.{◌≡◌, ℕ, true, All, IfOk, IfSome, min, slice_index_or};
ghost use Rattle.nav_ground.specs.Limits.{IsSetting};
ghost use Rattle.mesh_types.specs.Soundness.{IsSound};
ghost use Rattle.mesh_types.specs.Corridors.{IsLinkOf};
ghost use Rattle.corridor_search.specs.Islands.{inner_of, outer_of};
ghost use Rattle.corridor_search.specs.Changes.{AreSameBut, DifferIn};
ghost use Rattle.corridor_search.specs.Landmarks.{flat, heights_at, gap_of, are_alike, IsGentle, AreLandmarks};

use crate::changed::{WrittenRows, are_gentle_around, have_tiles, with_rows};
use crate::filling::fill;
use crate::islands::{inner_of, outer_of};
use crate::keeping::{Rows, keep};
use crate::weights::weight_over;
use mesh_types::{Link, Mesh, PolyRef};
use nav_ground::TileNo;
use nav_lists::Chunks;
use std::alloc::{AllocError, Global};
use std::marker::Model;

/// How many landmarks there are.
pub(crate) const LANDMARKS: usize = 8;

/// The height of a polygon that the landmark does not reach.
pub(crate) const UNREACHED: u32 = u32::MAX;

/// The heights of a polygon that has none.
pub(crate) const FLAT: [u32; LANDMARKS] = [0; LANDMARKS];

/// Heights of the polygons of a mesh over a few landmarks, which are polygons far from each other. The height of a polygon is the least cost
/// of a walk there from the landmark, each link of it weighed by the lesser of the costs of its two areas. So no walk between two polygons
/// costs less than the difference of their heights, and a search on the mesh that they were made for sees farther with them. They take 32
/// bytes a polygon.
#[derive(Drop)]
pub struct Landmarks {
    /// By tile, and by the polygon's place there. Landmarks of meshes that differ in a few tiles share the rows of the others.
    tiles: Rows,
}

impl Model for Landmarks {
    ghost use Rattle.corridor_search.specs.Landmarks.{Heights};

    ghost Value = { Heights };

    ghost view = { λ a. a.tiles };
}

impl Landmarks {
    /// The heights of a polygon over the landmarks, in order.
    pub(crate) fn heights(&self, at: PolyRef) -> [u32; LANDMARKS]
        ensures { result ≡ heights_at self.now at }
    {
        match self.tiles.get(at.tile as usize) {
            Some(rows) => heights_in(rows.get().as_slice(), at.index as usize),
            None => FLAT,
        }
    }
}

/// The heights at a place.
fn heights_in(rows: &[[u32; LANDMARKS]], place: usize) -> [u32; LANDMARKS]
    ensures { result ≡ slice_index_or rows.now place flat }
{
    match rows.get(place) {
        Some(heights) => *heights,
        None => FLAT,
    }
}

/// The greatest difference of the heights of two polygons over a landmark.
fn gap(heights: [u32; LANDMARKS], others: [u32; LANDMARKS]) -> u32
    ensures { result ≡ gap_of 8 heights others }
{
    let mut gap = 0u32;
    for place in 0..LANDMARKS {
        gap = gap.max(heights[place].abs_diff(others[place]));
    }
    gap
}

/// The same, or what 32 bits hold at most where that is less.
pub(crate) fn bound(heights: [u32; LANDMARKS], others: [u32; LANDMARKS]) -> u32
    ensures { result ≡ min (gap_of 8 heights others) 4294967295 }
{
    gap(heights, others).min(u32::MAX)
}

/// Whether each landmark reaches both of two polygons or neither.
pub(crate) fn are_alike(heights: [u32; LANDMARKS], others: [u32; LANDMARKS]) -> bool
    ensures { result ≡ are_alike 8 heights others }
{
    let mut alike = true;
    for place in 0..LANDMARKS {
        alike &= (heights[place] == UNREACHED) == (others[place] == UNREACHED);
    }
    alike
}

/// Whether it is seen that a landmark reaches a polygon. Heights of 0 do not tell: they are those of all polygons where landmarks are none.
pub(crate) fn are_seen(heights: [u32; LANDMARKS]) -> bool {
    for place in 0..LANDMARKS {
        if 0 < heights[place] && heights[place] < UNREACHED {
            return true;
        }
    }
    false
}

/// Landmarks of a mesh. It takes a search of the whole mesh for each, so they pay where many corridors of one mesh are asked for. A mesh on
/// which the heights that are found fail the test gets none, as one some of whose links have no links back. Only memory can be refused.
pub fn landmarks_of(alloc: Global, mesh: &Mesh) -> Result<Landmarks, AllocError>
    requires sound { IsSound mesh.now }
    requires setting { IsSetting mesh.now.setting }
    ensures { IfOk result (λ made. AreLandmarks mesh.now made) }
{
    let marks = Landmarks {
        tiles: fill(alloc, mesh)?,
    };
    if are_gentle(mesh, &marks) {
        Ok(marks)
    } else {
        let tiles = Chunks::from_vec(alloc, Vec::new(alloc))?;
        Ok(Landmarks { tiles })
    }
}

/// Landmarks of a mesh in which some tiles were replaced, made of those that it had before. All rows of heights are shared with them but those
/// of the new tiles and of polygons that are too high or too low beside these. None where these are too many, where there were no landmarks,
/// or where the heights fail the test. Only memory can be refused.
pub fn kept_landmarks(
    alloc: Global,
    old: &Landmarks,
    before: &Mesh,
    mesh: &Mesh,
    news: &[TileNo],
) -> Result<Option<Landmarks>, AllocError>
    requires sound { IsSound mesh.now }
    requires setting { IsSetting mesh.now.setting }
    requires old { AreLandmarks before.now old.now }
    requires differ { DifferIn news.now before.now mesh.now }
    ensures { IfOk result (λ kept. IfSome kept (AreLandmarks mesh.now)) }
{
    match keep(alloc, &old.tiles, mesh, news)? {
        Some(written) => {
            let made = with_rows(alloc, &old.tiles, written)?;
            Ok(tested(old, before, mesh, news, made))
        }
        None => Ok(None),
    }
}

/// Landmarks of a mesh in which some tiles were replaced, if the rows that were written keep the rule along all links that touch their tiles.
/// Along any other link it is kept, since the link was there before, with the same heights and the same weight.
fn tested(
    old: &Landmarks,
    before: &Mesh,
    mesh: &Mesh,
    news: &[TileNo],
    made: WrittenRows,
) -> Option<Landmarks>
    requires sound { IsSound mesh.now }
    requires setting { IsSetting mesh.now.setting }
    requires old { AreLandmarks before.now old.now }
    requires differ { DifferIn news.now before.now mesh.now }
    requires same { AreSameBut made.tiles.items old.now made.rows }
    ensures { IfSome result (AreLandmarks mesh.now) }
{
    let WrittenRows { rows, tiles } = made;
    let marks = Landmarks { tiles: rows };
    let written = tiles.as_slice();
    if have_tiles(written, news) && are_gentle_around(mesh, &marks, written) {
        Some(marks)
    } else {
        None
    }
}

/// Whether along no link a height rises or falls by more than the link weighs, nor a landmark reaches one end alone.
fn are_gentle(mesh: &Mesh, marks: &Landmarks) -> bool
    requires sound { IsSound mesh.now }
    requires setting { IsSetting mesh.now.setting }
    ensures { result ≡ true → AreLandmarks mesh.now marks.now }
{
    are_inner_gentle(mesh, marks) && are_outer_gentle(mesh, marks)
}

/// Whether that holds of the links inside tiles.
fn are_inner_gentle(mesh: &Mesh, marks: &Landmarks) -> bool
    requires sound { IsSound mesh.now }
    requires setting { IsSetting mesh.now.setting }
    ensures { result ≡ true → (t : ℕ) → All (IsGentle mesh.now marks.now) (inner_of mesh.now t) }
{
    for tile in 0..mesh.tiles.len() {
        if !are_gentle_along(mesh, marks, inner_of(mesh, tile)) {
            return false;
        }
    }
    true
}

/// Whether it holds of the links over the borders of tiles.
fn are_outer_gentle(mesh: &Mesh, marks: &Landmarks) -> bool
    requires sound { IsSound mesh.now }
    requires setting { IsSetting mesh.now.setting }
    ensures { result ≡ true → (t : ℕ) → All (IsGentle mesh.now marks.now) (outer_of mesh.now t) }
{
    for tile in 0..mesh.cross.len() {
        if !are_gentle_along(mesh, marks, outer_of(mesh, tile)) {
            return false;
        }
    }
    true
}

/// Whether it holds of some links.
pub(crate) fn are_gentle_along(mesh: &Mesh, marks: &Landmarks, links: &[Link]) -> bool
    requires sound { IsSound mesh.now }
    requires setting { IsSetting mesh.now.setting }
    requires links { All (IsLinkOf mesh.now) links.now }
    ensures { result ≡ true → All (IsGentle mesh.now marks.now) links.now }
{
    for link in links {
        if !is_gentle(mesh, marks, link) {
            return false;
        }
    }
    true
}

/// Whether it holds of one link.
pub(crate) fn is_gentle(mesh: &Mesh, marks: &Landmarks, link: &Link) -> bool
    requires sound { IsSound mesh.now }
    requires setting { IsSetting mesh.now.setting }
    requires link { IsLinkOf mesh.now link.now }
    ensures { result ≡ true → IsGentle mesh.now marks.now link.now }
{
    let heights = marks.heights(link.from);
    let others = marks.heights(link.to);
    are_alike(heights, others) && u64::from(gap(heights, others)) <= weight_over(mesh, link)
}
