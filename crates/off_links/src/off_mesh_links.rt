//! Joined jumps, by the polygon that they leave. Slots: one look tells of most polygons that no off-mesh link leaves them.

ghost use Rattle.std.specs.Prelude.{◌≡◌, ◌≤◌, ◌<◌, ◌+◌, ◌*◌, true, false, IfOk, IfSome, IfNone, All, filter, length, slice_index_or};
ghost use Rattle.std.specs.List.Sorted.{IsPartitionedBy, IsPartitionPoint};
ghost use Rattle.nav_ground.specs.Limits.{IsSetting};
ghost use Rattle.mesh_types.specs.declared.links.PolyRef.{PolyRef};
ghost use Rattle.mesh_types.specs.Hops.{IsJoined};
ghost use Rattle.mesh_types.specs.Soundness.{IsSound};
ghost use Rattle.off_links.specs.OffMeshLinks.{HasJumpCoordinates, AreJumps, IsOffMeshLinkOf, AreOffMeshLinks, AreInOrder, HasPlace, has_number, leaves, no_off_mesh_link};
ghost use Rattle.off_links.specs.Slots.{HaveSlots, slot_of};

use mesh_locate::locate;
use mesh_types::{Jump, Mesh, PolyRef};
use std::alloc::{AllocError, Global};

/// A joined jump: the polygon that it leaves, the one that it enters, its number, and its cost.
#[derive(Clone, Copy)]
pub(crate) struct OffMeshLink {
    pub(crate) from: PolyRef,
    pub(crate) to: PolyRef,
    pub(crate) number: u32,
    pub(crate) cost: u32,
}

/// The joined ones of jumps, in order of the polygons that they leave.
pub(crate) fn off_mesh_links(
    alloc: Global,
    mesh: &Mesh,
    jumps: &[Jump],
) -> Result<Vec<OffMeshLink>, AllocError>
    requires sound { IsSound mesh.now }
    requires setting { IsSetting mesh.now.setting }
    requires jumps { AreJumps jumps.now }
    ensures { IfOk result (λ off_mesh_links. AreOffMeshLinks mesh.now jumps.now off_mesh_links.items) }
{
    let mut off_mesh_links = Vec::new(alloc);
    for (number, jump) in jumps.iter().enumerate() {
        match joined(mesh, number as u32, *jump) {
            Some(off_mesh_link) => off_mesh_links.push(off_mesh_link)?,
            None => {}
        }
    }
    off_mesh_links.sort_unstable_by(|a, b| off_mesh_link_number(a).cmp(&off_mesh_link_number(b)));
    Ok(off_mesh_links)
}

/// The off-mesh link of a jump with a number; none where it is not joined.
fn joined(mesh: &Mesh, number: u32, jump: Jump) -> Option<OffMeshLink>
    requires sound { IsSound mesh.now }
    requires setting { IsSetting mesh.now.setting }
    requires coordinates { HasJumpCoordinates jump }
    ensures joined { IfSome result (λ off_mesh_link. IsOffMeshLinkOf mesh.now number jump off_mesh_link) }
    ensures none { IfNone result ((from to : PolyRef) → IsJoined mesh.now jump from to → ⊥) }
{
    let Some(from) = locate(mesh, jump.from, jump.from_y) else {
        return None;
    };
    let Some(to) = locate(mesh, jump.to, jump.to_y) else {
        return None;
    };
    Some(off_mesh_link_by(number, jump.cost, from, to))
}

/// The off-mesh link of a jump with a number and a cost, between two polygons.
fn off_mesh_link_by(number: u32, cost: u32, from: PolyRef, to: PolyRef) -> OffMeshLink
    ensures value { result ≡ record { from = from; to = to; number = number; cost = cost } }
    ensures light { cost ≤ 4294967295 }
{
    OffMeshLink {
        from,
        to,
        number,
        cost,
    }
}

/// A number for each polygon, by which they stand in order of tiles and, in a tile, of places.
fn number(tile: u32, index: u32) -> u64
    ensures value { result ≡ tile * 4294967296 + index }
    ensures small { index < 4294967296 }
{
    u64::from(tile) * 4294967296 + u64::from(index)
}

/// The number of the polygon that an off-mesh link leaves.
fn off_mesh_link_number(off_mesh_link: &OffMeshLink) -> u64
    ensures { result ≡ Rattle.off_links.specs.OffMeshLinks.off_mesh_link_number off_mesh_link.now }
{
    number(off_mesh_link.from.tile, off_mesh_link.from.index)
}

/// The off-mesh links that leave a polygon.
pub(crate) fn leaving(off_mesh_links: &[OffMeshLink], at: PolyRef) -> &[OffMeshLink]
    requires order { AreInOrder off_mesh_links.now }
    requires places { All HasPlace off_mesh_links.now }
    ensures { result.now ≡ filter (leaves at) off_mesh_links.now }
{
    let own = number(at.tile, at.index);
    let first = off_mesh_links.partition_point(|off_mesh_link| off_mesh_link_number(off_mesh_link)
        < own);
    let rest = &off_mesh_links[first..];
    &rest[..run_length(rest, own)]
}

/// How many off-mesh links at the beginning leave the polygon with a number: none of most polygons, so they are looked at one by one.
fn run_length(off_mesh_links: &[OffMeshLink], own: u64) -> usize
    requires { IsPartitionedBy (has_number own) off_mesh_links.now }
    ensures within { result ≤ length off_mesh_links.now }
    ensures all { IsPartitionPoint (λ off_mesh_link. has_number own off_mesh_link ≡ true) (λ off_mesh_link. has_number own off_mesh_link ≡ false) off_mesh_links.now result }
{
    for (count, off_mesh_link) in off_mesh_links.iter().enumerate() {
        if off_mesh_link_number(off_mesh_link) != own {
            return count;
        }
    }
    off_mesh_links.len()
}

/// One of the off-mesh links that leave a polygon, by its place among them.
pub(crate) fn off_mesh_link_at(
    off_mesh_links: &[OffMeshLink],
    at: PolyRef,
    place: usize,
) -> OffMeshLink
    requires order { AreInOrder off_mesh_links.now }
    requires places { All HasPlace off_mesh_links.now }
    requires there { place < length (filter (leaves at) off_mesh_links.now) }
    ensures { result ≡ slice_index_or (filter (leaves at) off_mesh_links.now) place no_off_mesh_link }
{
    leaving(off_mesh_links, at)[place]
}

/// Slots in which those of the polygons that off-mesh links leave are taken; none where there are no off-mesh links.
pub(crate) fn slots(alloc: Global, off_mesh_links: &[OffMeshLink]) -> Result<Vec<bool>, AllocError>
    ensures { IfOk result (λ slots. HaveSlots slots.items off_mesh_links.now) }
{
    if off_mesh_links.is_empty() {
        return Ok(Vec::new(alloc));
    }
    let mut slots = vec![in alloc; false; 1024]?;
    for off_mesh_link in off_mesh_links {
        slots[slot(off_mesh_link.from)] = true;
    }
    Ok(slots)
}

/// The slot of a polygon, of 1024.
fn slot(at: PolyRef) -> usize
    ensures value { result ≡ slot_of at }
    ensures small { result < 1024 }
{
    ((u64::from(at.tile) * 31 + u64::from(at.index)) % 1024) as usize
}

/// Whether the slot of a polygon is taken.
fn is_taken(slots: &[bool], at: PolyRef) -> bool
    ensures { result ≡ Rattle.off_links.specs.Slots.is_taken slots.now at }
{
    match slots.get(slot(at)) {
        Some(taken) => *taken,
        None => false,
    }
}

/// The off-mesh links that leave a polygon, which are looked for where its slot is taken.
pub(crate) fn leaving_by_slot<'a>(
    off_mesh_links: &'a [OffMeshLink],
    slots: &[bool],
    at: PolyRef,
) -> &'a [OffMeshLink]
    requires order { AreInOrder off_mesh_links.now }
    requires places { All HasPlace off_mesh_links.now }
    requires slots { HaveSlots slots.now off_mesh_links.now }
    ensures { result.now ≡ filter (leaves at) off_mesh_links.now }
{
    if is_taken(slots, at) {
        leaving(off_mesh_links, at)
    } else {
        &off_mesh_links[..0]
    }
}
