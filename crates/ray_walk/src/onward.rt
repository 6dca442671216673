//! The link over which a ray goes on.

ghost use Rattle.std.specs.Prelude.{◌≡◌, ◌↔◌, All, Contains, IsTrue, IfOk, OnOk, Some};
ghost use Rattle.nav_base.specs.Point.{HasCoordinates, IsCellCorner};
ghost use Rattle.mesh_types.specs.declared.links.Link.{Link};
ghost use Rattle.mesh_types.specs.Rays.{Meets};
ghost use Rattle.mesh_types.specs.Soundness.{IsSound};
ghost use Rattle.mesh_types.specs.WholeMesh.{poly_at};
ghost use Rattle.ray_walk.specs.Walking.{Gathers, HasEnds, IsEntered, IsFirstAmong, IsFirstOf, IsOnward, IsOutward, inner_links, links_from, outer_links};

use crate::exits::is_least;
use crate::raycast::{Exit, Ray};
use mesh_types::{Link, Mesh, PolyRef, Polygon, Portal, order_links};
use nav_base::orient;
use std::alloc::AllocError;
use std::collections::BTreeSet;

/// A ray in a polygon, and an exit of least fraction from it.
#[derive(Clone, Copy)]
pub(crate) struct Inside<'a> {
    pub(crate) polygon: &'a Polygon,
    pub(crate) ray: Ray,
    pub(crate) exit: Exit,
}

/// Of the links that leave a polygon over an exit of least fraction, through a portal that the ray meets, and into a polygon not yet visited,
/// the first in the order of links. It is found in `onward`, whose memory serves again.
pub(crate) fn next_link(
    mesh: &Mesh,
    at: PolyRef,
    inside: Inside,
    visited: &BTreeSet<(u32, u32)>,
    onward: &mut Vec<Link>,
) -> Result<Option<Link>, AllocError>
    requires sound { IsSound mesh.now }
    requires there { poly_at mesh.now at ≡ Some inside.polygon.now }
    requires ray { HasEnds inside.ray }
    requires entered { IsEntered inside.polygon.now inside.ray }
    requires exit { IsFirstOf inside.polygon.now inside.ray inside.exit }
    ensures { IfOk result (IsFirstAmong (λ link. Contains (links_from mesh.now at) link × IsOnward inside.entry.polygon.now inside.entry.ray visited.now link)) }
{
    onward.clear();
    push_onward(onward, inner(mesh, at), inside, visited)?;
    push_onward(onward, outer(mesh, at), inside, visited)?;
    order_links(onward.as_mut_slice());
    Ok(onward.first().copied())
}

/// Appends those of links that lead a ray on.
fn push_onward(
    onward: &mut Vec<Link>,
    links: &[Link],
    inside: Inside,
    visited: &BTreeSet<(u32, u32)>,
) -> Result<(), AllocError>
    requires links { All (IsOutward inside.polygon.now) links.now }
    requires corners { All IsCellCorner inside.polygon.now.corners }
    requires ray { HasEnds inside.ray }
    requires entered { IsEntered inside.polygon.now inside.ray }
    requires exit { IsFirstOf inside.polygon.now inside.ray inside.exit }
    ensures { OnOk result (Gathers (IsOnward inside.entry.polygon.now inside.entry.ray visited.now) onward.old.items links.now onward.new.items) }
{
    for link in links {
        if is_onward(link, inside, visited) {
            onward.push(*link)?;
        }
    }
    Ok(())
}

/// Whether a link of a polygon leads a ray on.
fn is_onward(link: &Link, inside: Inside, visited: &BTreeSet<(u32, u32)>) -> bool
    requires link { IsOutward inside.polygon.now link.now }
    requires corners { All IsCellCorner inside.polygon.now.corners }
    requires ray { HasEnds inside.ray }
    requires entered { IsEntered inside.polygon.now inside.ray }
    requires exit { IsFirstOf inside.polygon.now inside.ray inside.exit }
    ensures { IsTrue result ↔ IsOnward inside.entry.polygon.now inside.entry.ray visited.now link.now }
{
    if !meets(inside.ray, link.portal) {
        return false;
    }
    if !is_least(inside.polygon, link.edge as usize, inside.ray, inside.exit) {
        return false;
    }
    !visited.contains(&(link.to.tile, link.to.index))
}

/// Whether a ray meets a portal.
fn meets(ray: Ray, portal: Portal) -> bool
    requires ray { HasEnds ray }
    requires left { HasCoordinates portal.left }
    requires right { HasCoordinates portal.right }
    ensures { IsTrue result ↔ Meets ray.from ray.to portal }
{
    orient(ray.from, ray.to, portal.left) >= 0 && orient(ray.from, ray.to, portal.right) <= 0
}

/// The links that leave a polygon inside its tile.
fn inner(mesh: &Mesh, at: PolyRef) -> &[Link]
    ensures { result.now ≡ inner_links mesh.now at }
{
    match mesh.tiles.get(at.tile as usize) {
        Some(tile) => tile.get().links.leaving(at.index),
        None => &[],
    }
}

/// The links that leave a polygon over its tile's border.
fn outer(mesh: &Mesh, at: PolyRef) -> &[Link]
    ensures { result.now ≡ outer_links mesh.now at }
{
    match mesh.cross.get(at.tile as usize) {
        Some(links) => links.get().leaving(at.index),
        None => &[],
    }
}
