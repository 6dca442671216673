//! The link over which a straight way goes on.

ghost use Rattle.std.specs.Prelude.{◌≡◌, ◌↔◌, All, Contains, IsTrue, Some};
ghost use Rattle.std.specs.declared.cmp.Ordering.TheVariants.{Less};
ghost use Rattle.nav_base.specs.Point.{HasCoordinates, IsCellCorner};
ghost use Rattle.mesh_types.specs.LinkOrder.{link_cmp, poly_cmp, point_cmp};
ghost use Rattle.mesh_types.specs.Soundness.{IsSound};
ghost use Rattle.mesh_types.specs.WholeMesh.{poly_at};
ghost use Rattle.path_queries.specs.Filters.{Enters};
ghost use Rattle.fine_walk.specs.FineRays.{FineMeets};
ghost use Rattle.fine_walk.specs.Passing.{HasFineEnds, IsEntered, IsFirstIn, IsLeastOf, IsOnward, IsOutward, IsThere, inner_links, links_from, outer_links};

use crate::exits::{FineExit, FineRay, is_least};
use crate::fine_points::{fine, turn};
use mesh_types::{Link, Mesh, PolyRef, Polygon, Portal, poly};
use nav_base::Point;
use path_queries::is_open;
use std::cmp::Ordering;

/// A ray in a polygon of a mesh, an exit of least fraction from it, and which areas may be entered: bit a for area a.
#[derive(Clone, Copy)]
pub(crate) struct Crossing<'a> {
    pub(crate) mesh: &'a Mesh,
    pub(crate) areas: u64,
    pub(crate) polygon: &'a Polygon,
    pub(crate) ray: FineRay,
    pub(crate) exit: FineExit,
}

/// Of the links that leave a polygon over an exit of least fraction, through a portal that the ray meets, and into a polygon of an open area not
/// yet visited, the first in the order of links.
pub(crate) fn next_link(at: PolyRef, crossing: Crossing, visited: &[PolyRef]) -> Option<Link>
    requires sound { IsSound crossing.mesh.now }
    requires there { poly_at crossing.mesh.now at ≡ Some crossing.polygon.now }
    requires ray { HasFineEnds crossing.ray }
    requires entered { IsEntered crossing.polygon.now crossing.ray }
    requires exit { IsLeastOf crossing.polygon.now crossing.ray crossing.exit }
    ensures { IsFirstIn (IsOnward crossing.entry.mesh.now crossing.entry.areas crossing.entry.polygon.now crossing.entry.ray visited.now) (links_from crossing.entry.mesh.now at) result }
{
    let inside = first_onward(inner(crossing.mesh, at), crossing, visited);
    let outside = first_onward(outer(crossing.mesh, at), crossing, visited);
    first_of(inside, outside)
}

/// Of links the first that leads a ray on.
fn first_onward(links: &[Link], crossing: Crossing, visited: &[PolyRef]) -> Option<Link>
    requires sound { IsSound crossing.mesh.now }
    requires links { All (IsOutward crossing.mesh.now crossing.polygon.now) links.now }
    requires corners { All IsCellCorner crossing.polygon.now.corners }
    requires ray { HasFineEnds crossing.ray }
    requires entered { IsEntered crossing.polygon.now crossing.ray }
    requires exit { IsLeastOf crossing.polygon.now crossing.ray crossing.exit }
    ensures { IsFirstIn (IsOnward crossing.entry.mesh.now crossing.entry.areas crossing.entry.polygon.now crossing.entry.ray visited.now) links.now result }
{
    let mut first = None;
    for link in links {
        if is_onward(link, crossing, visited) {
            first = first_of(first, Some(*link));
        }
    }
    first
}

/// The first of two links, where they are there.
fn first_of(a: Option<Link>, b: Option<Link>) -> Option<Link>
    ensures { result ≡ Rattle.fine_walk.specs.Passing.first_of a b }
{
    match (a, b) {
        (Some(first), Some(second)) => {
            if link_order(&second, &first) == Ordering::Less {
                b
            } else {
                a
            }
        }
        (Some(_), None) => a,
        (None, _) => b,
    }
}

/// Whether a link of a polygon leads a ray on.
fn is_onward(link: &Link, crossing: Crossing, visited: &[PolyRef]) -> bool
    requires sound { IsSound crossing.mesh.now }
    requires link { IsOutward crossing.mesh.now crossing.polygon.now link.now }
    requires corners { All IsCellCorner crossing.polygon.now.corners }
    requires ray { HasFineEnds crossing.ray }
    requires entered { IsEntered crossing.polygon.now crossing.ray }
    requires exit { IsLeastOf crossing.polygon.now crossing.ray crossing.exit }
    ensures { IsTrue result ↔ IsOnward crossing.entry.mesh.now crossing.entry.areas crossing.entry.polygon.now crossing.entry.ray visited.now link.now }
{
    if !meets(crossing.ray, link.portal) {
        return false;
    }
    if !is_least(
        crossing.polygon,
        link.edge as usize,
        crossing.ray,
        crossing.exit,
    ) {
        return false;
    }
    if is_among(visited, link.to) {
        return false;
    }
    enters(crossing.mesh, crossing.areas, link)
}

/// Whether a polygon is one of those visited.
fn is_among(visited: &[PolyRef], at: PolyRef) -> bool
    ensures { IsTrue result ↔ Contains visited.now at }
{
    visited.contains(&at)
}

/// Whether a link enters a polygon of an open area.
fn enters(mesh: &Mesh, areas: u64, link: &Link) -> bool
    requires sound { IsSound mesh.now }
    requires there { IsThere mesh.now link.now.to }
    ensures { IsTrue result ↔ Enters mesh.now areas link.now }
{
    match poly(mesh, link.to) {
        Some(polygon) => is_open(areas, polygon.area),
        None => false,
    }
}

/// Whether a ray meets a portal.
fn meets(ray: FineRay, portal: Portal) -> bool
    requires ray { HasFineEnds ray }
    requires left { HasCoordinates portal.left }
    requires right { HasCoordinates portal.right }
    ensures { IsTrue result ↔ FineMeets ray.from ray.to portal }
{
    turn(ray.from, ray.to, fine(portal.left)) >= 0
        && turn(ray.from, ray.to, fine(portal.right)) <= 0
}

/// Which of two links comes first in the order of links.
fn link_order(a: &Link, b: &Link) -> Ordering
    ensures { result ≡ link_cmp a.now b.now }
{
    let portal = point_order(a.portal.right, b.portal.right).then(point_order(
        a.portal.left,
        b.portal.left,
    ));
    let entered = poly_order(a.to, b.to).then(portal);
    poly_order(a.from, b.from).then(a.edge.cmp(&b.edge).then(entered))
}

fn poly_order(a: PolyRef, b: PolyRef) -> Ordering
    ensures { result ≡ poly_cmp a b }
{
    a.tile.cmp(&b.tile).then(a.index.cmp(&b.index))
}

fn point_order(a: Point, b: Point) -> Ordering
    ensures { result ≡ point_cmp a b }
{
    a.x.cmp(&b.x).then(a.z.cmp(&b.z))
}

/// The links that leave a polygon inside its tile.
fn inner(mesh: &Mesh, at: PolyRef) -> &[Link]
    ensures { result.now ≡ inner_links mesh.now at }
{
    match mesh.tiles.get(at.tile as usize) {
        Some(tile) => tile.get().links.leaving(at.index),
        None => &[],
    }
}

/// The links that leave a polygon over its tile's border.
fn outer(mesh: &Mesh, at: PolyRef) -> &[Link]
    ensures { result.now ≡ outer_links mesh.now at }
{
    match mesh.cross.get(at.tile as usize) {
        Some(links) => links.get().leaving(at.index),
        None => &[],
    }
}
