//! The polygons around a place: those to which open links lead from its polygon through portals within a distance.

ghost use Rattle.std.specs.Prelude.{◌≡◌, ◌↔◌, ◌<◌, All, Contains, IfOk, OnOk, IsTrue};
ghost use Rattle.nav_base.specs.Point.{IsInField};
ghost use Rattle.mesh_types.specs.Soundness.{IsSound};
ghost use Rattle.path_queries.specs.Filters.{Enters};
ghost use Rattle.wall_slide.specs.Gathers.{IsGathered, IsLeading, IsMissed};
ghost use Rattle.wall_query.specs.Around.{IsListed, IsNear, IsPassed, StandsIn};

use crate::distances::{distance_to, is_no_farther};
use mesh_types::{Link, Mesh, MeshPlace, PolyRef, poly};
use nav_base::Deviation;
use path_queries::{inner, is_open, outer};
use std::alloc::{AllocError, Global};

/// What is looked at: from a place, over links into open areas, as far as a distance.
#[derive(Clone, Copy)]
pub(crate) struct Around {
    pub(crate) from: MeshPlace,
    pub(crate) areas: u64,
    pub(crate) far: Deviation,
}

/// The polygons around a place, its own first, each once.
pub(crate) fn gather(
    alloc: Global,
    mesh: &Mesh,
    around: &Around,
) -> Result<Vec<PolyRef>, AllocError>
    requires sound { IsSound mesh.now }
    requires start { StandsIn mesh.now around.now }
    ensures { IfOk result (λ list. (at : PolyRef) → Contains list.items at ↔ IsListed mesh.now around.now at) }
{
    let mut list = Vec::new(alloc);
    list.push(around.from.polygon)?;
    let mut next = 0;
    while next < list.len() {
        let at = list[next];
        push_passed(mesh, around, inner(mesh, at), &mut list)?;
        push_passed(mesh, around, outer(mesh, at), &mut list)?;
        next += 1;
    }
    Ok(list)
}

/// Appends the polygons that those of some links enter that are passed, if they are not in the list.
fn push_passed(
    mesh: &Mesh,
    around: &Around,
    links: &[Link],
    list: &mut Vec<PolyRef>,
) -> Result<(), AllocError>
    requires sound { IsSound mesh.now }
    requires start { StandsIn mesh.now around.now }
    requires links { All (IsLeading mesh.now) links.now }
    ensures { OnOk result (IsGathered (IsPassed mesh.now around.now) links.now list.old.items list.new.items) }
{
    for link in links {
        if is_missed(mesh, around, list.as_slice(), link) {
            list.push(link.to)?;
        }
    }
    Ok(())
}

/// Whether a link is passed and enters a polygon which is not in a list.
fn is_missed(mesh: &Mesh, around: &Around, list: &[PolyRef], link: &Link) -> bool
    requires sound { IsSound mesh.now }
    requires start { StandsIn mesh.now around.now }
    requires link { IsLeading mesh.now link.now }
    ensures { IsTrue result ↔ IsMissed (IsPassed mesh.now around.now) list.now link.now }
{
    !has(list, link.to) && is_passed(mesh, around, link)
}

/// Whether a polygon is in a list.
pub(crate) fn has(list: &[PolyRef], at: PolyRef) -> bool
    ensures { IsTrue result ↔ Contains list.now at }
{
    list.contains(&at)
}

/// Whether a link is passed: it enters a polygon of an open area, through a portal within the distance.
fn is_passed(mesh: &Mesh, around: &Around, link: &Link) -> bool
    requires sound { IsSound mesh.now }
    requires start { StandsIn mesh.now around.now }
    requires link { IsLeading mesh.now link.now }
    ensures { IsTrue result ↔ IsPassed mesh.now around.now link.now }
{
    enters(mesh, around.areas, link) && is_near(around, link)
}

/// Whether the portal of a link is within the distance.
fn is_near(around: &Around, link: &Link) -> bool
    requires left { IsInField link.now.portal.left }
    requires right { IsInField link.now.portal.right }
    requires from { IsInField around.now.from.point }
    ensures { IsTrue result ↔ IsNear around.now link.now.portal }
{
    let far = distance_to(link.portal.right, link.portal.left, around.from.point);
    is_no_farther(far, around.far)
}

/// Whether a link enters a polygon of an open area.
pub(crate) fn enters(mesh: &Mesh, areas: u64, link: &Link) -> bool
    requires sound { IsSound mesh.now }
    ensures { IsTrue result ↔ Enters mesh.now areas link.now }
{
    match poly(mesh, link.to) {
        Some(polygon) => is_open(areas, polygon.area),
        None => false,
    }
}
