//! The links as which kept links lead on.

ghost use Rattle.std.specs.Prelude.{◌≡◌, ◌↔◌, ◌<◌, IfOk, IfSome, IfNone, IsTrue, Contains, Some, length, true};
ghost use Rattle.nav_ground.specs.Limits.{IsSetting};
ghost use Rattle.mesh_types.specs.declared.links.Link as references;
ghost use Rattle.mesh_types.specs.Corridors.{IsLinkOf, cost_of};
ghost use Rattle.mesh_types.specs.Soundness.{IsSound};
ghost use Rattle.corridor_search.specs.Estimates.{extent_at};
ghost use Rattle.path_queries.specs.Filters.{AreCosts, Enters, IsFilter, priced, with_costs};
ghost use Rattle.kept_paths.specs.KeptPaths.{IsThrough, LeadOn, LeadsOn};

use crate::weights::step_over;
use corridor_search::extent_at;
use mesh_types::{Extent, Link, Mesh, PolyRef, Portal};
use nav_base::Point;
use nav_ground::AREAS;
use nav_lists::Items;
use path_queries::{Filter, inner, is_open, outer};
use std::alloc::{AllocError, Global};

/// How far kept links lead on: the links as which they do, the polygon to which those lead, and what they cost.
#[derive(Drop)]
pub(crate) struct Lead {
    pub(crate) links: Items<Link>,
    pub(crate) last: PolyRef,
    pub(crate) cost: u64,
}

/// How far kept links lead on from a polygon through a filter.
pub(crate) fn lead_from(
    alloc: Global,
    mesh: &Mesh,
    filter: &Filter,
    first: PolyRef,
    kept: &[Link],
) -> Result<Lead, AllocError>
    requires sound { IsSound mesh.now }
    requires setting { IsSetting mesh.now.setting }
    requires filter { IsFilter filter.now }
    requires few { length kept.now < 4294967295 }
    ensures leads { IfOk result (λ lead. LeadOn mesh.now filter.now.areas first kept.now lead.links lead.last) }
    ensures cost { IfOk result (λ lead. lead.cost ≡ cost_of (priced mesh.now filter.now) lead.links) }
{
    let costs = filter.costs.unwrap_or(mesh.setting.costs);
    lead_at(alloc, mesh, filter.areas, &costs, first, kept)
}

/// The same through open areas, at given costs of areas. The extent of the polygon that was entered last is kept for the next step.
fn lead_at(
    alloc: Global,
    mesh: &Mesh,
    areas: u64,
    costs: &[u32; AREAS],
    first: PolyRef,
    kept: &[Link],
) -> Result<Lead, AllocError>
    requires sound { IsSound mesh.now }
    requires setting { IsSetting mesh.now.setting }
    requires costs { AreCosts costs.now }
    requires few { length kept.now < 4294967295 }
    ensures leads { IfOk result (λ lead. LeadOn mesh.now areas first kept.now lead.links lead.last) }
    ensures cost { IfOk result (λ lead. lead.cost ≡ cost_of (with_costs costs.now mesh.now) lead.links) }
{
    let mut links = Vec::with_capacity(alloc, kept.len())?;
    let mut last = first;
    let mut left = extent_at(mesh, first);
    let mut cost = 0;
    for link in kept {
        let Some(next) = leading_on(mesh, areas, last, link) else {
            let links = Items::from_vec(links);
            return Ok(Lead { links, last, cost });
        };
        let step = step_over(mesh, costs, left, &next.link, next.entered);
        links.push(next.link)?;
        cost += step;
        last = next.link.to;
        left = next.entered;
    }
    let links = Items::from_vec(links);
    Ok(Lead { links, last, cost })
}

/// A link that leads on, and the extent of the polygon that it enters.
#[derive(Clone, Copy)]
struct OnwardLink {
    link: Link,
    entered: Extent,
}

/// The link that leads on from a polygon through the portal of a kept link: the kept one where that does; none exactly where none does.
fn leading_on(mesh: &Mesh, areas: u64, at: PolyRef, kept: &Link) -> Option<OnwardLink>
    requires sound { IsSound mesh.now }
    ensures some { IfSome result (λ next. LeadsOn mesh.now areas at kept.now next.link) }
    ensures entered { IfSome result (λ next. next.entered ≡ extent_at mesh.now next.link.to) }
    ensures kept { IfSome result (λ next. LeadsOn mesh.now areas at kept.now kept.now → next.link ≡ kept.now) }
    ensures none { IfNone result ((link : references.Link) → LeadsOn mesh.now areas at kept.now link → ⊥) }
{
    let entered = extent_at(mesh, kept.to);
    if is_leading(mesh, areas, at, kept, entered) {
        return Some(OnwardLink {
            link: *kept,
            entered,
        });
    }
    let link = first_leading(mesh, areas, at, kept)?;
    let entered = extent_at(mesh, link.to);
    Some(OnwardLink { link, entered })
}

/// The first link that leads on from a polygon through the portal of a kept link; none exactly where none does.
fn first_leading(mesh: &Mesh, areas: u64, at: PolyRef, kept: &Link) -> Option<Link>
    requires sound { IsSound mesh.now }
    ensures some { IfSome result (λ link. LeadsOn mesh.now areas at kept.now link) }
    ensures none { IfNone result ((link : references.Link) → LeadsOn mesh.now areas at kept.now link → ⊥) }
{
    match first_on(mesh, areas, inner(mesh, at), kept.portal) {
        Some(link) => Some(link),
        None => first_on(mesh, areas, outer(mesh, at), kept.portal),
    }
}

/// Whether a kept link itself leads on from a polygon, by the extent of the one that it enters.
fn is_leading(mesh: &Mesh, areas: u64, at: PolyRef, kept: &Link, entered: Extent) -> bool
    requires sound { IsSound mesh.now }
    requires entered { entered ≡ extent_at mesh.now kept.now.to }
    ensures { IsTrue result ↔ LeadsOn mesh.now areas at kept.now kept.now }
{
    leaves(mesh, at, kept) && enters_by(mesh, areas, kept, entered)
}

/// Whether a link stands among others.
fn has_link(links: &[Link], link: &Link) -> bool
    ensures { IsTrue result ↔ Contains links.now link.now }
{
    for other in links {
        if is_link(other, link) {
            return true;
        }
    }
    false
}

/// Whether two links are the same. Of those that leave one polygon the edge tells most apart.
fn is_link(a: &Link, b: &Link) -> bool
    ensures { IsTrue result ↔ (a.now ≡ b.now) }
{
    a.edge == b.edge && a.to == b.to && is_same(a.portal, b.portal) && a.from == b.from
}

/// The first of some links that leads through a portal into a polygon of an open area.
fn first_on(mesh: &Mesh, areas: u64, links: &[Link], portal: Portal) -> Option<Link>
    requires sound { IsSound mesh.now }
    ensures some { IfSome result (λ link. Contains links.now link × (link.portal ≡ portal) × Enters mesh.now areas link) }
    ensures none { IfNone result ((link : references.Link) → Contains links.now link → link.portal ≡ portal
        → Enters mesh.now areas link → ⊥) }
{
    for link in links {
        if is_same(link.portal, portal) && enters(mesh, areas, link) {
            return Some(*link);
        }
    }
    None
}

/// Whether a link enters a polygon of an open area.
pub(crate) fn enters(mesh: &Mesh, areas: u64, link: &Link) -> bool
    requires sound { IsSound mesh.now }
    ensures { IsTrue result ↔ Enters mesh.now areas link.now }
{
    enters_by(mesh, areas, link, extent_at(mesh, link.to))
}

/// The same, by the extent of the polygon that it enters.
fn enters_by(mesh: &Mesh, areas: u64, link: &Link, entered: Extent) -> bool
    requires sound { IsSound mesh.now }
    requires entered { entered ≡ extent_at mesh.now link.now.to }
    ensures { IsTrue result ↔ Enters mesh.now areas link.now }
{
    let _ = mesh;
    let _ = link;
    is_open_area(areas, entered.area)
}

/// Whether an area is one that can be walked on and is open. Where no polygon is, the extent has the area 0.
fn is_open_area(areas: u64, area: u32) -> bool
    requires { area < 64 }
    ensures { IsTrue result ↔ ((0 < area) × (Rattle.path_queries.specs.Filters.is_open areas area ≡ true)) }
{
    area != 0 && is_open(areas, area)
}

/// Whether a link is one of the mesh that leaves a polygon.
pub fn leaves(mesh: &Mesh, at: PolyRef, link: &Link) -> bool
    requires sound { IsSound mesh.now }
    ensures { IsTrue result ↔ (IsLinkOf mesh.now link.now × (link.now.from ≡ at)) }
{
    has_link(inner(mesh, at), link) || has_link(outer(mesh, at), link)
}

/// Whether some link leaves a polygon through a portal, whatever it enters.
pub(crate) fn leaves_through(mesh: &Mesh, at: PolyRef, kept: &Link) -> bool
    requires sound { IsSound mesh.now }
    ensures { IsTrue result ↔ ((link : references.Link) × IsThrough mesh.now at kept.now link) }
{
    has_portal(inner(mesh, at), kept.portal) || has_portal(outer(mesh, at), kept.portal)
}

/// Whether some link leads through a portal.
fn has_portal(links: &[Link], portal: Portal) -> bool
    ensures { IsTrue result ↔ ((link : references.Link) × Contains links.now link × (link.portal ≡ portal)) }
{
    for link in links {
        if is_same(link.portal, portal) {
            return true;
        }
    }
    false
}

/// Whether two portals are the same.
fn is_same(a: Portal, b: Portal) -> bool
    ensures { IsTrue result ↔ (a ≡ b) }
{
    is_same_point(a.left, b.left) && is_same_point(a.right, b.right)
}

fn is_same_point(a: Point, b: Point) -> bool
    ensures { IsTrue result ↔ (a ≡ b) }
{
    a.x == b.x && a.z == b.z
}
