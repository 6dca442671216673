//! Walks between the polygons of two places: the one that the search by cones gives, where it is one, else a corridor.

ghost use Rattle.std.specs.Prelude.{◌≡◌, true, Contains, IfOk, IfSome, IfNone};
ghost use Rattle.nav_ground.specs.Limits.{IsSetting};
ghost use Rattle.corridor_search.specs.MeshGraphs.{IsApart, IsThere};
ghost use Rattle.mesh_types.specs.Corridors.{IsLinkOf, WalksTo};
ghost use Rattle.mesh_types.specs.Soundness.{IsSound};
ghost use Rattle.shortest_line.specs.Walks.{IsShortWalk};

use crate::search::{ConeSearch, SoughtLine};
use corridor_search::cheapest;
use mesh_types::{Link, Mesh, PolyRef};
use nav_lists::Items;
use path_queries::{inner, outer};
use std::alloc::{AllocError, Global};

/// How many cones are made before a corridor is looked for, by which it is known whether any walk joins the two polygons.
const FIRST_CONES: u32 = 4096;

/// A walk over which a short line leads, by a search that makes so many cones; none exactly where no walk joins the two polygons.
pub(crate) fn short_walk(
    alloc: Global,
    sought: SoughtLine,
    most: u32,
) -> Result<Option<Items<Link>>, AllocError>
    requires sound { IsSound sought.mesh.now }
    requires setting { IsSetting sought.mesh.now.setting }
    requires first { IsThere sought.mesh.now sought.first }
    requires last { IsThere sought.mesh.now sought.last }
    ensures found { IfOk result (λ answer. IfSome answer (λ links. IsShortWalk sought.entry.mesh.now sought.entry.first links sought.entry.last)) }
    ensures none { IfOk result (λ answer. IfNone answer (IsApart sought.entry.mesh.now sought.entry.first sought.entry.last)) }
{
    let mut search = ConeSearch::new(alloc, sought)?;
    if let Some(links) = early_walk(alloc, &mut search, sought, most.min(FIRST_CONES))? {
        return Ok(Some(links));
    }
    let Some(other) = corridor(alloc, sought)? else {
        return Ok(None);
    };
    let links = late_walk(alloc, &mut search, sought, most, other)?;
    Ok(Some(links))
}

/// The walk of the shortest line, where so many cones are enough to find it.
fn early_walk(
    alloc: Global,
    search: &mut ConeSearch,
    sought: SoughtLine,
    most: u32,
) -> Result<Option<Items<Link>>, AllocError>
    requires { IsSound sought.mesh.now }
    ensures { IfOk result (λ answer. IfSome answer (λ links. IsShortWalk sought.entry.mesh.now sought.entry.first links sought.entry.last)) }
{
    if !search.run(alloc, sought, most)? {
        return Ok(None);
    }
    found_walk(alloc, search, sought)
}

/// The walk of the shortest line that is found by so many cones, or another walk where none is.
fn late_walk(
    alloc: Global,
    search: &mut ConeSearch,
    sought: SoughtLine,
    most: u32,
    other: Items<Link>,
) -> Result<Items<Link>, AllocError>
    requires sound { IsSound sought.mesh.now }
    requires other { IsShortWalk sought.mesh.now sought.first other sought.last }
    ensures { IfOk result (λ links. IsShortWalk sought.entry.mesh.now sought.entry.first links sought.entry.last) }
{
    let _over = search.run(alloc, sought, most)?;
    match found_walk(alloc, search, sought)? {
        Some(links) => Ok(links),
        None => Ok(other),
    }
}

/// The walk of the shortest line that a search has found, if its links are one.
fn found_walk(
    alloc: Global,
    search: &ConeSearch,
    sought: SoughtLine,
) -> Result<Option<Items<Link>>, AllocError>
    requires { IsSound sought.mesh.now }
    ensures { IfOk result (λ answer. IfSome answer (λ links. IsShortWalk sought.entry.mesh.now sought.entry.first links sought.entry.last)) }
{
    let links = search.links(alloc)?;
    if is_short_walk(sought.mesh, sought.first, links.as_slice(), sought.last) {
        Ok(Some(Items::from_vec(links)))
    } else {
        Ok(None)
    }
}

/// The links of a corridor; none where no walk joins the two polygons.
fn corridor(alloc: Global, sought: SoughtLine) -> Result<Option<Items<Link>>, AllocError>
    requires sound { IsSound sought.mesh.now }
    requires setting { IsSetting sought.mesh.now.setting }
    requires first { IsThere sought.mesh.now sought.first }
    requires last { IsThere sought.mesh.now sought.last }
    ensures found { IfOk result (λ answer. IfSome answer (λ links. IsShortWalk sought.entry.mesh.now sought.entry.first links sought.entry.last)) }
    ensures none { IfOk result (λ answer. IfNone answer (IsApart sought.entry.mesh.now sought.entry.first sought.entry.last)) }
{
    match cheapest(alloc, sought.mesh, sought.first, sought.last)? {
        Some(corridor) => Ok(Some(corridor.links)),
        None => Ok(None),
    }
}

/// Whether links are a walk from one polygon to another, and few enough.
fn is_short_walk(mesh: &Mesh, first: PolyRef, links: &[Link], last: PolyRef) -> bool
    requires { IsSound mesh.now }
    ensures { result ≡ true → IsShortWalk mesh.now first links.now last }
{
    links.len() < u32::MAX as usize && is_walk(mesh, first, links, last)
}

/// Whether links are a walk from one polygon to another.
fn is_walk(mesh: &Mesh, first: PolyRef, links: &[Link], last: PolyRef) -> bool
    requires { IsSound mesh.now }
    ensures { result ≡ true → WalksTo mesh.now first links.now last }
{
    let mut at = first;
    for link in links {
        if !goes_on(mesh, at, link) {
            return false;
        }
        at = link.to;
    }
    at == last
}

/// Whether a link is one of a mesh, and leaves a polygon.
fn goes_on(mesh: &Mesh, at: PolyRef, link: &Link) -> bool
    requires { IsSound mesh.now }
    ensures listed { result ≡ true → IsLinkOf mesh.now link.now }
    ensures leaves { result ≡ true → link.now.from ≡ at }
{
    link.from == at && is_link_of(mesh, link)
}

/// Whether a link is one of a mesh.
fn is_link_of(mesh: &Mesh, link: &Link) -> bool
    requires { IsSound mesh.now }
    ensures { result ≡ true → IsLinkOf mesh.now link.now }
{
    is_among(inner(mesh, link.from), link) || is_among(outer(mesh, link.from), link)
}

/// Whether a link is one of some.
fn is_among(links: &[Link], link: &Link) -> bool
    ensures { result ≡ true → Contains links.now link.now }
{
    links.contains(link)
}
