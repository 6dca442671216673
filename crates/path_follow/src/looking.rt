//! The links and polygons of a followed path in the mesh.

ghost use Rattle.std.specs.Prelude.{◌≡◌, ◌↔◌, ◌<◌, ◌≤◌, ◌+◌, IfOk, IfSome, IfNone, IsTrue, Some, length, slice_range};
ghost use Rattle.nav_base.specs.Point.{HasCoordinates};
ghost use Rattle.mesh_types.specs.declared.polygon.Polygon.{Polygon};
ghost use Rattle.mesh_types.specs.Rays.{IsHeldAt};
ghost use Rattle.mesh_types.specs.Soundness.{IsSound};
ghost use Rattle.mesh_types.specs.WholeMesh.{poly_at};
ghost use Rattle.surface_move.specs.Moves.{IsPart, IsThere, leg_of};
ghost use Rattle.agent_walks.specs.Marches.{polygons_of};
ghost use Rattle.path_follow.specs.Following.{CanFollow, IsCutAt, IsIntact, LeadBefore, LeadsAt, looks_to, next_place, path_polygons};
ghost use Rattle.path_follow.specs.Lines.{AreAhead, IsToldAt};

use crate::following::{FollowAnswer, Following};
use kept_paths::leaves;
use mesh_types::{Link, Mesh, PolyRef, holds, poly};
use nav_base::Point;
use std::alloc::{AllocError, Global};
use surface_move::{PartEnd, part};

/// The polygon at a place of a path: its first, or that which the link before the place enters.
pub(crate) fn nth_polygon(first: PolyRef, links: &[Link], place: usize) -> PolyRef
    requires { place ≤ length links.now }
    ensures { result ≡ Rattle.surface_move.specs.Moves.nth_polygon (polygons_of first links.now) place }
{
    if place == 0 {
        return first;
    }
    links[place - 1].to
}

/// The place up to which links are looked at.
pub(crate) fn looked_to(following: &Following, upto: usize) -> usize
    requires upto { upto ≡ next_place following.now }
    requires within { upto ≤ length following.now.links }
    requires behind { following.now.link ≤ length following.now.links }
    requires few { length following.now.links < 4294967295 }
    ensures value { result ≡ looks_to following.now }
    ensures within { result ≤ length following.now.links }
{
    let ahead = following.link + following.ahead as usize;
    upto.max(ahead.min(following.links.len()))
}

/// Whether the link at a place leads on.
fn leads_at(mesh: &Mesh, following: &Following, place: usize) -> bool
    requires sound { IsSound mesh.now }
    requires there { place < length following.now.links }
    ensures { IsTrue result ↔ LeadsAt mesh.now following.now place }
{
    let links = following.links.as_slice();
    let at = nth_polygon(following.first, links, place);
    leaves(mesh, at, &links[place])
}

/// The place of the first link before another that leads on no more, from those on that are not known to be behind; none where all lead on.
fn first_cut(mesh: &Mesh, following: &Following, end: usize) -> Option<usize>
    requires sound { IsSound mesh.now }
    requires within { end ≤ length following.now.links }
    ensures some { IfSome result (λ place. (following.now.link ≤ place) × (place < end) × (LeadsAt mesh.now following.now place → ⊥)) }
    ensures before { IfSome result (LeadBefore mesh.now following.now) }
    ensures none { IfNone result (LeadBefore mesh.now following.now end) }
{
    for place in following.link..end {
        if !leads_at(mesh, following, place) {
            return Some(place);
        }
    }
    None
}

/// The link at which a path is cut, of those that are looked at; where it is the number of all links, the last polygon does not hold the goal.
pub(crate) fn cut_at(mesh: &Mesh, following: &Following, look: usize) -> Option<usize>
    requires sound { IsSound mesh.now }
    requires can { CanFollow following.now }
    requires look { look ≡ looks_to following.now }
    requires within { look ≤ length following.now.links }
    ensures some { IfSome result (IsCutAt mesh.now following.now) }
    ensures none { IfNone result (IsIntact mesh.now following.now) }
{
    if let Some(place) = first_cut(mesh, following, look) {
        return Some(place);
    }
    let count = following.links.len();
    let last = nth_polygon(following.first, following.links.as_slice(), count);
    if look == count && !is_held(mesh, following.goal, last) {
        return Some(count);
    }
    None
}

/// Whether a polygon holds a point of the plane.
pub(crate) fn is_held(mesh: &Mesh, p: Point, at: PolyRef) -> bool
    requires sound { IsSound mesh.now }
    requires point { HasCoordinates p }
    ensures { IsTrue result ↔ IsHeldAt mesh.now p at }
{
    match poly(mesh, at) {
        Some(polygon) => holds(&polygon, p),
        None => false,
    }
}

/// Whether a polygon is there.
fn is_there(mesh: &Mesh, at: PolyRef) -> bool
    ensures { IsTrue result ↔ IsThere mesh.now at }
{
    poly(mesh, at).is_some()
}

/// The answer that a walker is at a point of the polygon at a place of its path.
pub(crate) fn walking(
    mesh: &Mesh,
    following: &Following,
    point: Point,
    place: usize,
) -> FollowAnswer
    requires { place ≤ length following.now.links }
    ensures { IsToldAt mesh.now following.now point place result }
{
    let at = nth_polygon(following.first, following.links.as_slice(), place);
    FollowAnswer::Walking {
        at,
        point,
        y: floor_of(mesh, at),
        link: place,
    }
}

/// The least floor of a polygon.
fn floor_of(mesh: &Mesh, at: PolyRef) -> u32
    ensures { (polygon : Polygon) → poly_at mesh.now at ≡ Some polygon → result ≡ polygon.low }
{
    match poly(mesh, at) {
        Some(polygon) => polygon.low,
        None => 0,
    }
}

/// The polygons of a path from one place to another.
pub(crate) fn polygons_between(
    alloc: Global,
    following: &Following,
    first: usize,
    last: usize,
) -> Result<Vec<PolyRef>, AllocError>
    requires order { first ≤ last }
    requires within { last ≤ length following.now.links }
    ensures { IfOk result (λ polys. polys.items ≡ slice_range (path_polygons following.now) first (last + 1)) }
{
    let links = following.links.as_slice();
    let mut polys = Vec::with_capacity(alloc, last - first + 1)?;
    polys.push(nth_polygon(following.first, links, first))?;
    for link in &links[first..last] {
        polys.push(link.to)?;
    }
    Ok(polys)
}

/// The part of the way from one point to another that leads through polygons, of at most so many steps.
pub(crate) fn part_ahead(
    mesh: &Mesh,
    polys: &[PolyRef],
    from: Point,
    to: Point,
    rest: u32,
) -> Option<PartEnd>
    requires sound { IsSound mesh.now }
    requires ahead { AreAhead mesh.now polys.now }
    requires from { HasCoordinates from }
    requires to { HasCoordinates to }
    requires rest { rest < leg_of from to }
    ensures { IsPart mesh.now polys.now from to rest result }
{
    if !is_there(mesh, polys[0]) {
        return None;
    }
    part(mesh, polys, from, to, rest)
}
