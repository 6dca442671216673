//! The portals over an edge in order along it: between two of them, and before the first and behind the last, lie the edge's walls.

ghost use Rattle.std.specs.Prelude.{◌≡◌, ◌↔◌, ◌<ℤ◌, All, Contains, IfSome, IsTrue};
ghost use Rattle.nav_base.specs.Point.{HasCoordinates};
ghost use Rattle.mesh_types.specs.Soundness.{IsSound};
ghost use Rattle.wall_slide.specs.Gathers.{IsLeading};
ghost use Rattle.wall_query.specs.Parts.{IsBeyond, IsEdgeOf, IsFirstAmong, IsFirstPortal, IsSooner, far_on};

use crate::around::enters;
use mesh_types::{Link, Mesh, PolyRef, Portal};
use nav_base::{Point, dot};
use path_queries::{inner, outer};

/// An edge of a polygon, with its ends, in sixteenths of a cell.
#[derive(Clone, Copy)]
pub(crate) struct PolygonEdge {
    pub(crate) polygon: PolyRef,
    /// From 0.
    pub(crate) edge: u32,
    pub(crate) begin: Point,
    pub(crate) end: Point,
}

/// The portal over an edge whose right end comes first along it, of those of open links whose left end lies beyond a point of the edge.
pub(crate) fn next_portal(
    mesh: &Mesh,
    areas: u64,
    edge: &PolygonEdge,
    from: Point,
) -> Option<Portal>
    requires sound { IsSound mesh.now }
    requires edge { IsEdgeOf mesh.now edge.now }
    requires from { HasCoordinates from }
    ensures { IsFirstPortal mesh.now areas edge.now from result }
{
    let inside = first_of(mesh, areas, edge, from, inner(mesh, edge.polygon));
    match first_of(mesh, areas, edge, from, outer(mesh, edge.polygon)) {
        Some(outside) => Some(sooner(edge, inside, outside)),
        None => inside,
    }
}

/// The same of some links that leave the polygon.
fn first_of(
    mesh: &Mesh,
    areas: u64,
    edge: &PolygonEdge,
    from: Point,
    links: &[Link],
) -> Option<Portal>
    requires sound { IsSound mesh.now }
    requires edge { IsEdgeOf mesh.now edge.now }
    requires from { HasCoordinates from }
    requires links { All (IsLeading mesh.now) links.now }
    ensures { IsFirstAmong (λ link. Contains links.now link × IsBeyond mesh.now areas edge.now from link) edge.now result }
{
    let mut first = None;
    for link in links {
        if is_beyond(mesh, areas, edge, from, link) {
            first = Some(sooner(edge, first, link.portal));
        }
    }
    first
}

/// Whether an open link leads over an edge, with the left end of its portal beyond a point.
fn is_beyond(mesh: &Mesh, areas: u64, edge: &PolygonEdge, from: Point, link: &Link) -> bool
    requires sound { IsSound mesh.now }
    requires edge { IsEdgeOf mesh.now edge.now }
    requires from { HasCoordinates from }
    requires link { IsLeading mesh.now link.now }
    ensures { IsTrue result ↔ IsBeyond mesh.now areas edge.now from link.now }
{
    link.edge == edge.edge && is_before(edge, from, link.portal.left) && enters(mesh, areas, link)
}

/// Of two portals the one whose right end comes first.
fn sooner(edge: &PolygonEdge, first: Option<Portal>, other: Portal) -> Portal
    requires begin { HasCoordinates edge.now.begin }
    requires end { HasCoordinates edge.now.end }
    requires first { IfSome first (λ portal. HasCoordinates portal.right) }
    requires other { HasCoordinates other.right }
    ensures { IsSooner edge.now first other result }
{
    match first {
        Some(first) => {
            if is_before(edge, other.right, first.right) {
                other
            } else {
                first
            }
        }
        None => other,
    }
}

/// Whether a point comes before another along an edge.
pub(crate) fn is_before(edge: &PolygonEdge, a: Point, b: Point) -> bool
    requires begin { HasCoordinates edge.now.begin }
    requires end { HasCoordinates edge.now.end }
    requires first { HasCoordinates a }
    requires second { HasCoordinates b }
    ensures { IsTrue result ↔ (far_on edge.now a <ℤ far_on edge.now b) }
{
    dot(edge.begin, edge.end, edge.begin, a) < dot(edge.begin, edge.end, edge.begin, b)
}
