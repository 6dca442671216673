//! Ends of portals that the mesh surrounds. A line has no reason to bend there, wherever nothing but lengths counts.

use mesh_types::{Link, Mesh, PolyRef, Side};
use nav_base::Point;
use path_queries::{inner, outer};

/// How many polygons are looked at round one point.
const MOST_AROUND: usize = 16;

/// Whether links lead all round an end of a link's portal, by few polygons.
pub(crate) fn is_surrounded(mesh: &Mesh, link: Link, side: Side) -> bool {
    let end = end_on(link, side);
    let mut at = link.to;
    for _ in 0..MOST_AROUND {
        let Some(next) = link_round(mesh, at, end, side) else {
            return false;
        };
        if next == link.from {
            return true;
        }
        at = next;
    }
    false
}

/// The polygon that is entered from another over a portal with this point as its end on a side.
fn link_round(mesh: &Mesh, at: PolyRef, end: Point, side: Side) -> Option<PolyRef> {
    match link_with_end(inner(mesh, at), end, side) {
        Some(to) => Some(to),
        None => link_with_end(outer(mesh, at), end, side),
    }
}

/// The polygon that the first of some links enters whose portal has this point as its end on a side.
fn link_with_end(links: &[Link], end: Point, side: Side) -> Option<PolyRef> {
    for link in links {
        if end_on(*link, side) == end {
            return Some(link.to);
        }
    }
    None
}

/// The end of a link's portal on a side.
fn end_on(link: Link, side: Side) -> Point {
    match side {
        Side::L => link.portal.left,
        Side::R => link.portal.right,
    }
}
