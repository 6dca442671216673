//! The portals ahead of an agent, narrowed, and the corners of the taut line through them. Nothing is promised of these: they shape the wish alone.

ghost use Rattle.std.specs.Prelude.{◌≤◌};
ghost use Rattle.mesh_types.specs.Soundness.{IsSound};

use crate::vectors::{length_of, onward, part_of, toward, turn};
use crowd_moves::CrowdAgent;
use kept_paths::leaves;
use mesh_types::{Link, Mesh, Portal};
use nav_base::Point;

/// How many portals are looked at.
pub(crate) const MOST_PORTALS: usize = 24;

/// Half a cell.
const HALF_CELL: u32 = 128;

/// The portals of the links ahead, narrowed, in fine points, and how many they are.
#[derive(Clone, Copy)]
pub(crate) struct PortalsAhead {
    pub(crate) portals: [Portal; MOST_PORTALS],
    pub(crate) count: usize,
}

/// The portals of the links ahead, as far as each is a link of the mesh that leaves the polygon before it.
pub(crate) fn narrowed_portals(mesh: &Mesh, agent: &CrowdAgent, ahead: &[Link]) -> PortalsAhead
    requires { IsSound mesh.now }
    ensures { result.count ≤ 24 }
{
    let none = Point { x: 0, z: 0 };
    let mut portals = [Portal {
        left: none,
        right: none,
    }; MOST_PORTALS];
    let most = ahead.len().min(MOST_PORTALS);
    let mut at = agent.polygon;
    for count in 0..most {
        let link = ahead[count];
        if !leaves(mesh, at, &link) {
            return PortalsAhead { portals, count };
        }
        portals[count] = narrowed(link.portal, agent.at, count < 2);
        at = link.to;
    }
    PortalsAhead {
        portals,
        count: most,
    }
}

/// A portal in fine points, narrowed at both ends by half a cell, or by a quarter of it where that is less; one of the two nearest by no more than a
/// quarter of the distance to the end.
fn narrowed(portal: Portal, at: Point, is_near: bool) -> Portal {
    let left = fine_end(portal.left);
    let right = fine_end(portal.right);
    let length = length_of(toward(left, right));
    let most = (length / 4).min(HALF_CELL);
    Portal {
        left: inward(left, right, length, inset(most, left, at, is_near)),
        right: inward(right, left, length, inset(most, right, at, is_near)),
    }
}

/// An end of a portal as a fine point.
fn fine_end(p: Point) -> Point {
    Point {
        x: p.x.wrapping_mul(16),
        z: p.z.wrapping_mul(16),
    }
}

/// By how much an end of a portal is moved inward.
fn inset(most: u32, end: Point, at: Point, is_near: bool) -> u32
    ensures { result ≤ most }
{
    if is_near {
        most.min(length_of(toward(at, end)) / 4)
    } else {
        most
    }
}

/// An end of a portal of some length, moved toward the other end.
fn inward(end: Point, other: Point, length: u32, by: u32) -> Point
    requires { by ≤ 8191 }
{
    if by >= length {
        return end;
    }
    let across = toward(end, other);
    let moved = Point {
        x: part_of(across.x, by, length),
        z: part_of(across.z, by, length),
    };
    onward(end, moved)
}

/// The middle of a portal of a link, as a fine point.
pub(crate) fn middle(portal: Portal) -> Point {
    Point {
        x: portal.left.x.wrapping_add(portal.right.x).wrapping_mul(8),
        z: portal.left.z.wrapping_add(portal.right.z).wrapping_mul(8),
    }
}

/// Where the taut line turns next, and how many portals are then behind.
#[derive(Clone, Copy)]
pub(crate) struct NextTurn {
    pub(crate) at: Point,
    pub(crate) passed: usize,
}

/// Where the taut line from a point turns next on its way through portals from one on, or where it ends.
pub(crate) fn next_turn(apex: Point, portals: &[Portal], first: usize, end: Point) -> NextTurn {
    let Some(portal) = portals.get(first) else {
        return NextTurn {
            at: end,
            passed: portals.len(),
        };
    };
    let mut left = NextTurn {
        at: portal.left,
        passed: first + 1,
    };
    let mut right = NextTurn {
        at: portal.right,
        passed: first + 1,
    };
    for place in first + 1..portals.len() {
        let portal = portals[place];
        if turn(apex, left.at, portal.right) >= 0 {
            return left;
        }
        if turn(apex, right.at, portal.left) <= 0 {
            return right;
        }
        left = nearer(
            turn(apex, left.at, portal.left) <= 0,
            portal.left,
            place,
            left,
        );
        right = nearer(
            turn(apex, right.at, portal.right) >= 0,
            portal.right,
            place,
            right,
        );
    }
    last_turn(apex, left, right, end, portals.len())
}

/// An end of the portal at a place, where it narrows what is seen; else what bounds that before.
fn nearer(narrows: bool, end: Point, place: usize, before: NextTurn) -> NextTurn {
    if narrows {
        NextTurn {
            at: end,
            passed: place.saturating_add(1),
        }
    } else {
        before
    }
}

/// The turn before the end of the line, or the end, where it is seen.
fn last_turn(apex: Point, left: NextTurn, right: NextTurn, end: Point, all: usize) -> NextTurn {
    if turn(apex, left.at, end) >= 0 {
        return left;
    }
    if turn(apex, right.at, end) <= 0 {
        return right;
    }
    NextTurn {
        at: end,
        passed: all,
    }
}
