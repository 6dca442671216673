//! Chains by hand, and the corners of the path that is pulled through each.

ghost use Rattle.std.specs.Prelude.{◌≢◌, ◌↔◌, ◌<◌, ◌≤◌, IsTrue, All, length};
ghost use Rattle.nav_base.specs.Point.{HasCoordinates};
ghost use Rattle.mesh_types.specs.Chains.{IsAhead, IsBehind, portal_at, points_after, points_before};
ghost use Rattle.funnel_path.specs.Coordinates.{HasEndCoordinates};
ghost use Rattle.tests_paths.specs.SmallChains.{IsPortalOf, IsSmallChain};

use crate::rows::all_hold;
use funnel_path::pull;
use mesh_types::{Corner, Portal, Side};
use nav_base::{Point, orient};
use std::alloc::Global;

/// A point by x and z.
macro_rules! at {
    ($x:expr, $z:expr) => {
        Point { x: $x, z: $z }
    };
}

/// A portal by x and z of its left end and of its right end.
macro_rules! portal {
    ($left_x:expr, $left_z:expr, $right_x:expr, $right_z:expr) => {
        Portal {
            left: at!($left_x, $left_z),
            right: at!($right_x, $right_z),
        }
    };
}

/// A corner by its side, x, z and portal.
macro_rules! turn {
    ($side:ident, $x:expr, $z:expr, $portal:expr) => {
        Corner {
            at: at!($x, $z),
            side: Side::$side,
            portal: $portal,
        }
    };
}

/// A start, portals, a goal, and the corners of the path through them.
type Chain = (Point, &'static [Portal], Point, &'static [Corner]);

/// Whether a point has coordinates.
pub(crate) fn has_coordinates(p: Point) -> bool
    ensures { IsTrue result ↔ HasCoordinates p }
{
    -65536 <= p.x && p.x <= 65536 && -65536 <= p.z && p.z <= 65536
}

/// Whether both ends of each portal have coordinates.
fn have_coordinates(portals: &[Portal]) -> bool
    ensures { IsTrue result → All HasEndCoordinates portals.now }
{
    for portal in portals {
        if !has_coordinates(portal.left) || !has_coordinates(portal.right) {
            return false;
        }
    }
    true
}

/// Whether a point lies behind a portal or on its line.
fn is_behind(portal: Portal, p: Point) -> bool
    requires portal { HasEndCoordinates portal }
    requires point { HasCoordinates p }
    ensures { IsTrue result ↔ IsBehind portal p }
{
    orient(portal.right, portal.left, p) >= 0
}

/// Whether a point lies ahead of a portal or on its line.
fn is_ahead(portal: Portal, p: Point) -> bool
    requires portal { HasEndCoordinates portal }
    requires point { HasCoordinates p }
    ensures { IsTrue result ↔ IsAhead portal p }
{
    orient(portal.right, portal.left, p) <= 0
}

/// Whether two points differ.
fn differ(a: Point, b: Point) -> bool
    ensures { IsTrue result → a ≢ b }
{
    a.x != b.x || a.z != b.z
}

/// Whether what comes before the portal at a place lies behind it.
fn is_behind_all(start: Point, portals: &[Portal], place: usize) -> bool
    requires start { HasCoordinates start }
    requires portals { All HasEndCoordinates portals.now }
    requires there { place < length portals.now }
    ensures { IsTrue result → All (IsBehind (portal_at portals.now place)) (points_before start portals.now place) }
{
    let portal = portals[place];
    if place == 0 {
        return is_behind(portal, start);
    }
    let before = portals[place - 1];
    is_behind(portal, before.left) && is_behind(portal, before.right)
}

/// Whether what comes after the portal at a place lies ahead of it.
fn is_ahead_all(portals: &[Portal], goal: Point, place: usize) -> bool
    requires portals { All HasEndCoordinates portals.now }
    requires goal { HasCoordinates goal }
    requires there { place < length portals.now }
    ensures { IsTrue result → All (IsAhead (portal_at portals.now place)) (points_after portals.now goal place) }
{
    let portal = portals[place];
    if place + 1 >= portals.len() {
        return is_ahead(portal, goal);
    }
    let after = portals[place + 1];
    is_ahead(portal, after.left) && is_ahead(portal, after.right)
}

/// Whether the portal at a place is one of a chain.
fn is_portal(start: Point, portals: &[Portal], goal: Point, place: usize) -> bool
    requires start { HasCoordinates start }
    requires portals { All HasEndCoordinates portals.now }
    requires goal { HasCoordinates goal }
    requires there { place < length portals.now }
    ensures { IsTrue result → IsPortalOf start portals.now goal place }
{
    differ(portals[place].left, portals[place].right)
        && is_behind_all(start, portals, place)
        && is_ahead_all(portals, goal, place)
}

/// Whether points and portals are a small chain.
fn is_small_chain(start: Point, portals: &[Portal], goal: Point) -> bool
    ensures { IsTrue result → IsSmallChain start portals.now goal }
{
    if portals.len() > 100
        || !has_coordinates(start)
        || !has_coordinates(goal)
        || !have_coordinates(portals)
    {
        return false;
    }
    for place in 0..portals.len() {
        if !is_portal(start, portals, goal, place) {
            return false;
        }
    }
    true
}

/// Whether points and portals are a small chain, and the path through it has these corners.
fn turns_at(
    alloc: Global,
    start: Point,
    portals: &[Portal],
    goal: Point,
    turns: &[Corner],
) -> bool {
    if !is_small_chain(start, portals, goal) {
        return false;
    }
    match pull(alloc, start, portals, goal) {
        Ok(corners) => corners.as_slice() == turns,
        Err(_) => false,
    }
}

fn wrong_chain(alloc: Global, chains: &[Chain]) -> Option<usize> {
    for row in 0..chains.len() {
        let (start, portals, goal, turns) = chains[row];
        if !turns_at(alloc, start, portals, goal, turns) {
            return Some(row);
        }
    }
    None
}

static CHAINS: [Chain; 31] = [
    // Paths that go straight through.
    //
    // no portals
    (at!(0, 0), &[], at!(5, 5), &[]),
    // two portals in a row
    (
        at!(0, -8),
        &[portal!(-8, 0, 8, 0), portal!(-8, 8, 8, 8)],
        at!(0, 16),
        &[],
    ),
    // three portals, crosswise
    (
        at!(24, 24),
        &[
            portal!(16, 32, 80, 32),
            portal!(16, 48, 80, 48),
            portal!(16, 64, 80, 64),
        ],
        at!(72, 72),
        &[],
    ),
    // the start lies inside the first of three
    (
        at!(48, 32),
        &[
            portal!(16, 32, 80, 32),
            portal!(16, 48, 80, 48),
            portal!(16, 64, 80, 64),
        ],
        at!(48, 72),
        &[],
    ),
    // Paths that go straight where points lie on lines.
    //
    // start and goal at one point of the portal
    (at!(48, 48), &[portal!(16, 48, 80, 48)], at!(48, 48), &[]),
    // start and goal inside it
    (at!(8, 8), &[portal!(0, 8, 16, 8)], at!(8, 8), &[]),
    // two portals on one line, from a point of both
    (
        at!(8, 8),
        &[portal!(0, 8, 16, 8), portal!(4, 8, 24, 8)],
        at!(8, 16),
        &[],
    ),
    // one portal twice
    (
        at!(4, 0),
        &[portal!(0, 8, 8, 8), portal!(0, 8, 8, 8)],
        at!(4, 16),
        &[],
    ),
    // Turns at ends.
    //
    // to the left
    (
        at!(8, 0),
        &[portal!(0, 8, 16, 8), portal!(-16, 16, 0, 16)],
        at!(-12, 20),
        &[turn!(L, 0, 8, 0)],
    ),
    // to the right
    (
        at!(-8, 0),
        &[portal!(-16, 8, 0, 8), portal!(0, 16, 16, 16)],
        at!(12, 20),
        &[turn!(R, 0, 8, 0)],
    ),
    // left, right and left
    (
        at!(8, 0),
        &[
            portal!(0, 8, 16, 8),
            portal!(-32, 24, -16, 24),
            portal!(16, 48, 32, 48),
        ],
        at!(24, 64),
        &[turn!(L, 0, 8, 0), turn!(R, -16, 24, 1), turn!(L, 16, 48, 2)],
    ),
    // twice to the left
    (
        at!(30, 0),
        &[
            portal!(20, 10, 40, 10),
            portal!(10, 30, 40, 30),
            portal!(-20, 50, 5, 50),
        ],
        at!(-30, 55),
        &[turn!(L, 10, 30, 1), turn!(L, -20, 50, 2)],
    ),
    // the goal beyond two left ends in line
    (
        at!(0, 0),
        &[portal!(0, 8, 8, 8), portal!(0, 16, 8, 16)],
        at!(0, 24),
        &[turn!(L, 0, 16, 1)],
    ),
    // Turns round several ends.
    //
    // a half turn round two ends
    (
        at!(40, 24),
        &[
            portal!(16, 32, 48, 32),
            portal!(16, 48, 48, 48),
            portal!(16, 64, 48, 64),
            portal!(16, 80, 48, 80),
            portal!(16, 96, 48, 96),
            portal!(112, 96, 64, 96),
            portal!(112, 80, 64, 80),
            portal!(112, 64, 64, 64),
            portal!(112, 48, 64, 48),
            portal!(112, 32, 64, 32),
        ],
        at!(72, 24),
        &[turn!(R, 48, 96, 4), turn!(R, 64, 96, 5)],
    ),
    // down, to the right, and up again
    (
        at!(40, 56),
        &[
            portal!(48, 48, 16, 48),
            portal!(64, 48, 64, 32),
            portal!(80, 48, 112, 48),
            portal!(80, 64, 112, 64),
        ],
        at!(88, 72),
        &[
            turn!(L, 48, 48, 0),
            turn!(L, 64, 48, 1),
            turn!(L, 80, 48, 2),
        ],
    ),
    // An end at the start or the goal is named.
    //
    // the start is the left end
    (
        at!(0, 8),
        &[portal!(0, 8, 16, 8)],
        at!(8, 16),
        &[turn!(L, 0, 8, 0)],
    ),
    // the right end
    (
        at!(16, 8),
        &[portal!(0, 8, 16, 8)],
        at!(8, 16),
        &[turn!(R, 16, 8, 0)],
    ),
    // the goal is the left end
    (
        at!(8, 0),
        &[portal!(0, 8, 16, 8)],
        at!(0, 8),
        &[turn!(L, 0, 8, 0)],
    ),
    // the right end
    (
        at!(8, 0),
        &[portal!(0, 8, 16, 8)],
        at!(16, 8),
        &[turn!(R, 16, 8, 0)],
    ),
    // the start lies beside the portal, on its line
    (
        at!(24, 8),
        &[portal!(0, 8, 16, 8)],
        at!(8, 16),
        &[turn!(R, 16, 8, 0)],
    ),
    // on the other side
    (
        at!(-8, 8),
        &[portal!(0, 8, 16, 8)],
        at!(8, 16),
        &[turn!(L, 0, 8, 0)],
    ),
    // the goal lies beside the portal, on its line
    (
        at!(8, 0),
        &[portal!(0, 8, 16, 8)],
        at!(24, 8),
        &[turn!(R, 16, 8, 0)],
    ),
    // and there is another portal
    (
        at!(24, 0),
        &[portal!(0, 0, 16, 0), portal!(0, 8, 16, 8)],
        at!(8, 16),
        &[turn!(R, 16, 0, 0)],
    ),
    // Turns round ends that portals share.
    //
    // a full turn is not named again at the portals that are seen
    (
        at!(16, -16),
        &[
            portal!(0, 0, 32, 0),
            portal!(0, 0, -32, 0),
            portal!(0, 0, 32, 0),
        ],
        at!(16, 16),
        &[turn!(L, 0, 0, 0), turn!(L, 0, 0, 1), turn!(L, 0, 0, 2)],
    ),
    // a quarter turn
    (
        at!(8, -8),
        &[
            portal!(0, 0, 16, 0),
            portal!(0, 0, 16, 16),
            portal!(0, 0, 0, 16),
        ],
        at!(-16, 12),
        &[turn!(L, 0, 0, 2)],
    ),
    // to the right
    (
        at!(-8, -8),
        &[
            portal!(-16, 0, 0, 0),
            portal!(-16, 16, 0, 0),
            portal!(0, 16, 0, 0),
        ],
        at!(16, 12),
        &[turn!(R, 0, 0, 2)],
    ),
    // Spirals.
    //
    // two turns of a spiral
    (
        at!(8, -8),
        &[
            portal!(0, 0, 16, 0),
            portal!(0, 0, 0, 16),
            portal!(0, 0, -16, 0),
            portal!(0, 0, 0, -16),
            portal!(0, 0, 16, 0),
            portal!(0, 0, 0, 16),
        ],
        at!(-8, 8),
        &[
            turn!(L, 0, 0, 1),
            turn!(L, 0, 0, 2),
            turn!(L, 0, 0, 3),
            turn!(L, 0, 0, 4),
            turn!(L, 0, 0, 5),
        ],
    ),
    // and to the right
    (
        at!(-8, -8),
        &[
            portal!(-16, 0, 0, 0),
            portal!(0, 16, 0, 0),
            portal!(16, 0, 0, 0),
            portal!(0, -16, 0, 0),
            portal!(-16, 0, 0, 0),
        ],
        at!(-8, 8),
        &[
            turn!(R, 0, 0, 1),
            turn!(R, 0, 0, 2),
            turn!(R, 0, 0, 3),
            turn!(R, 0, 0, 4),
        ],
    ),
    // Portals that fold.
    //
    // a chain in which no bend can be held by its ends
    (
        at!(0, 0),
        &[portal!(1, 1, 2, 1), portal!(3, 1, 0, 1)],
        at!(0, 0),
        &[turn!(L, 1, 1, 0)],
    ),
    // the second portal folds back inside the first
    (
        at!(2, 1),
        &[portal!(0, 1, 4, 1), portal!(3, 1, 1, 1)],
        at!(2, 0),
        &[turn!(L, 0, 1, 0), turn!(R, 1, 1, 1)],
    ),
    // and with its right end there
    (
        at!(4, -8),
        &[portal!(0, 0, 8, 0), portal!(16, 0, 2, 0)],
        at!(4, -4),
        &[turn!(R, 2, 0, 1)],
    ),
];

#[test]
fn pulls_paths(rt: HostRuntime) {
    all_hold(&rt, "chains", wrong_chain(rt.alloc(), &CHAINS));
}
