//! Ends of portals as corners. Looking for the first portal that the apex lies behind. The portals that the apex lies inside: they are
//! passed over, since whatever lies ahead of them is seen through them.

ghost use Rattle.std.specs.Prelude.{◌≡◌, ◌<◌, ◌^◌, ◌↔◌, ◌≤◌, pos, ◌≤ℤ◌, ◌<ℤ◌, IsTrue, MatchBool, All, length};
ghost use Rattle.nav_base.specs.Point.{HasCoordinates, dot_of, from_to};
ghost use Rattle.mesh_types.specs.declared.answers.Side.TheVariants.{L, R};
ghost use Rattle.funnel_path.specs.Coordinates.{HasEndCoordinates};
ghost use Rattle.funnel_path.specs.Corners.{IsNearerCorner, corner_at_end};
ghost use Rattle.mesh_types.specs.Chains.{IsBehind, portal_at};
ghost use Rattle.funnel_path.specs.Looks.{AreChained};
ghost use Rattle.funnel_path.specs.PassedOver.{LookOpposite};
ghost use Rattle.funnel_path.specs.Passings.{IsPassing};

use mesh_types::{Corner, Portal, Side};
use nav_base::{Point, dot, orient};

/// The corner at the left end of the portal at a place.
pub(crate) fn left_end(portal: Portal, place: usize) -> Corner
    requires { place < 2 ^ 32 }
    ensures { result ≡ corner_at_end L portal place }
{
    Corner {
        at: portal.left,
        side: Side::L,
        portal: place as u32,
    }
}

/// The corner at the right end of the portal at a place.
pub(crate) fn right_end(portal: Portal, place: usize) -> Corner
    requires { place < 2 ^ 32 }
    ensures { result ≡ corner_at_end R portal place }
{
    Corner {
        at: portal.right,
        side: Side::R,
        portal: place as u32,
    }
}

/// The corner at the end of the portal at a place that is nearer to the apex, the left one where both are as near.
pub(crate) fn nearer_end(apex: Point, portal: Portal, place: usize) -> Corner
    requires apex { HasCoordinates apex }
    requires portal { HasEndCoordinates portal }
    requires place { place < 2 ^ 32 }
    ensures { IsNearerCorner apex portal place result }
{
    if dot(apex, portal.left, apex, portal.left) <= dot(apex, portal.right, apex, portal.right) {
        left_end(portal, place)
    } else {
        right_end(portal, place)
    }
}

/// Passes over the portals from `first` on that the apex lies inside, up to the first that it lies behind. There is a corner at once where
/// the apex lies on a portal's line and not inside it, and where it lies inside two portals that look opposite ways.
pub(crate) fn pass_over(apex: Point, portals: &[Portal], first: usize) -> Passing
    requires apex { HasCoordinates apex }
    requires coordinates { All HasEndCoordinates portals.now }
    requires few { length portals.now < 4294967295 }
    requires chained { AreChained portals.now }
    requires first { first ≤ length portals.now }
    requires behind { first < length portals.now → IsBehind (portal_at portals.now first) apex }
    ensures { IsPassing apex portals.now first result }
{
    for place in first..portals.len() {
        let portal = portals[place];
        if orient(portal.right, portal.left, apex) != 0 {
            return Passing::Behind(place);
        }
        if !is_inside(apex, portal) {
            return Passing::SteppedNumber(nearer_end(apex, portal, place));
        }
        if first < place && look_opposite(portals[place - 1], portal) {
            return Passing::SteppedNumber(left_end(portals[place - 1], place - 1));
        }
    }
    Passing::Done
}

/// Whether the apex, which lies on a portal's line, lies strictly between its ends.
fn is_inside(apex: Point, portal: Portal) -> bool
    requires apex { HasCoordinates apex }
    requires portal { HasEndCoordinates portal }
    ensures { MatchBool result (dot_of (from_to apex portal.left) (from_to apex portal.right) <ℤ pos 0)
        (pos 0 ≤ℤ dot_of (from_to apex portal.left) (from_to apex portal.right)) }
{
    dot(apex, portal.left, apex, portal.right) < 0
}

/// Whether two portals on one line look opposite ways.
fn look_opposite(a: Portal, b: Portal) -> bool
    requires first { HasEndCoordinates a }
    requires second { HasEndCoordinates b }
    ensures { IsTrue result ↔ LookOpposite a b }
{
    dot(a.right, a.left, b.right, b.left) < 0
}

/// Where the passing over of portals ends.
#[derive(Clone, Copy)]
pub(crate) enum Passing {
    /// The apex lies inside all portals that are left.
    Done,
    /// The apex lies behind the portal at this place.
    Behind(usize),
    /// There is a corner at once.
    SteppedNumber(Corner),
}
