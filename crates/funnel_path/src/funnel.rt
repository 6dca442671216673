//! The wedge that portals leave open to one who looks ahead. The cone: one looks ahead from the last corner until the wedge closes.

ghost use Rattle.std.specs.Prelude.{pos, ◌<◌, ◌≤◌, ◌<ℤ◌, All, length};
ghost use Rattle.nav_base.specs.Point.{HasCoordinates, orient_of};
ghost use Rattle.mesh_types.specs.Chains.{IsBehind, portal_at};
ghost use Rattle.funnel_path.specs.Coordinates.{HasEndCoordinates};
ghost use Rattle.funnel_path.specs.NextCorners.{IsNext};
ghost use Rattle.funnel_path.specs.Closings.{IsThrough};
ghost use Rattle.funnel_path.specs.Looks.{LeadsTo};

use crate::corners::{Passing, left_end, pass_over, right_end};
use mesh_types::{Corner, Portal};
use nav_base::{Point, orient};

/// The part of the plane between two rays from an apex, each given by the corner that it goes through: a left end of a portal on the left
/// ray, and a right end on the right ray.
#[derive(Clone, Copy)]
pub(crate) struct Funnel {
    pub(crate) left: Corner,
    pub(crate) right: Corner,
}

impl Funnel {
    ghost use Rattle.std.specs.Prelude.{◌≡◌, ◌<◌, ◌^◌, pos, ◌≤ℤ◌, ◌<ℤ◌, ◌↔◌, IsTrue, MatchBool};
    ghost use Rattle.nav_base.specs.Point.{HasCoordinates, orient_of};
    ghost use Rattle.funnel_path.specs.Coordinates.{HasEndCoordinates};
    ghost use Rattle.funnel_path.specs.Wedges.{HasWedgeCoordinates, IsInFront, IsLeftRay, IsMet, IsMetBeforeGoal, IsNarrowed, IsRightRay, wedge_of};

    /// The wedge through the portal at a place.
    pub(crate) fn of(portal: Portal, place: usize) -> Self
        requires { place < 2 ^ 32 }
        ensures { result ≡ wedge_of portal place }
    {
        Funnel {
            left: left_end(portal, place),
            right: right_end(portal, place),
        }
    }

    /// The corner at which the portal at a place closes the wedge, if it does: the left one where its right end is not to the right of the
    /// left ray, its right end where that lies inside the wedge and the portal looks back to the apex, and the right one where its left end
    /// is not to the left of the right ray.
    pub(crate) fn corner_met(self, apex: Point, portal: Portal, place: usize) -> Option<Corner>
        requires wedge { HasWedgeCoordinates self }
        requires apex { HasCoordinates apex }
        requires portal { HasEndCoordinates portal }
        requires place { place < 2 ^ 32 }
        ensures { IsMet apex self portal place result }
    {
        if self.closes_left(apex, portal.right) {
            return Some(self.left);
        }
        if self.closes_front(apex, portal) {
            return Some(right_end(portal, place));
        }
        if self.closes_right(apex, portal.left) {
            return Some(self.right);
        }
        None
    }

    /// The corner at which the wedge closes before the goal, where the goal does not lie inside it.
    pub(crate) fn corner_before(self, apex: Point, goal: Point) -> Option<Corner>
        requires wedge { HasWedgeCoordinates self }
        requires apex { HasCoordinates apex }
        requires goal { HasCoordinates goal }
        ensures { IsMetBeforeGoal apex self goal result }
    {
        if self.closes_left(apex, goal) {
            return Some(self.left);
        }
        if self.closes_right(apex, goal) {
            return Some(self.right);
        }
        None
    }

    /// Whether a point is not to the right of the left ray.
    fn closes_left(self, apex: Point, p: Point) -> bool
        requires wedge { HasWedgeCoordinates self }
        requires apex { HasCoordinates apex }
        requires point { HasCoordinates p }
        ensures { MatchBool result (pos 0 ≤ℤ orient_of apex self.left.at p) (orient_of apex self.left.at p <ℤ pos 0) }
    {
        orient(apex, self.left.at, p) >= 0
    }

    /// Whether a point is not to the left of the right ray.
    fn closes_right(self, apex: Point, p: Point) -> bool
        requires wedge { HasWedgeCoordinates self }
        requires apex { HasCoordinates apex }
        requires point { HasCoordinates p }
        ensures { MatchBool result (orient_of apex self.right.at p ≤ℤ pos 0) (pos 0 <ℤ orient_of apex self.right.at p) }
    {
        orient(apex, self.right.at, p) <= 0
    }

    /// Whether a portal has its right end to the left of the right ray, and the apex does not lie behind it.
    fn closes_front(self, apex: Point, portal: Portal) -> bool
        requires wedge { HasWedgeCoordinates self }
        requires apex { HasCoordinates apex }
        requires portal { HasEndCoordinates portal }
        ensures { IsTrue result ↔ IsInFront apex self portal }
    {
        !self.closes_right(apex, portal.right) && !lies_behind(apex, portal)
    }

    /// The part of the wedge that goes through the portal at a place as well.
    pub(crate) fn narrowed(self, apex: Point, portal: Portal, place: usize) -> Self
        requires wedge { HasWedgeCoordinates self }
        requires apex { HasCoordinates apex }
        requires portal { HasEndCoordinates portal }
        requires place { place < 2 ^ 32 }
        ensures { IsNarrowed apex self portal place result }
    {
        Funnel {
            left: self.left_ray(apex, portal, place),
            right: self.right_ray(apex, portal, place),
        }
    }

    /// The corner on the left ray once the wedge goes through the portal at a place: the portal's left end, unless it lies to the left.
    fn left_ray(self, apex: Point, portal: Portal, place: usize) -> Corner
        requires wedge { HasWedgeCoordinates self }
        requires apex { HasCoordinates apex }
        requires portal { HasEndCoordinates portal }
        requires place { place < 2 ^ 32 }
        ensures { IsLeftRay apex self portal place result }
    {
        if orient(apex, self.left.at, portal.left) <= 0 {
            left_end(portal, place)
        } else {
            self.left
        }
    }

    /// The corner on the right ray once the wedge goes through the portal at a place: the portal's right end, unless it lies to the right.
    fn right_ray(self, apex: Point, portal: Portal, place: usize) -> Corner
        requires wedge { HasWedgeCoordinates self }
        requires apex { HasCoordinates apex }
        requires portal { HasEndCoordinates portal }
        requires place { place < 2 ^ 32 }
        ensures { IsRightRay apex self portal place result }
    {
        if orient(apex, self.right.at, portal.right) >= 0 {
            right_end(portal, place)
        } else {
            self.right
        }
    }
}

ghost use Rattle.std.specs.Prelude.{pos, ◌≤ℤ◌, ◌<ℤ◌, MatchBool};
ghost use Rattle.nav_base.specs.Point.{HasCoordinates, orient_of};
ghost use Rattle.funnel_path.specs.Coordinates.{HasEndCoordinates};

/// Whether the apex lies behind a portal.
fn lies_behind(apex: Point, portal: Portal) -> bool
    requires apex { HasCoordinates apex }
    requires portal { HasEndCoordinates portal }
    ensures { MatchBool result (pos 0 <ℤ orient_of portal.right portal.left apex) (orient_of portal.right portal.left apex ≤ℤ pos 0) }
{
    orient(portal.right, portal.left, apex) > 0
}

/// The next corner of a path to `goal` that turned last at the apex, where `first` is the place of the first portal that lies ahead; none
/// where the goal is seen.
pub(crate) fn next_corner(
    apex: Point,
    portals: &[Portal],
    first: usize,
    goal: Point,
) -> Option<Corner>
    requires apex { HasCoordinates apex }
    requires coordinates { All HasEndCoordinates portals.now }
    requires goal { HasCoordinates goal }
    requires few { length portals.now < 4294967295 }
    requires chain { LeadsTo portals.now goal }
    requires first { first ≤ length portals.now }
    requires behind { first < length portals.now → IsBehind (portal_at portals.now first) apex }
    ensures { IsNext apex portals.now goal first result }
{
    match pass_over(apex, portals, first) {
        Passing::Done => None,
        Passing::SteppedNumber(corner) => Some(corner),
        Passing::Behind(ahead) => corner_through(apex, portals, ahead, goal),
    }
}

/// The corner at which the wedge from the apex closes, which begins as the one through the portal at `ahead`; none where the goal lies in
/// the wedge through all portals from there on.
fn corner_through(apex: Point, portals: &[Portal], ahead: usize, goal: Point) -> Option<Corner>
    requires apex { HasCoordinates apex }
    requires coordinates { All HasEndCoordinates portals.now }
    requires goal { HasCoordinates goal }
    requires few { length portals.now < 4294967295 }
    requires chain { LeadsTo portals.now goal }
    requires there { ahead < length portals.now }
    requires behind { pos 0 <ℤ orient_of (portal_at portals.now ahead).right (portal_at portals.now ahead).left apex }
    ensures { IsThrough apex portals.now goal ahead result }
{
    let mut wedge = Funnel::of(portals[ahead], ahead);
    for place in ahead + 1..portals.len() {
        let portal = portals[place];
        if let Some(corner) = wedge.corner_met(apex, portal, place) {
            return Some(corner);
        }
        wedge = wedge.narrowed(apex, portal, place);
    }
    wedge.corner_before(apex, goal)
}
