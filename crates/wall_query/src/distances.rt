//! How far a point is from a segment, as a fraction, and which of two distances is greater.

ghost use Rattle.std.specs.Prelude.{◌≡◌, ◌↔◌, ◌*◌, IsTrue};
ghost use Rattle.nav_base.specs.Point.{IsInField};
ghost use Rattle.nav_base.specs.Deviation.{deviation_of};
ghost use Rattle.wall_slide.specs.Slides.{IsNoFarther, whole};

use nav_base::{Deviation, Point, dot, less, orient, square_distance};

/// The square of the least distance from a point to a point of the segment from `a` to `b`.
pub(crate) fn distance_to(a: Point, b: Point, p: Point) -> Deviation
    requires first { IsInField a }
    requires second { IsInField b }
    requires point { IsInField p }
    ensures { result ≡ deviation_of a b p }
{
    let reached = dot(a, b, a, p);
    if reached <= 0 {
        return to_point(a, p);
    }
    if reached >= dot(a, b, a, b) {
        return to_point(b, p);
    }
    let aside = orient(a, b, p).unsigned_abs();
    Deviation {
        num: aside * aside,
        den: square_distance(a, b),
    }
}

/// The square of the distance of two points.
fn to_point(a: Point, p: Point) -> Deviation
    requires first { IsInField a }
    requires point { IsInField p }
    ensures { result ≡ whole (Rattle.nav_base.specs.Deviation.square_of (Rattle.nav_base.specs.Point.from_to a p)) }
{
    Deviation {
        num: square_distance(a, p),
        den: 1,
    }
}

/// Whether a distance is at most another.
pub(crate) fn is_no_farther(a: Deviation, b: Deviation) -> bool
    ensures { IsTrue result ↔ IsNoFarther a b }
{
    !less(b, a)
}

/// The square of a reach.
pub(crate) fn square_of_reach(reach: u32) -> Deviation
    ensures { result ≡ whole (reach * reach) }
{
    Deviation {
        num: u64::from(reach) * u64::from(reach),
        den: 1,
    }
}
