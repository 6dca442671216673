//! Deviations, as exact fractions. How far a point lies from a segment, and the order of such deviations.

ghost use Rattle.std.specs.Prelude.{◌≡◌, ◌↔◌, IsTrue};
ghost use Rattle.nav_base.specs.Point.{IsCellCorner};
ghost use Rattle.nav_base.specs.Deviation.{IsFraction, IsLess, Exceeds, deviation_of};

use crate::orientation::Vector;
use crate::point::Point;

/// The fraction `num / den`: the square of a distance, in squares of the points' unit. `den` is at least 1.
#[derive(Clone, Copy, PartialEq, Eq, Debug)]
pub struct Deviation {
    pub num: u64,
    pub den: u64,
}

/// The deviation of `p` from the segment from `a` to `b`, in squares of a cell: the square of the least distance from `p` to a point
/// of the segment. Where `a` and `b` are one point, that is the distance from it.
#[tactic(auto, unfolding(crate::specs::Deviation::deviation_of))]
pub fn dev(a: Point, b: Point, p: Point) -> Deviation
    requires first { IsCellCorner a }
    requires second { IsCellCorner b }
    requires point { IsCellCorner p }
    ensures value { result ≡ deviation_of a b p }
    ensures fraction { IsFraction result }
{
    let along = Vector::between(a, b);
    let to_point = Vector::between(a, p);
    let reached = along.dot(to_point);
    let length = along.dot(along);
    if reached <= 0 {
        return Deviation {
            num: to_point.square(),
            den: 1,
        };
    }
    if reached >= length {
        return Deviation {
            num: Vector::between(b, p).square(),
            den: 1,
        };
    }
    let aside = along.cross(to_point).unsigned_abs();
    Deviation {
        num: aside * aside,
        den: along.square(),
    }
}

/// Whether a hundred times the deviation is greater than `error`.
pub fn exceeds(d: Deviation, error: u32) -> bool
    ensures { IsTrue result ↔ Exceeds d error }
{
    100 * u128::from(d.num) > u128::from(error) * u128::from(d.den)
}

/// Whether the fraction `a` is less than the fraction `b`.
pub fn less(a: Deviation, b: Deviation) -> bool
    ensures { IsTrue result ↔ IsLess a b }
{
    u128::from(a.num) * u128::from(b.den) < u128::from(b.num) * u128::from(a.den)
}
