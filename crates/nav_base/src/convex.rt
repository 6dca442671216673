//! Strict convexity of polygons. Scalar products of the ways between points, and the squares of their lengths.

ghost use Rattle.std.specs.Prelude.{pos, ◌≡◌, ◌↔◌, ◌<◌, ◌<ℤ◌, All, EachIndex, IsTrue, length};
ghost use Rattle.nav_base.specs.Point.{HasCoordinates, orient_of, dot_of, from_to};
ghost use Rattle.nav_base.specs.Convex.{IsStrictlyConvex, LiesLeft, place_after};
ghost use Rattle.nav_base.specs.Deviation.{square_of};

use crate::orientation::{Vector, orient};
use crate::point::Point;

/// Whether the points, in their order, are the corners of a strictly convex polygon that is listed counterclockwise: there
/// are at least three, and each lies strictly to the left of each edge that it does not end.
pub fn strictly_convex(points: &[Point]) -> bool
    requires { All HasCoordinates points.now }
    ensures { IsTrue result ↔ IsStrictlyConvex points.now }
{
    if points.len() < 3 {
        return false;
    }
    for place in 0..points.len() {
        if !others_left(points, place) {
            return false;
        }
    }
    true
}

// Whether each corner ends the edge that begins at `place`, or lies strictly to its left.
fn others_left(points: &[Point], place: usize) -> bool
    requires coordinates { All HasCoordinates points.now }
    requires there { place < length points.now }
    ensures { IsTrue result ↔ EachIndex points.now (LiesLeft points.now place) }
{
    let after = next_place(points.len(), place);
    for other in 0..points.len() {
        if other != place
            && other != after
            && !is_left(points[place], points[after], points[other])
        {
            return false;
        }
    }
    true
}

// Whether `c` lies strictly to the left of the walk from `a` to `b`.
fn is_left(a: Point, b: Point, c: Point) -> bool
    requires first { HasCoordinates a }
    requires second { HasCoordinates b }
    requires third { HasCoordinates c }
    ensures { IsTrue result ↔ (pos 0 <ℤ orient_of a b c) }
{
    orient(a, b, c) > 0
}

/// The place after this one, the first after the last.
pub fn next_place(count: usize, place: usize) -> usize
    requires { place < count }
    ensures value { result ≡ place_after count place }
    ensures there { result < count }
{
    if place + 1 == count { 0 } else { place + 1 }
}

/// The scalar product of the way from `a` to `b` and the way from `c` to `d`, in squares of the unit of the points.
pub fn dot(a: Point, b: Point, c: Point, d: Point) -> i64
    requires first { HasCoordinates a }
    requires second { HasCoordinates b }
    requires third { HasCoordinates c }
    requires fourth { HasCoordinates d }
    ensures { result ≡ dot_of (from_to a b) (from_to c d) }
{
    Vector::between(a, b).dot(Vector::between(c, d))
}

/// The square of the distance between two points, in squares of their unit.
pub fn square_distance(from: Point, to: Point) -> u64
    requires from { HasCoordinates from }
    requires to { HasCoordinates to }
    ensures { result ≡ square_of (from_to from to) }
{
    Vector::between(from, to).square()
}
