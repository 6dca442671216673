//! Fine points: on which side of an edge one lies, and whether a polygon holds one.

ghost use Rattle.std.specs.Prelude.{◌≡◌, ◌↔◌, ◌<◌, ◌≤◌, ◌^◌, ◌*ℤ◌, ◌-ℤ◌, ◌<ℤ◌, pos, length, All, IsTrue};
ghost use Rattle.std.specs.Int.RustNames.{unsigned_abs};
ghost use Rattle.nav_base.specs.Point.{HasCoordinates, IsCellCorner, IsWithin, orient_of};
ghost use Rattle.fine_walk.specs.FineRays.{FineHolds, fine_of, fine_side};
ghost use Rattle.fine_walk.specs.Passing.{IsFinePoint};

use mesh_types::{Polygon, edge_ends};
use nav_base::Point;

/// Whether a polygon holds a fine point.
pub fn fine_holds(polygon: &Polygon, p: Point) -> bool
    requires corners { All IsCellCorner polygon.now.corners }
    requires point { IsWithin (2 ^ 20) p }
    ensures { IsTrue result ↔ FineHolds polygon.now p }
{
    for edge in 0..polygon.corners.as_slice().len() {
        if side(polygon, edge, p) < 0 {
            return false;
        }
    }
    true
}

/// On which side of an edge a fine point lies: above 0 to its left, below 0 to its right.
pub(crate) fn side(polygon: &Polygon, edge: usize, p: Point) -> i64
    requires corners { All IsCellCorner polygon.now.corners }
    requires there { edge < length polygon.now.corners }
    requires point { IsFinePoint p }
    ensures value { result ≡ fine_side polygon.now edge p }
    ensures small { unsigned_abs result ≤ 2 ^ 43 }
{
    let (begin, end) = edge_ends(polygon, edge);
    turn(fine(begin), fine(end), p)
}

/// A point in sixteenths of a cell as a fine one.
pub(crate) fn fine(p: Point) -> Point
    requires { HasCoordinates p }
    ensures value { result ≡ fine_of p }
    ensures reach { IsFinePoint result }
{
    Point {
        x: 16 * p.x,
        z: 16 * p.z,
    }
}

/// The turn at the walk from `a` to `b`: above 0 where `c` lies to the left of it, below 0 where `c` lies to the right.
pub(crate) fn turn(a: Point, b: Point, c: Point) -> i64
    requires first { IsFinePoint a }
    requires second { IsFinePoint b }
    requires third { IsFinePoint c }
    ensures value { result ≡ orient_of a b c }
    ensures small { unsigned_abs result ≤ 2 ^ 43 }
{
    let left = product(part(a.x, b.x), part(a.z, c.z));
    let right = product(part(a.z, b.z), part(a.x, c.x));
    left - right
}

/// The part of a vector between two points.
fn part(from: i32, to: i32) -> i64
    requires first { unsigned_abs from ≤ 2 ^ 20 }
    requires second { unsigned_abs to ≤ 2 ^ 20 }
    ensures value { result ≡ to -ℤ from }
    ensures small { unsigned_abs result ≤ 2 ^ 21 }
{
    i64::from(to) - i64::from(from)
}

/// The product of two parts.
fn product(m: i64, n: i64) -> i64
    requires first { unsigned_abs m ≤ 2 ^ 21 }
    requires second { unsigned_abs n ≤ 2 ^ 21 }
    ensures value { result ≡ m *ℤ n }
    ensures small { unsigned_abs result ≤ 2 ^ 42 }
{
    m * n
}
