//! Vectors of the plane: the differences of two points, with their cross and scalar product. Turns in the plane: the cross of two vectors,
//! and the side of a walk on which a point lies.

ghost use Rattle.std.specs.Prelude.{◌≡◌};
ghost use Rattle.nav_base.specs.Point.{HasCoordinates, cross_of, orient_of};

use crate::point::Point;

/// A vector of the plane. Its parts are wide enough for the difference of any two points.
#[derive(Clone, Copy)]
pub(crate) struct Vector {
    pub(crate) x: i64,
    pub(crate) z: i64,
}

impl Vector {
    ghost use Rattle.std.specs.Prelude.{◌≡◌};
    ghost use Rattle.nav_base.specs.Point.{HasCoordinates, cross_of, dot_of, from_to};
    ghost use Rattle.nav_base.specs.Deviation.{square_of};
    ghost use Rattle.nav_base.specs.Vector.{IsReach, point_of, vector_of};

    /// The place of a point, as the vector from the origin.
    pub(crate) fn to(p: Point) -> Self
        requires { HasCoordinates p }
        ensures value { result ≡ vector_of p }
        ensures reach { IsReach result }
    {
        Vector {
            x: p.x as i64,
            z: p.z as i64,
        }
    }

    /// The vector from `a` to `b`.
    pub(crate) fn between(a: Point, b: Point) -> Self
        requires first { HasCoordinates a }
        requires second { HasCoordinates b }
        ensures value { result ≡ vector_of (from_to a b) }
        ensures reach { IsReach result }
    {
        Vector {
            x: b.x as i64 - a.x as i64,
            z: b.z as i64 - a.z as i64,
        }
    }

    /// The cross of two vectors.
    pub(crate) fn cross(self, other: Self) -> i64
        requires first { IsReach self }
        requires second { IsReach other }
        ensures { result ≡ cross_of (point_of self) (point_of other) }
    {
        product(self.x, other.z) - product(self.z, other.x)
    }

    /// The scalar product of two vectors.
    pub(crate) fn dot(self, other: Self) -> i64
        requires first { IsReach self }
        requires second { IsReach other }
        ensures { result ≡ dot_of (point_of self) (point_of other) }
    {
        product(self.x, other.x) + product(self.z, other.z)
    }

    /// The square of the vector's length.
    pub(crate) fn square(self) -> u64
        requires { IsReach self }
        ensures { result ≡ square_of (point_of self) }
    {
        self.dot(self).unsigned_abs()
    }
}

ghost use Rattle.std.specs.Prelude.{◌≡◌, ◌≤◌, ◌^◌, ◌*ℤ◌};
ghost use Rattle.std.specs.Int.RustNames.{unsigned_abs};
ghost use Rattle.nav_base.specs.Reach.{IsWithinReach};

// The product of two parts, and that two such products can be added and subtracted.
fn product(m: i64, n: i64) -> i64
    requires first { IsWithinReach m }
    requires second { IsWithinReach n }
    ensures value { result ≡ m *ℤ n }
    ensures small { unsigned_abs result ≤ 2 ^ 34 }
{
    m * n
}

/// The cross of two vectors: positive where `b` points to the left of `a`.
pub fn cross(a: Point, b: Point) -> i64
    requires first { HasCoordinates a }
    requires second { HasCoordinates b }
    ensures { result ≡ cross_of a b }
{
    Vector::to(a).cross(Vector::to(b))
}

/// The turn at the walk from `a` to `b`: positive where `c` lies to the left of it, 0 where `c` lies on its line, negative
/// where `c` lies to the right. It is twice the area of the triangle, with that sign.
#[tactic(auto, unfolding(crate::specs::Point::orient_of))]
pub fn orient(a: Point, b: Point, c: Point) -> i64
    requires first { HasCoordinates a }
    requires second { HasCoordinates b }
    requires third { HasCoordinates c }
    ensures { result ≡ orient_of a b c }
{
    Vector::between(a, b).cross(Vector::between(a, c))
}
