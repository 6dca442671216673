//! Whether two that go straight and evenly for one step keep a distance all the while.

ghost use Rattle.std.specs.Prelude.{◌≡◌, ◌↔◌, ◌≤◌, ◌^◌, ◌+ℤ◌, ◌*ℤ◌, ◌≤ℤ◌, pos, IsTrue};
ghost use Rattle.std.specs.Int.RustNames.{unsigned_abs};
ghost use Rattle.nav_base.specs.Point.{IsWithin, dot_of};
ghost use Rattle.crowd_moves.specs.Beyond.{KeepsBeyond, NeverBelow};

use nav_base::Point;

/// Whether two stay at least a distance apart at every moment of a step, the ends included. `place` is where the one is, seen from the other, and
/// `way` by how much that changes in the step. `gap` is the square of the distance.
pub fn stays_beyond(place: Point, way: Point, gap: u32) -> bool
    requires place { IsWithin (2 ^ 15) place }
    requires way { IsWithin (2 ^ 15) way }
    requires gap { gap ≤ 2 ^ 30 }
    ensures { IsTrue result ↔ KeepsBeyond gap place way }
{
    let over = dot(place, place) - i64::from(gap);
    let toward = dot(place, way);
    let moved = dot(way, way);
    is_never_below(over, toward, moved)
}

/// Whether c + 2 b t + w t t is at least 0 at each t from 0 to 1. It is least at 0 where b is not negative, at 1 where -b is w or more, and at -b / w
/// between.
fn is_never_below(c: i64, b: i64, w: i64) -> bool
    requires first { unsigned_abs c ≤ 2 ^ 31 }
    requires second { unsigned_abs b ≤ 2 ^ 31 }
    requires third { unsigned_abs w ≤ 2 ^ 31 }
    requires square { pos 0 ≤ℤ w }
    ensures { IsTrue result ↔ NeverBelow c b w }
{
    if c < 0 {
        return false;
    }
    if b >= 0 {
        return true;
    }
    if -b >= w {
        return at_end(c, b, w) >= 0;
    }
    product(b, b) <= product(w, c)
}

/// What c + 2 b t + w t t is at 1.
fn at_end(c: i64, b: i64, w: i64) -> i64
    requires first { unsigned_abs c ≤ 2 ^ 31 }
    requires second { unsigned_abs b ≤ 2 ^ 31 }
    requires third { unsigned_abs w ≤ 2 ^ 31 }
    ensures { result ≡ w +ℤ pos 2 *ℤ b +ℤ c }
{
    w + 2 * b + c
}

/// The scalar product of two vectors.
fn dot(u: Point, v: Point) -> i64
    requires first { IsWithin (2 ^ 15) u }
    requires second { IsWithin (2 ^ 15) v }
    ensures value { result ≡ dot_of u v }
    ensures small { unsigned_abs result ≤ 2 ^ 31 }
{
    let across = part_product(u.x, v.x);
    let along = part_product(u.z, v.z);
    across + along
}

/// The product of two parts of vectors.
fn part_product(m: i32, n: i32) -> i64
    requires first { unsigned_abs m ≤ 2 ^ 15 }
    requires second { unsigned_abs n ≤ 2 ^ 15 }
    ensures value { result ≡ m *ℤ n }
    ensures small { unsigned_abs result ≤ 2 ^ 30 }
{
    i64::from(m) * i64::from(n)
}

/// The product of two numbers that are small enough.
fn product(m: i64, n: i64) -> i64
    requires first { unsigned_abs m ≤ 2 ^ 31 }
    requires second { unsigned_abs n ≤ 2 ^ 31 }
    ensures { result ≡ m *ℤ n }
{
    m * n
}
