//! Points and vectors in fine units.
//!
//! Where nothing is promised of a point, sums and differences wrap: the coordinates of a mesh are far from where they would.

ghost use Rattle.std.specs.Prelude.{◌≡◌, ◌↔◌, ◌<◌, ◌≤◌, ◌*◌, ◌^◌, ◌≤ℤ◌, pos, IsTrue};
ghost use Rattle.std.specs.Int.RustNames.{unsigned_abs};
ghost use Rattle.nav_base.specs.Deviation.{square_of};
ghost use Rattle.nav_base.specs.Point.{HasCoordinates, IsWithin, from_to};
ghost use Rattle.nav_base.specs.Root.{IsLeastRoot, ceil_sqrt_of};
ghost use Rattle.fine_walk.specs.FineRays.{fine_of};

use nav_base::{Point, ceil_sqrt};

/// A point in sixteenths of a cell as a fine one.
pub(crate) fn fine(p: Point) -> Point
    requires { HasCoordinates p }
    ensures value { result ≡ fine_of p }
    ensures reach { IsWithin (2 ^ 20) result }
{
    Point {
        x: 16 * p.x,
        z: 16 * p.z,
    }
}

/// The vector from one fine point to another.
pub(crate) fn vector(from: Point, to: Point) -> Point
    requires first { IsWithin (2 ^ 20) from }
    requires second { IsWithin (2 ^ 20) to }
    ensures { result ≡ from_to from to }
{
    Point {
        x: to.x - from.x,
        z: to.z - from.z,
    }
}

/// Whether a point is a fine point: its parts are at most 2 ^ 20.
pub(crate) fn is_fine(p: Point) -> bool
    ensures { IsTrue result ↔ IsWithin (2 ^ 20) p }
{
    p.x.unsigned_abs() <= 1048576 && p.z.unsigned_abs() <= 1048576
}

/// A vector, cut to a length if it is longer.
pub(crate) fn cut(v: Point, most: u32) -> Point
    requires { most ≤ 8191 }
    ensures slow { square_of result ≤ most * most }
    ensures whole { square_of v ≤ most * most → result ≡ v }
{
    let length = length_of(v);
    if length <= most {
        return v;
    }
    Point {
        x: part_of(v.x, most, length),
        z: part_of(v.z, most, length),
    }
}

/// The length of a vector, rounded up.
pub(crate) fn length_of(v: Point) -> u32
    ensures value { result ≡ ceil_sqrt_of (square_of v) }
    ensures least { IsLeastRoot (square_of v) result }
{
    ceil_sqrt(square_length(v))
}

/// The square of the length of a vector.
#[tactic(auto, using(crowd_moves::proofs::PairLaws::squares_sum))]
fn square_length(v: Point) -> u64
    ensures value { result ≡ square_of v }
    ensures small { result ≤ 2 ^ 63 }
{
    square(v.x.unsigned_abs()) + square(v.z.unsigned_abs())
}

/// The square of a number.
fn square(n: u32) -> u64
    requires { n ≤ 2 ^ 31 }
    ensures value { result ≡ n * n }
    ensures small { result ≤ 2 ^ 62 }
{
    let wide = n as u64;
    wide * wide
}

/// The part of a vector of one length that belongs to a lesser length, rounded toward 0.
pub(crate) fn part_of(part: i32, most: u32, length: u32) -> i32
    requires most { most ≤ 8191 }
    requires shorter { most < length }
    ensures { unsigned_abs result * length ≤ unsigned_abs part * most }
{
    let share = share_of(part.unsigned_abs(), most, length);
    if part < 0 { -share } else { share }
}

/// The same of a number that is not negative.
fn share_of(part: u32, most: u32, length: u32) -> i32
    requires part { part ≤ 2 ^ 31 }
    requires most { most ≤ 8191 }
    requires shorter { most < length }
    ensures share { unsigned_abs result * length ≤ part * most }
    ensures positive { pos 0 ≤ℤ result }
{
    let share = u64::from(part) * u64::from(most) / u64::from(length);
    share as i32
}

/// The vector from one point to another, of which nothing is promised.
pub(crate) fn toward(from: Point, to: Point) -> Point {
    Point {
        x: to.x.wrapping_sub(from.x),
        z: to.z.wrapping_sub(from.z),
    }
}

/// The point to which a vector leads, of which nothing is promised.
pub(crate) fn onward(p: Point, v: Point) -> Point {
    Point {
        x: p.x.wrapping_add(v.x),
        z: p.z.wrapping_add(v.z),
    }
}

/// The turn at the walk from `a` to `b`: above 0 where `c` lies to the left of it, below 0 where `c` lies to the right.
pub(crate) fn turn(a: Point, b: Point, c: Point) -> i64 {
    let ahead = toward(a, b);
    let aside = toward(a, c);
    let left = i64::from(ahead.x).wrapping_mul(i64::from(aside.z));
    let right = i64::from(ahead.z).wrapping_mul(i64::from(aside.x));
    left.wrapping_sub(right)
}
