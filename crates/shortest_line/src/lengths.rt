//! Lengths in parts, of which a sixteenth of a cell has 4096: of one leg, rounded down or up, and of a line. Whether two of them are as good as one.

ghost use Rattle.std.specs.Prelude.{◌≡◌, ◌≤◌, ◌<◌, ◌+◌, ◌*◌, ◌^◌, ◌∷◌, ◌++◌, [], All, length, map};
ghost use Rattle.std.specs.Bool.{MatchBool};
ghost use Rattle.nav_base.specs.Deviation.{square_of};
ghost use Rattle.nav_base.specs.Point.{HasCoordinates, from_to};
ghost use Rattle.nav_base.specs.Root.{ceil_sqrt_of};
ghost use Rattle.mesh_types.specs.declared.answers.Corner.{Corner};
ghost use Rattle.shortest_line.specs.Lines.{IsClose, measured_of};

use mesh_types::Corner;
use nav_base::{Point, ceil_sqrt, square_distance};
use std::num::f64_to_bits_with_nan;

/// How many squares of a part a squared sixteenth has.
const SQUARE_PARTS: u64 = 16777216;

/// How many parts a sixteenth has.
const PARTS: f64 = 4096.0;

/// A number of 53 binary places before the point: the lowest of a sum with it are those of the other number, rounded.
const SHIFT: f64 = 4503599627370496.0;

/// The bits of that number.
const SHIFT_BITS: u64 = 4841369599423283200;

/// The greatest number whose square is at most `n`.
fn root_down(n: u64) -> u64
    requires { n ≤ 4294967295 * 4294967295 }
    ensures low { result * result ≤ n }
    ensures next { n < (result + 1) * (result + 1) }
{
    let root = u64::from(ceil_sqrt(n));
    if n < root * root { root - 1 } else { root }
}

/// The square of the distance of two points, in squares of a part.
#[tactic(auto, using(crate::proofs::LengthLaws::square_most))]
fn square_in_parts(a: Point, b: Point) -> u64
    requires first { HasCoordinates a }
    requires second { HasCoordinates b }
    ensures value { result ≡ 4096 * 4096 * square_of (from_to a b) }
    ensures few { result ≤ 2 ^ 59 }
{
    square_distance(a, b) * SQUARE_PARTS
}

/// The distance of two points in parts, rounded down.
#[tactic(auto, using(crate::proofs::LengthLaws::root_few))]
pub(crate) fn down(a: Point, b: Point) -> u64
    requires first { HasCoordinates a }
    requires second { HasCoordinates b }
    ensures low { result * result ≤ 4096 * 4096 * square_of (from_to a b) }
    ensures next { 4096 * 4096 * square_of (from_to a b) < (result + 1) * (result + 1) }
    ensures few { result < 2 ^ 30 }
{
    root_down(square_in_parts(a, b))
}

/// The distance of two points in parts, rounded up.
#[tactic(auto, using(crate::proofs::LengthLaws::up_few))]
pub(crate) fn up(a: Point, b: Point) -> u64
    requires first { HasCoordinates a }
    requires second { HasCoordinates b }
    ensures value { result ≡ ceil_sqrt_of (4096 * 4096 * square_of (from_to a b)) }
    ensures few { result ≤ 2 ^ 30 }
{
    u64::from(ceil_sqrt(square_in_parts(a, b)))
}

/// The distance of two points in parts, rounded down, as a search reckons it: of points far from any field nothing is promised.
pub(crate) fn leg(a: Point, b: Point) -> u64 {
    let across = b.x.wrapping_sub(a.x);
    let along = b.z.wrapping_sub(a.z);
    let square = across
        .wrapping_mul(across)
        .wrapping_add(along.wrapping_mul(along));
    root_in_parts(square.cast_unsigned())
}

/// The same where the square of the distance is so much greater.
pub(crate) fn leg_with(a: Point, b: Point, more: i64) -> u64 {
    let across = b.x.wrapping_sub(a.x);
    let along = b.z.wrapping_sub(a.z);
    let square = across
        .wrapping_mul(across)
        .wrapping_add(along.wrapping_mul(along));
    let more = u32::try_from(more).unwrap_or(0);
    root_in_parts(square.cast_unsigned().saturating_add(more))
}

/// The root of a number of squared sixteenths in parts, rounded down. Its guess, by floating point, may be one too great.
fn root_in_parts(square: u32) -> u64 {
    let shifted = f64::from(square).sqrt() * PARTS + SHIFT;
    let root = f64_to_bits_with_nan(shifted).wrapping_sub(SHIFT_BITS);
    if root.wrapping_mul(root) > u64::from(square) * SQUARE_PARTS {
        root.wrapping_sub(1)
    } else {
        root
    }
}

/// The parts of a line from a point over corners to a goal, each leg rounded up.
pub(crate) fn measured(from: Point, turns: &[Corner], goal: Point) -> u64
    requires few { length turns.now ≤ 8589934592 }
    requires start { HasCoordinates from }
    requires corners { All (λ (turn : Corner). HasCoordinates turn.at) turns.now }
    requires goal { HasCoordinates goal }
    ensures { result ≡ measured_of (from ∷ map (λ (turn : Corner). turn.at) turns.now ++ goal ∷ []) }
{
    let mut parts = 0;
    let mut at = from;
    for turn in turns {
        parts += up(at, turn.at);
        at = turn.at;
    }
    parts + up(at, goal)
}

/// Whether two numbers of parts are as good as one: the greater is more by at most a 256th of a cell, or by one part in 16384.
pub(crate) fn is_close(upper: u64, lower: u64) -> bool
    requires { lower < 2 ^ 30 }
    ensures { MatchBool result (IsClose upper lower) (IsClose upper lower → ⊥) }
{
    upper <= lower + (lower / 16384).max(256)
}
