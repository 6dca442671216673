//! Whether a triangle is gentle enough to walk on.
ghost use Rattle.std.specs.Prelude.{◌≡◌, ℕ, ◌+◌, ◌*◌, ◌≤◌, ℤ, pos, ◌-ℤ◌, ◌*ℤ◌, MatchBool};
ghost use Rattle.std.specs.Int.RustNames.{unsigned_abs};
ghost use Rattle.mesh_input.specs.Slopes.{IsGentle, IsUpper, IsFlatEnough, square};

use crate::slope::{Edge, Slope};

/// Whether a triangle is one to walk on, by its edges from the first corner to the second and to the third: it has a shadow on the ground,
/// lies with its upper side up where both sides do not count, and is no steeper than the slope.
pub fn is_gentle(slope: Slope, p: Edge, q: Edge) -> bool
    ensures { MatchBool result (IsGentle slope p q) (¬ IsGentle slope p q) }
{
    let up = shadow(p.z, p.x, q.z, q.x);
    let x = shadow(p.y, p.z, q.y, q.z).unsigned_abs();
    let z = shadow(p.x, p.y, q.x, q.y).unsigned_abs();
    is_upper(slope, up) && is_flat(slope, x, up.unsigned_abs(), z)
}

/// Whether a triangle with this shadow on the ground has one, and its upper side is up where both sides do not count.
fn is_upper(slope: Slope, up: i64) -> bool
    ensures { MatchBool result (IsUpper slope up) (¬ IsUpper slope up) }
{
    up > 0 || slope.both_sides && up < 0
}

/// The shadow of two edges on a plane of two axes, twice its area: each edge by its two numbers there.
fn shadow(a: i64, b: i64, c: i64, d: i64) -> i64
    requires a { unsigned_abs a ≤ 5000000 }
    requires b { unsigned_abs b ≤ 5000000 }
    requires c { unsigned_abs c ≤ 5000000 }
    requires d { unsigned_abs d ≤ 5000000 }
    ensures value { result ≡ (a *ℤ d) -ℤ (b *ℤ c) }
    ensures small { unsigned_abs result ≤ 50000000000000 }
{
    product(a, d) - product(b, c)
}

/// A product in 64 bits.
fn product(a: i64, b: i64) -> i64
    requires a { unsigned_abs a ≤ 5000000 }
    requires b { unsigned_abs b ≤ 5000000 }
    ensures value { result ≡ a *ℤ b }
    ensures small { unsigned_abs result ≤ 25000000000000 }
{
    a * b
}

/// Whether shadows of these sizes are those of a triangle that is no steeper than the slope.
fn is_flat(slope: Slope, x: u64, y: u64, z: u64) -> bool
    requires x { x ≤ 50000000000000 }
    requires y { y ≤ 50000000000000 }
    requires z { z ≤ 50000000000000 }
    ensures { MatchBool result (IsFlatEnough slope x y z) (¬ IsFlatEnough slope x y z) }
{
    let steep = squared(u64::from(slope.run)) * (squared(x) + squared(z));
    let level = squared(u64::from(slope.rise)) * squared(y);
    steep <= level
}

/// A product with itself.
fn squared(n: u64) -> u128
    ensures { result ≡ square n }
{
    u128::from(n) * u128::from(n)
}
