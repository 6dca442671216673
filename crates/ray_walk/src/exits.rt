//! The edges over which a ray leaves a polygon.

ghost use Rattle.std.specs.Prelude.{◌≡◌, ◌↔◌, ◌<◌, ◌≤◌, ◌+◌, ◌^◌, ◌*ℤ◌, ◌<ℤ◌, length, All, IsTrue, IfSome, IfNone};
ghost use Rattle.std.specs.Int.RustNames.{unsigned_abs};
ghost use Rattle.nav_base.specs.Point.{HasCoordinates, IsCellCorner};
ghost use Rattle.mesh_types.specs.Located.{Holds};
ghost use Rattle.mesh_types.specs.Rays.{IsExit, IsLeastExit, side_of};
ghost use Rattle.ray_walk.specs.Walking.{HasEnds, IsEntered, IsExitOver, IsFirstBefore, IsFirstOf};

use crate::raycast::{Exit, Ray};
use mesh_types::{Polygon, edge_ends};
use nav_base::{Point, orient};

/// The first exit of least fraction; none exactly where the polygon holds the point that the ray makes for.
pub(crate) fn first_exit(polygon: &Polygon, ray: Ray) -> Option<Exit>
    requires corners { All IsCellCorner polygon.now.corners }
    requires ray { HasEnds ray }
    requires entered { IsEntered polygon.now ray }
    ensures none { IfNone result (Holds polygon.now ray.to) }
    ensures first { IfSome result (λ exit. IsFirstOf polygon.now ray exit) }
{
    let mut first = None;
    for edge in 0..polygon.corners.as_slice().len() {
        first = earlier(polygon, edge, ray, first);
    }
    first
}

/// Of the first exit of least fraction before an edge, and that edge, the one of lesser fraction.
fn earlier(polygon: &Polygon, edge: usize, ray: Ray, first: Option<Exit>) -> Option<Exit>
    requires corners { All IsCellCorner polygon.now.corners }
    requires there { edge < length polygon.now.corners }
    requires ray { HasEnds ray }
    requires entered { IsEntered polygon.now ray }
    requires first { IsFirstBefore polygon.now ray edge first }
    ensures { IsFirstBefore polygon.now ray (edge + 1) result }
{
    let Some(exit) = exit_over(polygon, edge, ray) else {
        return first;
    };
    let Some(before) = first else {
        return Some(exit);
    };
    if is_less(exit, before) {
        Some(exit)
    } else {
        Some(before)
    }
}

/// Whether an edge is an exit of least fraction, where one such exit is known.
pub(crate) fn is_least(polygon: &Polygon, edge: usize, ray: Ray, known: Exit) -> bool
    requires corners { All IsCellCorner polygon.now.corners }
    requires there { edge < length polygon.now.corners }
    requires ray { HasEnds ray }
    requires entered { IsEntered polygon.now ray }
    requires known { IsFirstOf polygon.now ray known }
    ensures { IsTrue result ↔ IsLeastExit polygon.now ray.from ray.to edge }
{
    match exit_over(polygon, edge, ray) {
        Some(exit) => !is_less(known, exit),
        None => false,
    }
}

/// The exit over an edge; none exactly where the edge is not one.
fn exit_over(polygon: &Polygon, edge: usize, ray: Ray) -> Option<Exit>
    requires corners { All IsCellCorner polygon.now.corners }
    requires there { edge < length polygon.now.corners }
    requires ray { HasEnds ray }
    ensures none { IfNone result (IsExit polygon.now ray.to edge → ⊥) }
    ensures some { IfSome result (λ exit. IsExitOver polygon.now ray edge exit) }
{
    let beyond = side(polygon, edge, ray.to);
    if beyond >= 0 {
        return None;
    }
    let num = side(polygon, edge, ray.from);
    Some(Exit {
        edge,
        num,
        den: num - beyond,
    })
}

/// Whether the fraction of one exit is less than that of another, whose denominators are above 0.
fn is_less(a: Exit, b: Exit) -> bool
    ensures { IsTrue result ↔ ((a.num *ℤ b.den) <ℤ (b.num *ℤ a.den)) }
{
    product(a.num, b.den) < product(b.num, a.den)
}

/// A product in full.
fn product(m: i64, n: i64) -> i128
    ensures { result ≡ m *ℤ n }
{
    i128::from(m) * i128::from(n)
}

/// On which side of an edge a point lies: above 0 to its left, below 0 to its right.
fn side(polygon: &Polygon, edge: usize, p: Point) -> i64
    requires corners { All IsCellCorner polygon.now.corners }
    requires there { edge < length polygon.now.corners }
    requires point { HasCoordinates p }
    ensures value { result ≡ side_of polygon.now edge p }
    ensures small { unsigned_abs result ≤ 2 ^ 35 }
{
    let (begin, end) = edge_ends(polygon, edge);
    orient(begin, end, p)
}
