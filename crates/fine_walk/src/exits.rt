//! The edges over which a straight way leaves a polygon.

ghost use Rattle.std.specs.Prelude.{◌≡◌, ◌↔◌, ◌<◌, ◌+◌, ◌*ℤ◌, ◌<ℤ◌, length, All, IsTrue, IfSome, IfNone};
ghost use Rattle.nav_base.specs.Point.{IsCellCorner};
ghost use Rattle.fine_walk.specs.FineRays.{FineHolds, IsFineExit, IsLeastFineExit};
ghost use Rattle.fine_walk.specs.Passing.{HasFineEnds, IsEntered, IsExitOver, IsFirstBefore, IsLeastOf};

use crate::fine_points::side;
use mesh_types::Polygon;
use nav_base::Point;

/// The straight way from one fine point to another.
#[derive(Clone, Copy)]
pub(crate) struct FineRay {
    pub(crate) from: Point,
    pub(crate) to: Point,
}

/// An edge of a polygon over which a ray leads out, by its place, and how far along the way the ray meets the edge's line, as the fraction
/// num / den.
#[derive(Clone, Copy)]
pub(crate) struct FineExit {
    pub(crate) edge: usize,
    pub(crate) num: i64,
    pub(crate) den: i64,
}

/// An exit of least fraction; none exactly where the polygon holds the point that the ray makes for.
pub(crate) fn least_exit(polygon: &Polygon, ray: FineRay) -> Option<FineExit>
    requires corners { All IsCellCorner polygon.now.corners }
    requires ray { HasFineEnds ray }
    requires entered { IsEntered polygon.now ray }
    ensures none { IfNone result (FineHolds polygon.now ray.to) }
    ensures least { IfSome result (λ exit. IsLeastOf polygon.now ray exit) }
{
    let mut first = None;
    for edge in 0..polygon.corners.as_slice().len() {
        first = earlier(polygon, edge, ray, first);
    }
    first
}

/// Of an exit of least fraction before an edge, and that edge, the one of lesser fraction.
fn earlier(
    polygon: &Polygon,
    edge: usize,
    ray: FineRay,
    first: Option<FineExit>,
) -> Option<FineExit>
    requires corners { All IsCellCorner polygon.now.corners }
    requires there { edge < length polygon.now.corners }
    requires ray { HasFineEnds ray }
    requires entered { IsEntered polygon.now ray }
    requires first { IsFirstBefore polygon.now ray edge first }
    ensures { IsFirstBefore polygon.now ray (edge + 1) result }
{
    let Some(exit) = exit_over(polygon, edge, ray) else {
        return first;
    };
    let Some(before) = first else {
        return Some(exit);
    };
    if is_less(exit, before) {
        Some(exit)
    } else {
        Some(before)
    }
}

/// Whether an edge is an exit of least fraction, where one such exit is known.
pub(crate) fn is_least(polygon: &Polygon, edge: usize, ray: FineRay, known: FineExit) -> bool
    requires corners { All IsCellCorner polygon.now.corners }
    requires there { edge < length polygon.now.corners }
    requires ray { HasFineEnds ray }
    requires entered { IsEntered polygon.now ray }
    requires known { IsLeastOf polygon.now ray known }
    ensures { IsTrue result ↔ IsLeastFineExit polygon.now ray.from ray.to edge }
{
    match exit_over(polygon, edge, ray) {
        Some(exit) => !is_less(known, exit),
        None => false,
    }
}

/// The exit over an edge; none exactly where the edge is not one.
fn exit_over(polygon: &Polygon, edge: usize, ray: FineRay) -> Option<FineExit>
    requires corners { All IsCellCorner polygon.now.corners }
    requires there { edge < length polygon.now.corners }
    requires ray { HasFineEnds ray }
    ensures none { IfNone result (IsFineExit polygon.now ray.to edge → ⊥) }
    ensures some { IfSome result (λ exit. IsExitOver polygon.now ray edge exit) }
{
    let beyond = side(polygon, edge, ray.to);
    if beyond >= 0 {
        return None;
    }
    let num = side(polygon, edge, ray.from);
    Some(FineExit {
        edge,
        num,
        den: num - beyond,
    })
}

/// Whether the fraction of one exit is less than that of another, whose denominators are above 0. The products need more than 64 bits.
fn is_less(a: FineExit, b: FineExit) -> bool
    ensures { IsTrue result ↔ ((a.num *ℤ b.den) <ℤ (b.num *ℤ a.den)) }
{
    product(a.num, b.den) < product(b.num, a.den)
}

/// A product in full.
fn product(m: i64, n: i64) -> i128
    ensures { result ≡ m *ℤ n }
{
    i128::from(m) * i128::from(n)
}
