//! The whole points that are near a way. How long a straight way is. Ways that are looked along.

ghost use Rattle.std.specs.Prelude.{◌≡◌, ◌↔◌, ℕ, ◌≤◌, ◌^◌, ◌⊎◌, false, pos, negsuc, ◌+ℤ◌, ◌-ℤ◌, ◌*ℤ◌, ◌≤ℤ◌, ◌<ℤ◌, ℤ};
ghost use Rattle.std.specs.Int.RustNames.{unsigned_abs};
ghost use Rattle.nav_base.specs.declared.point.Point as points;
ghost use Rattle.nav_base.specs.Point.{HasCoordinates, IsCoordinate};
ghost use Rattle.mesh_types.specs.LinkOrder.{is_point_before};
ghost use Rattle.surface_move.specs.Moves.{IsNear, IsNearAlong, leg_of};
ghost use Rattle.surface_move.specs.Ways.{IsRounded, IsWay};

use nav_base::Point;

/// The whole points that are near a way after a number of steps: two of which the second is not before the first, or one twice.
pub(crate) fn near_points(way: StraightWay, step: u32) -> (Point, Point)
    requires way { IsWay way }
    requires step { step ≤ way.steps }
    ensures near { (q : points.Point) → IsNear way.from way.to step q ↔ ((q ≡ result.0) ⊎ (q ≡ result.1)) }
    ensures order { is_point_before result.1 result.0 ≡ false }
    ensures first { HasCoordinates result.0 }
    ensures second { HasCoordinates result.1 }
{
    let across = near_coordinates(way.from.x, way.to.x, way.steps, step);
    let along = near_coordinates(way.from.z, way.to.z, way.steps, step);
    let first = Point {
        x: across.0,
        z: along.0,
    };
    let second = Point {
        x: across.1,
        z: along.1,
    };
    (first, second)
}

/// The same along one axis: the whole coordinates less than 1 away from the place that is reached, the lesser and the greater.
fn near_coordinates(from: i32, to: i32, steps: u32, step: u32) -> (i32, i32)
    requires from { IsCoordinate from }
    requires to { IsCoordinate to }
    requires some { 1 ≤ steps }
    requires few { steps ≤ 131072 }
    requires step { step ≤ steps }
    ensures near { (n : ℤ) → IsNearAlong steps step from to n ↔ ((n ≡ result.0) ⊎ (n ≡ result.1)) }
    ensures order { result.0 ≤ℤ result.1 }
    ensures low { IsCoordinate result.0 }
    ensures high { IsCoordinate result.1 }
{
    rounded(reached(from, to, steps, step), steps)
}

/// The place that is reached along one axis, times the number of all steps.
fn reached(from: i32, to: i32, steps: u32, step: u32) -> i64
    requires from { IsCoordinate from }
    requires to { IsCoordinate to }
    requires few { steps ≤ 131072 }
    requires step { step ≤ steps }
    ensures value { result ≡ pos steps *ℤ from +ℤ pos step *ℤ (to -ℤ from) }
    ensures low { (pos steps *ℤ negsuc 65535) ≤ℤ result }
    ensures high { result ≤ℤ (pos steps *ℤ pos 65536) }
{
    let left = product(steps - step, from);
    let gone = product(step, to);
    left + gone
}

/// A product in 64 bits.
fn product(n: u32, of: i32) -> i64
    requires few { n ≤ 131072 }
    requires of { IsCoordinate of }
    ensures value { result ≡ pos n *ℤ of }
    ensures small { unsigned_abs result ≤ 2 ^ 33 }
{
    i64::from(n) * i64::from(of)
}

/// A place times the number of all steps, divided by it, rounded down and up.
fn rounded(place: i64, steps: u32) -> (i32, i32)
    requires some { 1 ≤ steps }
    requires few { steps ≤ 131072 }
    requires least { (pos steps *ℤ negsuc 65535) ≤ℤ place }
    requires most { place ≤ℤ (pos steps *ℤ pos 65536) }
    ensures rounded { IsRounded (pos steps) place result.0 result.1 }
    ensures low { IsCoordinate result.0 }
    ensures high { IsCoordinate result.1 }
{
    let (low, rest) = quotient(place, steps);
    if rest == 0 {
        return (low as i32, low as i32);
    }
    (low as i32, (low + 1) as i32)
}

/// A quotient that is rounded down, and what it leaves.
fn quotient(place: i64, steps: u32) -> (i64, i64)
    requires some { 1 ≤ steps }
    requires few { steps ≤ 131072 }
    ensures whole { place ≡ pos steps *ℤ result.0 +ℤ result.1 }
    ensures least { pos 0 ≤ℤ result.1 }
    ensures less { result.1 <ℤ pos steps }
{
    let steps = i64::from(steps);
    (place.div_euclid(steps), place.rem_euclid(steps))
}

/// How far it is from one point to another along the longer axis, in the unit of the points.
pub fn leg(a: Point, b: Point) -> u32
    ensures { result ≡ leg_of a b }
{
    across(a, b).max(along(a, b))
}

/// How far it is along x.
pub(crate) fn across(a: Point, b: Point) -> u32
    ensures { result ≡ unsigned_abs (b.x -ℤ a.x) }
{
    b.x.abs_diff(a.x)
}

/// How far it is along z.
pub(crate) fn along(a: Point, b: Point) -> u32
    ensures { result ≡ unsigned_abs (b.z -ℤ a.z) }
{
    b.z.abs_diff(a.z)
}

/// The straight way from one point to another, with the number of its steps: as many as it is long on its longer axis.
#[derive(Clone, Copy)]
pub(crate) struct StraightWay {
    pub(crate) from: Point,
    pub(crate) to: Point,
    pub(crate) steps: u32,
}

/// Numbers of steps, from the least to the most; none where the most is less than the least.
#[derive(Clone, Copy)]
pub(crate) struct StepRange {
    pub(crate) least: u64,
    pub(crate) most: u64,
}

/// A number that changes with each step of a way: what it is at the start, and how much each step adds.
#[derive(Clone, Copy)]
pub(crate) struct SteppedNumber {
    pub(crate) start: i64,
    pub(crate) each: i64,
}
