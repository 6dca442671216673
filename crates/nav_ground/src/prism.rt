//! The bases of prisms: which columns share area with one, and which have their middles in it.

ghost use Rattle.std.specs.Prelude.{◌≡◌, ℕ, ◌↔◌, ◌+◌, ◌*◌, ◌<◌, ◌≤◌, ℤ, pos, negsuc, ◌-ℤ◌, ◌*ℤ◌, ◌≤ℤ◌, ◌<ℤ◌, ◌^◌, if◌then◌else◌, IsTrue, IfSome, IsNone, All, EachIndex, length};
ghost use Rattle.std.specs.Int.{int_min, int_max};
ghost use Rattle.std.specs.Int.RustNames.{unsigned_abs};
ghost use Rattle.nav_base.specs.declared.point.Point.{Point};
ghost use Rattle.nav_base.specs.Point.{orient_of};
ghost use Rattle.nav_base.specs.Convex.{IsStrictlyConvex, LiesLeft, corner_at, place_after};
ghost use Rattle.nav_base.specs.Reach.{IsWithinReach};
ghost use Rattle.nav_ground.specs.Prisms.{HoldsMiddle, IsBase, IsInBox, IsInsideColumn, IsNearPoint, IsPointOf, IsPrismBase, IsReached, SharesArea, corners_of, far_turn, middle_turn, next_corner};
ghost use Rattle.nav_ground.specs.CornerBoxes.{box_of};
ghost use Rattle.nav_ground.specs.Shapes.{box_window};

use crate::cell::Window;
use nav_base::{Point, next_place};

/// The base of a prism: its corners, counterclockwise, in sixteenths of a cell, each part -16384 to 81920. There are 3 to 6, and they are strictly
/// convex. What stands in the places behind the last counts only where shapes are compared; `prism_base` leaves them at the origin.
#[derive(Clone, Copy, PartialEq, Eq, Debug)]
pub struct PrismBase {
    pub count: u32,
    pub corners: [Point; 6],
}

/// The base with some corners; none exactly where they are not those of a base.
pub fn prism_base(corners: &[Point]) -> Option<PrismBase>
    ensures corners { IfSome result (λ base. corners_of base ≡ corners.now) }
    ensures limits { IfSome result IsPrismBase }
    ensures none { IsNone result ↔ (IsBase corners.now → ⊥) }
{
    if !is_base(corners) {
        return None;
    }
    let mut kept = [Point { x: 0, z: 0 }; 6];
    kept[..corners.len()].copy_from_slice(corners);
    Some(PrismBase {
        count: corners.len() as u32,
        corners: kept,
    })
}

/// Whether some corners are those of a base.
fn is_base(corners: &[Point]) -> bool
    ensures { IsTrue result ↔ IsBase corners.now }
{
    corners.len() <= 6 && are_near(corners) && is_convex(corners)
}

fn are_near(corners: &[Point]) -> bool
    ensures { IsTrue result ↔ All IsNearPoint corners.now }
{
    for corner in corners {
        if !is_near(*corner) {
            return false;
        }
    }
    true
}

/// Whether a point may be a corner of a prism, or the centre of a disc.
pub fn is_near(point: Point) -> bool
    ensures { IsTrue result ↔ IsNearPoint point }
{
    -16384 <= point.x && point.x <= 81920 && -16384 <= point.z && point.z <= 81920
}

/// Whether corners within the limits are strictly convex, counterclockwise.
fn is_convex(corners: &[Point]) -> bool
    requires { All IsNearPoint corners.now }
    ensures { IsTrue result ↔ IsStrictlyConvex corners.now }
{
    if corners.len() < 3 {
        return false;
    }
    for place in 0..corners.len() {
        if !others_left(corners, place) {
            return false;
        }
    }
    true
}

/// Whether each corner ends the side that begins at `place`, or lies strictly to its left.
fn others_left(corners: &[Point], place: usize) -> bool
    requires near { All IsNearPoint corners.now }
    requires there { place < length corners.now }
    ensures { IsTrue result ↔ EachIndex corners.now (LiesLeft corners.now place) }
{
    let after = next_place(corners.len(), place);
    for other in 0..corners.len() {
        if other != place
            && other != after
            && !is_left(corners[place], corners[after], corners[other])
        {
            return false;
        }
    }
    true
}

/// Whether `c` lies strictly to the left of the walk from `a` to `b`.
fn is_left(a: Point, b: Point, c: Point) -> bool
    requires first { IsNearPoint a }
    requires second { IsNearPoint b }
    requires third { IsNearPoint c }
    ensures { IsTrue result ↔ (pos 0 <ℤ orient_of a b c) }
{
    turn(a, b, c) > 0
}

/// The corners of a base.
pub fn corners(base: &PrismBase) -> &[Point]
    requires { base.now.count ≤ 6 }
    ensures { result.now ≡ corners_of base.now }
{
    &base.corners[..base.count as usize]
}

/// Whether a column shares area with a base. It does where it has a point of the base strictly inside, so that nothing leaks through a base however
/// thin; and where the base holds its middle.
pub fn shares_area(base: &PrismBase, x: u32, z: u32) -> bool
    requires { IsPrismBase base.now }
    ensures value { IsTrue result ↔ SharesArea (corners_of base.now) x z }
    ensures reaches { (n : ℕ) (at : Point) → 0 < n → IsPointOf (corners_of base.now) n at → IsInsideColumn n at x z → IsTrue result }
    ensures held { HoldsMiddle (corners_of base.now) x z → IsTrue result }
{
    is_sharing(corners(base), x, z)
}

fn is_sharing(corners: &[Point], x: u32, z: u32) -> bool
    requires { IsBase corners.now }
    ensures { IsTrue result ↔ SharesArea corners.now x z }
{
    if !is_in_box(corners, x, z) {
        return false;
    }
    for place in 0..corners.len() {
        if !reaches_over(corners, place, x, z) {
            return false;
        }
    }
    true
}

/// Whether the middle of a column lies in a base or on its rim.
pub(crate) fn holds_middle(corners: &[Point], x: u32, z: u32) -> bool
    requires { IsBase corners.now }
    ensures { IsTrue result ↔ HoldsMiddle corners.now x z }
{
    if !is_in_box(corners, x, z) {
        return false;
    }
    for place in 0..corners.len() {
        if is_middle_right(corners, place, x, z) {
            return false;
        }
    }
    true
}

/// Whether a part of a column lies to the left of the side that begins at a place.
fn reaches_over(corners: &[Point], place: usize, x: u32, z: u32) -> bool
    requires near { All IsNearPoint corners.now }
    requires there { place < length corners.now }
    requires column { (x < 5120) × (z < 5120) }
    ensures { IsTrue result ↔ (pos 0 <ℤ far_turn corners.now x z place) }
{
    let from = corners[place];
    let to = corners[next_place(corners.len(), place)];
    turn(from, to, far_corner(from, to, x, z)) > 0
}

/// Whether the middle of a column lies to the right of the side that begins at a place.
fn is_middle_right(corners: &[Point], place: usize, x: u32, z: u32) -> bool
    requires near { All IsNearPoint corners.now }
    requires there { place < length corners.now }
    requires column { (x < 5120) × (z < 5120) }
    ensures { IsTrue result ↔ (middle_turn corners.now x z place <ℤ pos 0) }
{
    let from = corners[place];
    let to = corners[next_place(corners.len(), place)];
    turn(from, to, middle(x, z)) < 0
}

/// The corner of a column that lies farthest to the left of a walk.
fn far_corner(a: Point, b: Point, x: u32, z: u32) -> Point
    requires { (x < 5120) × (z < 5120) }
    ensures value { result ≡ Rattle.nav_ground.specs.Prisms.far_corner a b x z }
    ensures near { IsNearPoint result }
{
    Point {
        x: side_of(x, b.z < a.z),
        z: side_of(z, a.x < b.x),
    }
}

/// The least number of a column's range along an axis, or the greatest.
fn side_of(column: u32, is_greatest: bool) -> i32
    requires { column < 5120 }
    ensures value { result ≡ pos (16 * column + (if is_greatest then 16 else 0)) }
    ensures near { (negsuc 16383 ≤ℤ result) × (result ≤ℤ pos 81920) }
{
    if is_greatest {
        16 * column as i32 + 16
    } else {
        16 * column as i32
    }
}

/// The middle of a column.
fn middle(x: u32, z: u32) -> Point
    requires { (x < 5120) × (z < 5120) }
    ensures value { result ≡ Rattle.nav_ground.specs.Prisms.middle_of x z }
    ensures near { IsNearPoint result }
{
    Point {
        x: 16 * x as i32 + 8,
        z: 16 * z as i32 + 8,
    }
}

/// The turn at the walk from `a` to `b`: positive where `c` lies to the left of it.
fn turn(a: Point, b: Point, c: Point) -> i64
    requires first { IsNearPoint a }
    requires second { IsNearPoint b }
    requires third { IsNearPoint c }
    ensures { result ≡ orient_of a b c }
{
    product(difference(a.x, b.x), difference(a.z, c.z))
        - product(difference(a.z, b.z), difference(a.x, c.x))
}

fn difference(from: i32, to: i32) -> i64
    requires from { (negsuc 16383 ≤ℤ from) × (from ≤ℤ pos 81920) }
    requires to { (negsuc 16383 ≤ℤ to) × (to ≤ℤ pos 81920) }
    ensures value { result ≡ to -ℤ from }
    ensures reach { IsWithinReach result }
{
    to as i64 - from as i64
}

/// The product of two parts, and that two such products can be subtracted.
fn product(m: i64, n: i64) -> i64
    requires first { IsWithinReach m }
    requires second { IsWithinReach n }
    ensures value { result ≡ m *ℤ n }
    ensures small { unsigned_abs result ≤ 2 ^ 34 }
{
    m * n
}

/// The least and the greatest of the corners along each axis.
struct CornerBox {
    low: Point,
    high: Point,
}

fn corner_box(corners: &[Point]) -> CornerBox
    ensures { result ≡ box_of corners.now }
{
    let mut low = first(corners);
    let mut high = first(corners);
    for corner in corners {
        low = least_corner(low, *corner);
        high = greatest_corner(high, *corner);
    }
    CornerBox { low, high }
}

/// The first of some corners.
fn first(corners: &[Point]) -> Point
    ensures { result ≡ corner_at corners.now 0 }
{
    match corners.first() {
        Some(corner) => *corner,
        None => Point { x: 0, z: 0 },
    }
}

/// The corner of a box with the lesser parts of two corners.
fn least_corner(a: Point, b: Point) -> Point
    ensures x { result.x ≡ int_min a.x b.x }
    ensures z { result.z ≡ int_min a.z b.z }
{
    Point {
        x: a.x.min(b.x),
        z: a.z.min(b.z),
    }
}

/// The corner of a box with the greater parts of two corners.
fn greatest_corner(a: Point, b: Point) -> Point
    ensures x { result.x ≡ int_max a.x b.x }
    ensures z { result.z ≡ int_max a.z b.z }
{
    Point {
        x: a.x.max(b.x),
        z: a.z.max(b.z),
    }
}

/// Whether a column shares area with the box of some corners, where it is then near the largest field.
fn is_in_box(corners: &[Point], x: u32, z: u32) -> bool
    requires { IsBase corners.now }
    ensures value { IsTrue result ↔ IsInBox corners.now x z }
    ensures near { IsTrue result → (x < 5120) × (z < 5120) }
{
    let CornerBox { low, high } = corner_box(corners);
    is_reached(low.x, high.x, x) && is_reached(low.z, high.z, z)
}

/// Whether a column has a part between two numbers along an axis.
fn is_reached(low: i32, high: i32, column: u32) -> bool
    ensures { IsTrue result ↔ IsReached low high column }
{
    let column = 16 * column as i64;
    (low as i64) < column + 16 && column < high as i64
}

/// The columns with a part in the box of a base's corners.
pub(crate) fn base_window(corners: &[Point]) -> Window
    requires { IsBase corners.now }
    ensures { result ≡ Rattle.nav_ground.specs.Shapes.prism_window corners.now }
{
    let CornerBox { low, high } = corner_box(corners);
    window(low, high)
}

/// The columns with a part in a box of sixteenths.
pub(crate) fn window(low: Point, high: Point) -> Window
    requires { (negsuc 32767 ≤ℤ high.x) × (negsuc 32767 ≤ℤ high.z) }
    ensures { result ≡ box_window low.x high.x low.z high.z }
{
    Window {
        x0: first_column(low.x),
        x1: last_column(high.x),
        z0: first_column(low.z),
        z1: last_column(high.z),
    }
}

fn first_column(low: i32) -> i32
    ensures { result ≡ Rattle.nav_ground.specs.Prisms.first_column low }
{
    low.div_euclid(16)
}

fn last_column(high: i32) -> i32
    requires { negsuc 32767 ≤ℤ high }
    ensures { result ≡ Rattle.nav_ground.specs.Prisms.last_column high }
{
    (high - 1).div_euclid(16)
}
