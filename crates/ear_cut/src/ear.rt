//! Ears of what remains of an outline. Triangles of places of an outline.

ghost use Rattle.std.specs.Prelude.{◌≡◌, ◌<◌, length, All, true, IfSome, if◌then◌else◌, pos};
ghost use Rattle.std.specs.List.{list_any};
ghost use Rattle.std.specs.Option.{option_map_or};
ghost use Rattle.nav_base.specs.Point.{HasCoordinates, from_to, orient_of};
ghost use Rattle.mesh_types.specs.Choices.{or_later};
ghost use Rattle.mesh_types.specs.Ears.{ArePlacesOf, IsTriangleOf, best_ear, is_blocked_by, is_ear, triangle_at, is_apart, is_inside, turn_of};
ghost use Rattle.mesh_types.specs.Words.{is_narrower};
ghost use Rattle.mesh_types.specs.Rings.{place_before};
ghost use Rattle.std.specs.Int.Signed.{le_z, lt_z};
ghost use Rattle.nav_base.specs.Deviation.{square_of};
ghost use Rattle.nav_base.specs.Convex.{corner_at};

use mesh_types::Triangle;
use nav_base::{Point, next_place, orient, square_distance};

/// The position of the narrowest ear among the remaining places, and of equally narrow ones the first; none where there is no ear.
pub(crate) fn best_ear(corners: &[Point], rest: &[u32]) -> Option<usize>
    requires points { All HasCoordinates corners.now }
    requires places { ArePlacesOf corners.now rest.now }
    ensures value { result ≡ best_ear corners.now rest.now }
    ensures there { IfSome result (λ position. position < length rest.now) }
{
    let mut best = None;
    for position in 0..rest.len() {
        best = or_later(corners, rest, best, position);
    }
    best
}

/// The best ear so far, or the one at a later position where there is an ear that is narrower.
fn or_later(corners: &[Point], rest: &[u32], best: Option<usize>, position: usize) -> Option<usize>
    requires points { All HasCoordinates corners.now }
    requires places { ArePlacesOf corners.now rest.now }
    requires there { position < length rest.now }
    requires best { IfSome best (λ other. other < length rest.now) }
    ensures value { result ≡ (if is_ear corners.now rest.now position
        then or_later (is_narrower corners.now rest.now) best position else best) }
    ensures known { IfSome result (λ other. other < length rest.now) }
{
    if beats(corners, rest, best, position) && is_ear(corners, rest, position) {
        Some(position)
    } else {
        best
    }
}

/// Whether an ear at a position is narrower than the best so far, or the first.
fn beats(corners: &[Point], rest: &[u32], best: Option<usize>, position: usize) -> bool
    requires points { All HasCoordinates corners.now }
    requires places { ArePlacesOf corners.now rest.now }
    requires there { position < length rest.now }
    requires best { IfSome best (λ other. other < length rest.now) }
    ensures { result ≡ option_map_or (is_narrower corners.now rest.now position) best true }
{
    match best {
        Some(other) => {
            width(corners, triangle_at(rest, position)) < width(corners, triangle_at(rest, other))
        }
        None => true,
    }
}

/// Whether the place at a position is an ear.
fn is_ear(corners: &[Point], rest: &[u32], position: usize) -> bool
    requires points { All HasCoordinates corners.now }
    requires places { ArePlacesOf corners.now rest.now }
    requires there { position < length rest.now }
    ensures { result ≡ is_ear corners.now rest.now position }
{
    let triangle = triangle_at(rest, position);
    runs_counterclockwise(corners, triangle) && !is_blocked(corners, rest, triangle)
}

/// Whether a remaining corner blocks a triangle.
fn is_blocked(corners: &[Point], rest: &[u32], triangle: Triangle) -> bool
    requires points { All HasCoordinates corners.now }
    requires places { ArePlacesOf corners.now rest.now }
    requires there { IsTriangleOf corners.now triangle }
    ensures { result ≡ list_any (is_blocked_by corners.now triangle) rest.now }
{
    for place in rest {
        if is_blocked_by(corners, triangle, *place) {
            return true;
        }
    }
    false
}

/// The triangle of the place at a position, between the places before and after it.
pub(crate) fn triangle_at(rest: &[u32], position: usize) -> Triangle
    requires there { position < length rest.now }
    ensures { result ≡ triangle_at rest.now position }
{
    Triangle {
        a: rest[position_before(rest.len(), position)],
        b: rest[position],
        c: rest[next_place(rest.len(), position)],
    }
}

/// The position before one, the last before the first.
fn position_before(count: usize, position: usize) -> usize
    requires { position < count }
    ensures value { result ≡ place_before count position }
    ensures there { result < count }
{
    if position == 0 {
        count - 1
    } else {
        position - 1
    }
}

/// Whether a triangle runs counterclockwise.
pub(crate) fn runs_counterclockwise(corners: &[Point], triangle: Triangle) -> bool
    requires points { All HasCoordinates corners.now }
    requires there { IsTriangleOf corners.now triangle }
    ensures { result ≡ lt_z (pos 0) (turn_of corners.now triangle) }
{
    let a = corners[triangle.a as usize];
    let b = corners[triangle.b as usize];
    let c = corners[triangle.c as usize];
    orient(a, b, c) > 0
}

/// Whether the corner at a place lies in a triangle or on its rim, at a point other than the triangle's corners.
pub(crate) fn is_blocked_by(corners: &[Point], triangle: Triangle, place: u32) -> bool
    requires points { All HasCoordinates corners.now }
    requires there { IsTriangleOf corners.now triangle }
    requires place { place < length corners.now }
    ensures { result ≡ is_blocked_by corners.now triangle place }
{
    let a = corners[triangle.a as usize];
    let b = corners[triangle.b as usize];
    let c = corners[triangle.c as usize];
    let p = corners[place as usize];
    is_apart(a, b, c, p) && is_inside(a, b, c, p)
}

/// The square of the distance between the first and the last corner of a triangle, in squares of the unit of the points.
pub(crate) fn width(corners: &[Point], triangle: Triangle) -> u64
    requires points { All HasCoordinates corners.now }
    requires there { IsTriangleOf corners.now triangle }
    ensures { result ≡ square_of (from_to (corner_at corners.now triangle.a) (corner_at corners.now triangle.c)) }
{
    square_distance(corners[triangle.a as usize], corners[triangle.c as usize])
}

/// Whether a point differs from all three corners of a triangle.
fn is_apart(a: Point, b: Point, c: Point, p: Point) -> bool
    ensures { result ≡ is_apart a b c p }
{
    p != a && p != b && p != c
}

/// Whether a point lies in the triangle from `a` to `b` to `c`, which runs counterclockwise, or on its rim.
fn is_inside(a: Point, b: Point, c: Point, p: Point) -> bool
    requires first { HasCoordinates a }
    requires second { HasCoordinates b }
    requires third { HasCoordinates c }
    requires point { HasCoordinates p }
    ensures { result ≡ is_inside a b c p }
{
    is_not_right(a, b, p) && is_not_right(b, c, p) && is_not_right(c, a, p)
}

/// Whether a point lies to the left of the walk from `a` to `b`, or on its line.
fn is_not_right(a: Point, b: Point, p: Point) -> bool
    requires first { HasCoordinates a }
    requires second { HasCoordinates b }
    requires point { HasCoordinates p }
    ensures { result ≡ le_z (pos 0) (orient_of a b p) }
{
    orient(a, b, p) >= 0
}
