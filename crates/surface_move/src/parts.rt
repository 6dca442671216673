//! The part of a way that leads through polygons. Where a part of a way ends. After how many steps of a way a polygon can hold a near
//! point.

ghost use Rattle.std.specs.Prelude.{◌≡◌, ◌↔◌, ℕ, ◌<◌, ◌≤◌, length, All, IsTrue, IfSome, IfNone, Some, ◌*◌, ◌^◌, pos, ◌*ℤ◌, ◌≤ℤ◌};
ghost use Rattle.nav_base.specs.Point.{HasCoordinates, IsCellCorner, cross_of, from_to, orient_of};
ghost use Rattle.mesh_types.specs.Rays.{IsHeldAt, side_of};
ghost use Rattle.mesh_types.specs.Soundness.{IsSound};
ghost use Rattle.mesh_types.specs.WholeMesh.{poly_at};
ghost use Rattle.surface_move.specs.Moves.{AreThere, IsPart, IsThere, leg_of, nth_polygon, IsNear};
ghost use Rattle.surface_move.specs.Ways.{HoldsNear, HoldsNearFrom, IsFirstHolder, IsGreatest, IsWay, IsAmong, IsNotRight, IsOffset};
ghost use Rattle.std.specs.Int.RustNames.{unsigned_abs};
ghost use Rattle.nav_base.specs.declared.point.Point as points;

use crate::nearby::{StepRange, SteppedNumber, StraightWay, across, along, leg, near_points};
use mesh_types::{Mesh, PolyRef, Polygon, edge_ends, holds, poly};
use nav_base::{Point, orient};

/// The part of the way from one point to another that leads through some polygons, of at most `rest` steps: the most steps after which a near
/// point lies in one of the polygons, the least such point by x and then z, and the first polygon that holds it. None exactly where no near
/// point lies in any of them after 1 to `rest` steps.
///
/// Polygons may stand in the list more than once and need not be linked. The points between the way's beginning and the part's end may lie
/// outside all of them.
pub fn part(mesh: &Mesh, polys: &[PolyRef], from: Point, to: Point, rest: u32) -> Option<PartEnd>
    requires sound { IsSound mesh.now }
    requires there { AreThere mesh.now polys.now }
    requires few { length polys.now ≤ 4294967295 }
    requires from { HasCoordinates from }
    requires to { HasCoordinates to }
    requires rest { rest < leg_of from to }
    ensures { IsPart mesh.now polys.now from to rest result }
{
    let steps = leg(from, to);
    let way = StraightWay { from, to, steps };
    let gone = furthest(mesh, polys, way, rest);
    if gone == 0 {
        return None;
    }
    let (first, second) = near_points(way, gone);
    if let Some(place) = first_holder(mesh, polys, first) {
        let at = first;
        return Some(PartEnd { at, place, gone });
    }
    let place = first_holder(mesh, polys, second)?;
    let at = second;
    Some(PartEnd { at, place, gone })
}

/// The most steps of a way, up to a limit, after which one of some polygons holds a near point; 0 where there are none.
fn furthest(mesh: &Mesh, polys: &[PolyRef], way: StraightWay, rest: u32) -> u32
    requires sound { IsSound mesh.now }
    requires there { AreThere mesh.now polys.now }
    requires way { IsWay way }
    requires rest { rest < way.steps }
    ensures { IsGreatest (HoldsNearFrom mesh.now polys.now way.from way.to 0) 0 rest result }
{
    let mut gone = 0;
    for later in 0..polys.len() {
        let polygon = polygon_at(mesh, polys[polys.len() - 1 - later]);
        gone = furthest_in(&polygon, way, gone, rest);
    }
    gone
}

/// The most steps of a way, up to a limit, after which a polygon holds a near point, if they are more than are known for others.
fn furthest_in(polygon: &Polygon, way: StraightWay, gone: u32, rest: u32) -> u32
    requires corners { All IsCellCorner polygon.now.corners }
    requires way { IsWay way }
    requires rest { rest < way.steps }
    ensures { IsGreatest (HoldsNear polygon.now way.from way.to) gone rest result }
{
    let more = StepRange {
        least: u64::from(gone) + 1,
        most: u64::from(rest),
    };
    let possible = possible_steps(polygon, way, more);
    let mut step = possible.most;
    while possible.least <= step {
        if holds_near(polygon, way, step as u32) {
            return step as u32;
        }
        step -= 1;
    }
    gone
}

/// Whether a polygon holds a point that is near a way after a number of steps.
fn holds_near(polygon: &Polygon, way: StraightWay, step: u32) -> bool
    requires corners { All IsCellCorner polygon.now.corners }
    requires way { IsWay way }
    requires step { step ≤ way.steps }
    ensures { IsTrue result ↔ HoldsNear polygon.now way.from way.to step }
{
    let (first, second) = near_points(way, step);
    holds(polygon, first) || holds(polygon, second)
}

/// The place of the first of some polygons that holds a point.
fn first_holder(mesh: &Mesh, polys: &[PolyRef], p: Point) -> Option<u32>
    requires sound { IsSound mesh.now }
    requires there { AreThere mesh.now polys.now }
    requires few { length polys.now ≤ 4294967295 }
    requires point { HasCoordinates p }
    ensures { IsFirstHolder mesh.now polys.now p result }
{
    for place in 0..polys.len() {
        if holds(&polygon_at(mesh, polys[place]), p) {
            return Some(place as u32);
        }
    }
    None
}

/// The polygon that a reference names.
fn polygon_at(mesh: &Mesh, at: PolyRef) -> Polygon
    requires sound { IsSound mesh.now }
    requires there { IsThere mesh.now at }
    ensures named { poly_at mesh.now at ≡ Some result }
    ensures corners { All IsCellCorner result.corners }
{
    poly(mesh, at).unwrap()
}

/// The end of a part of a way that leads through polygons.
#[derive(Clone, Copy, PartialEq, Eq, Debug)]
pub struct PartEnd {
    /// In sixteenths of a cell.
    pub at: Point,
    /// The place, from 0, of the first polygon in the list that holds the point.
    pub place: u32,
    /// How many of the way's steps the part has, at least 1.
    pub gone: u32,
}

/// Of some numbers of steps those that are left where each edge bounds them: none is left out after which the polygon holds a near point.
pub(crate) fn possible_steps(polygon: &Polygon, way: StraightWay, steps: StepRange) -> StepRange
    requires corners { All IsCellCorner polygon.now.corners }
    requires way { IsWay way }
    ensures all { (g : ℕ) → IsAmong steps g → HoldsNear polygon.now way.from way.to g → IsAmong result g }
    ensures least { steps.least ≤ result.least }
    ensures most { result.most ≤ steps.most }
{
    let mut possible = steps;
    for edge in 0..polygon.corners.as_slice().len() {
        possible = steps_beside(polygon, edge, way, possible);
    }
    possible
}

/// Those that are left where one edge bounds them: none is left out after which a near point lies to its left or on it.
fn steps_beside(polygon: &Polygon, edge: usize, way: StraightWay, steps: StepRange) -> StepRange
    requires corners { All IsCellCorner polygon.now.corners }
    requires there { edge < length polygon.now.corners }
    requires way { IsWay way }
    ensures all { (g : ℕ) (q : points.Point) → IsAmong steps g → IsNear way.from way.to g q → pos 0 ≤ℤ side_of polygon.now edge q → IsAmong result g }
    ensures least { steps.least ≤ result.least }
    ensures most { result.most ≤ steps.most }
{
    let (begin, end) = edge_ends(polygon, edge);
    narrowed(steps, turn_along(begin, end, way))
}

/// What the turn at the line from one point to another comes to along a way, times its number of steps, and with what rounding can add: not below
/// 0 after each step of which a near point lies to the left of the line or on it.
fn turn_along(begin: Point, end: Point, way: StraightWay) -> SteppedNumber
    requires begin { HasCoordinates begin }
    requires end { HasCoordinates end }
    requires way { IsWay way }
    ensures { (g : ℕ) (q : points.Point) → IsNear way.from way.to g q → pos 0 ≤ℤ orient_of begin end q → IsNotRight result g }
{
    let from = orient(begin, end, way.from);
    let to = orient(begin, end, way.to);
    SteppedNumber {
        start: product(way.steps, from) + rounding(begin, end, way),
        each: to - from,
    }
}

/// By how much the turn at a line can be greater at a near point than at the place that the way has reached, times the number of steps.
fn rounding(begin: Point, end: Point, way: StraightWay) -> i64
    requires begin { HasCoordinates begin }
    requires end { HasCoordinates end }
    requires way { IsWay way }
    ensures most { (off : points.Point) → IsOffset way off → cross_of (from_to begin end) off ≤ℤ result }
    ensures small { unsigned_abs result ≤ 2 ^ 34 }
{
    let wide = across(way.from, way.to);
    if wide == way.steps {
        let aside = across(begin, end);
        return times(aside, way.steps - 1);
    }
    let aside = along(begin, end);
    times(aside, way.steps - 1)
}

/// A product in 64 bits.
fn times(m: u32, n: u32) -> i64
    requires first { m ≤ 131072 }
    requires second { n ≤ 131072 }
    ensures value { result ≡ pos (m * n) }
    ensures small { unsigned_abs result ≤ 2 ^ 34 }
{
    i64::from(m) * i64::from(n)
}

/// The same of a number with a sign.
fn product(n: u32, of: i64) -> i64
    requires few { n ≤ 131072 }
    requires of { unsigned_abs of ≤ 2 ^ 35 }
    ensures value { result ≡ pos n *ℤ of }
    ensures small { unsigned_abs result ≤ 2 ^ 52 }
{
    i64::from(n) * of
}

/// Those numbers of steps after which a turn is not below 0.
fn narrowed(steps: StepRange, turn: SteppedNumber) -> StepRange
    ensures all { (g : ℕ) → IsAmong steps g → IsNotRight turn g → IsAmong result g }
    ensures least { steps.least ≤ result.least }
    ensures most { result.most ≤ steps.most }
{
    let start = turn.start.unsigned_abs();
    let each = turn.each.unsigned_abs();
    if turn.start >= 0 {
        if turn.each >= 0 {
            return steps;
        }
        StepRange {
            least: steps.least,
            most: steps.most.min(start / each),
        }
    } else {
        if turn.each <= 0 {
            return StepRange {
                least: steps.least.max(1),
                most: 0,
            };
        }
        StepRange {
            least: steps.least.max(start.div_ceil(each)),
            most: steps.most,
        }
    }
}
