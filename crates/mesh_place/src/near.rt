//! The question for the nearest place, and what it is answered. The order of places.

ghost use Rattle.std.specs.Prelude.{◌≡◌, false, IsTrue, IfSome, ◌≤◌, ◌<◌, ◌-◌, ◌*◌};
ghost use Rattle.std.specs.Int.RustNames.{unsigned_abs};
ghost use Rattle.std.specs.Ordering.{ordering_then, nat_cmp};
ghost use Rattle.nav_base.specs.Deviation.{square_of};
ghost use Rattle.nav_base.specs.Point.{HasCoordinates, from_to};
ghost use Rattle.mesh_types.specs.LinkOrder.{poly_cmp, point_cmp};
ghost use Rattle.mesh_place.specs.Nearest.{CanAskNear, is_open, measure, off_by, place_cmp};
ghost use Rattle.mesh_place.specs.Searches.{IsMeasurable, comes_before, measure_or_most};
ghost use Rattle.mesh_place.specs.Bounds.{height_part};

use crate::floors::height_off;
use mesh_types::{MeshPlace, PolyRef};
use nav_base::Point;
use std::cmp::Ordering;

/// The question for the place nearest to a point and a height, within limits.
#[derive(Clone, Copy, PartialEq, Eq)]
pub struct Near {
    /// In sixteenths of a cell.
    pub point: Point,
    /// In height units.
    pub y: u32,
    /// How far a place may be in the plane, in sixteenths of a cell; below 2^18.
    pub reach: u32,
    /// How far its floor may lie below the height, and above it, in height units; below 2^14.
    pub down: u32,
    pub up: u32,
    /// What a height unit beyond the agent's climb counts, in sixteenths of a cell; below 2^16.
    pub weight: u32,
    /// Bit a, from 0 for the lowest: places of area a are looked for.
    pub areas: u64,
}

/// What the question for the nearest place is answered.
#[derive(Clone, Copy, PartialEq, Eq, Drop)]
pub enum NearAnswer {
    Nearest(MeshPlace),
    /// No place that stands is in reach.
    NoneInReach,
}

/// Whether an area is open, by a bit for each: bit a, from 0 for the lowest, is that of area a.
pub fn is_open(areas: u64, area: u32) -> bool
    requires { area < 64 }
    ensures { result ≡ is_open areas area }
{
    (areas >> area) & 1 == 1
}

/// Whether a place comes before what was found.
pub(crate) fn comes_before(
    climb: u32,
    asked: &Near,
    place: MeshPlace,
    best: Option<MeshPlace>,
) -> bool
    requires asked { CanAskNear asked.now }
    requires first { IsMeasurable asked.now place }
    requires second { IfSome best (IsMeasurable asked.now) }
    ensures { result ≡ comes_before climb asked.now place best }
{
    match best {
        None => true,
        Some(best) => place_order(climb, asked, place, best).is_lt(),
    }
}

/// The measure of what was found; the greatest number where nothing was.
pub(crate) fn measure_or_most(climb: u32, asked: &Near, best: Option<MeshPlace>) -> u64
    requires asked { CanAskNear asked.now }
    requires best { IfSome best (IsMeasurable asked.now) }
    ensures { result ≡ measure_or_most climb asked.now best }
{
    match best {
        None => u64::MAX,
        Some(best) => measure(climb, asked, best),
    }
}

/// Which of two places is nearer to what is asked.
fn place_order(climb: u32, asked: &Near, a: MeshPlace, b: MeshPlace) -> Ordering
    requires asked { CanAskNear asked.now }
    requires first { IsMeasurable asked.now a }
    requires second { IsMeasurable asked.now b }
    ensures { result ≡ place_cmp climb asked.now a b }
{
    let by_measure = measure(climb, asked, a).cmp(&measure(climb, asked, b));
    let by_height = off_by(asked, a).cmp(&off_by(asked, b));
    by_measure.then(by_height.then(place_itself(a, b)))
}

/// Which of two places comes first by polygon, point and floor.
fn place_itself(a: MeshPlace, b: MeshPlace) -> Ordering
    ensures { result ≡ ordering_then (poly_cmp a.polygon b.polygon) (ordering_then (point_cmp a.point b.point) (nat_cmp a.y b.y)) }
{
    poly_order(a.polygon, b.polygon).then(point_order(a.point, b.point).then(a.y.cmp(&b.y)))
}

fn poly_order(a: PolyRef, b: PolyRef) -> Ordering
    ensures { result ≡ poly_cmp a b }
{
    a.tile.cmp(&b.tile).then(a.index.cmp(&b.index))
}

/// Which of two points comes first by x, then by z.
pub(crate) fn point_order(a: Point, b: Point) -> Ordering
    ensures { result ≡ point_cmp a b }
{
    a.x.cmp(&b.x).then(a.z.cmp(&b.z))
}

/// The measure of a place.
pub(crate) fn measure(climb: u32, asked: &Near, place: MeshPlace) -> u64
    requires asked { CanAskNear asked.now }
    requires place { IsMeasurable asked.now place }
    ensures { result ≡ measure climb asked.now place }
{
    square_distance(asked.point, place.point) + height_part(climb, asked, off_by(asked, place))
}

/// What the height of a floor that is so far off adds to the measure.
pub(crate) fn height_part(climb: u32, asked: &Near, off: u32) -> u64
    requires asked { CanAskNear asked.now }
    requires off { off < 16384 }
    ensures value { result ≡ height_part climb asked.now off }
    ensures bound { result ≤ 1152921504606846976 }
{
    let over = over(climb, asked, off);
    over * over
}

/// How far the floor of a place is from the height asked for.
fn off_by(asked: &Near, place: MeshPlace) -> u32
    ensures { result ≡ off_by asked.now place }
{
    height_off(asked.y, place.y)
}

/// What a floor counts that is so far off, in sixteenths.
fn over(climb: u32, asked: &Near, off: u32) -> u64
    requires asked { CanAskNear asked.now }
    requires off { off < 16384 }
    ensures value { result ≡ asked.now.weight * (off - climb) }
    ensures bound { result ≤ 1073741824 }
{
    u64::from(asked.weight) * u64::from(off.saturating_sub(climb))
}

/// The square of the distance between two points.
pub(crate) fn square_distance(a: Point, b: Point) -> u64
    requires first { HasCoordinates a }
    requires second { HasCoordinates b }
    ensures value { result ≡ square_of (from_to a b) }
    ensures bound { result ≤ 34359738368 }
{
    let x = across(a, b);
    let z = along(a, b);
    x * x + z * z
}

/// How far two points are apart across.
pub(crate) fn across(a: Point, b: Point) -> u64
    requires first { HasCoordinates a }
    requires second { HasCoordinates b }
    ensures value { result ≡ unsigned_abs (from_to a b).x }
    ensures bound { result ≤ 131072 }
{
    u64::from((b.x - a.x).unsigned_abs())
}

/// How far two points are apart along.
pub(crate) fn along(a: Point, b: Point) -> u64
    requires first { HasCoordinates a }
    requires second { HasCoordinates b }
    ensures value { result ≡ unsigned_abs (from_to a b).z }
    ensures bound { result ≤ 131072 }
{
    u64::from((b.z - a.z).unsigned_abs())
}
