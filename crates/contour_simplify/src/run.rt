//! Runs: what is kept of the corners between two corners that are kept.

ghost use Rattle.std.specs.Prelude.{◌≡◌, ◌+◌, ◌<◌, false, IfOk, OnOk, IsTrue, All, length, reverse, take, drop, slice_index_or, MatchOption};
ghost use Rattle.std.specs.List.{IsFirstBest, list_any};
ghost use Rattle.nav_base.specs.declared.point.Point.{Point};
ghost use Rattle.nav_base.specs.Point.{IsCellCorner};
ghost use Rattle.mesh_types.specs.LinkOrder.{point_cmp, is_point_before};
ghost use Rattle.mesh_types.specs.Rings.{AreApart};
ghost use Rattle.mesh_types.specs.Simplified.{deviates_more, deviates_over, kept_walking, kept_inside};
ghost use Rattle.contour_simplify.specs.Halves.{IsHalf, IsPart, ArePartsOn, IsStraight, IsSplit};

use nav_base::{Point, dev, exceeds, less};
use std::alloc::{AllocError, Global};
use std::cmp::Ordering;

/// A part of a run as it is walked: its ends, and the corners between them.
#[derive(Clone, Copy)]
struct RunHalf<'a> {
    first: Point,
    inner: &'a [Point],
    last: Point,
}

/// The corners that are kept between the ends of a run, in its order. `error` is in hundredths of a squared cell.
///
/// The run is walked from the lesser of its ends, by x and then z. Where a corner has a hundred times its deviation from the segment between
/// the ends greater than `error`, the first corner of greatest deviation is kept and both halves are treated alike.
pub fn simplify_run(
    alloc: Global,
    first: Point,
    inner: &[Point],
    last: Point,
    error: u32,
) -> Result<Vec<Point>, AllocError>
    requires first { IsCellCorner first }
    requires inner { All IsCellCorner inner.now }
    requires last { IsCellCorner last }
    ensures value { IfOk result (λ kept. kept.items ≡ kept_inside error first inner.now last) }
    // From its other side the run keeps the same corners.
    ensures mirrored { IfOk result (λ kept. AreApart first last → kept_inside error last (reverse inner.now) first ≡ reverse kept.items) }
{
    if is_before(first, last) {
        return walk(alloc, first, inner, last, error);
    }
    if is_straight(last, inner, first, error) {
        return Ok(Vec::new(alloc));
    }
    let mut backward = Vec::from_slice(alloc, inner)?;
    backward.reverse();
    let mut kept = walk(alloc, last, backward.as_slice(), first, error)?;
    kept.reverse();
    Ok(kept)
}

/// The inner corners that are kept of a run that is walked from its first end to its last, in order. The halves still to be walked are
/// stacked, the nearest on top.
fn walk(
    alloc: Global,
    first: Point,
    inner: &[Point],
    last: Point,
    error: u32,
) -> Result<Vec<Point>, AllocError>
    requires first { IsCellCorner first }
    requires inner { All IsCellCorner inner.now }
    requires last { IsCellCorner last }
    ensures { IfOk result (λ kept. kept.items ≡ kept_walking (length inner.now) error first inner.now last) }
{
    if is_straight(first, inner, last, error) {
        return Ok(Vec::new(alloc));
    }
    let mut kept = Vec::new(alloc);
    let mut halves = Vec::new(alloc);
    halves.push(RunHalf { first, inner, last })?;
    while let Some(half) = halves.pop() {
        match split(half, error) {
            Some(place) => push_parts(&mut halves, half, place)?,
            None => kept.push(half.last)?,
        }
    }
    kept.pop();
    Ok(kept)
}

/// Whether no inner corner of a run deviates over the error from the segment between its ends, as in most runs. Nothing is kept of it then.
fn is_straight(first: Point, inner: &[Point], last: Point, error: u32) -> bool
    requires first { IsCellCorner first }
    requires inner { All IsCellCorner inner.now }
    requires last { IsCellCorner last }
    ensures { IsTrue result → list_any (deviates_over error first last) inner.now ≡ false }
{
    match split(RunHalf { first, inner, last }, error) {
        Some(_) => false,
        None => true,
    }
}

/// Puts the two parts of a half at an inner corner onto a stack, the one before that corner on top.
fn push_parts<'a>(
    halves: &mut Vec<RunHalf<'a>>,
    half: RunHalf<'a>,
    place: usize,
) -> Result<(), AllocError>
    requires { place < length half.inner.now }
    ensures { (d : Point) → OnOk result (ArePartsOn half.entry place d halves.old.items halves.new.items) }
{
    halves.push(after(half, place))?;
    halves.push(before(half, place))?;
    Ok(())
}

/// The half before the inner corner at a place.
fn before<'a>(half: RunHalf<'a>, place: usize) -> RunHalf<'a>
    requires { place < length half.inner.now }
    ensures { (d : Point) → IsPart result half.entry.first (take place half.entry.inner.now) (slice_index_or half.entry.inner.now place d) }
{
    RunHalf {
        first: half.first,
        inner: &half.inner[..place],
        last: half.inner[place],
    }
}

/// The half after the inner corner at a place.
fn after<'a>(half: RunHalf<'a>, place: usize) -> RunHalf<'a>
    requires { place < length half.inner.now }
    ensures { (d : Point) → IsPart result (slice_index_or half.entry.inner.now place d) (drop (place + 1) half.entry.inner.now) half.entry.last }
{
    RunHalf {
        first: half.inner[place],
        inner: &half.inner[place + 1..],
        last: half.last,
    }
}

/// The place of the first inner corner of greatest deviation, where one deviates over the error.
fn split(half: RunHalf<'_>, error: u32) -> Option<usize>
    requires { IsHalf half }
    ensures { MatchOption result (IsStraight error half.entry) (IsSplit error half.entry) }
{
    if half.inner.is_empty() {
        return None;
    }
    let place = farthest(half);
    if exceeds(dev(half.first, half.last, half.inner[place]), error) {
        Some(place)
    } else {
        None
    }
}

/// The place of the first inner corner of greatest deviation.
fn farthest(half: RunHalf<'_>) -> usize
    requires half { IsHalf half }
    requires some { 0 < length half.inner.now }
    ensures value { IsFirstBest (deviates_more half.entry.first half.entry.last) half.entry.inner.now (length half.entry.inner.now) result }
{
    let mut place = 0;
    let mut most = dev(half.first, half.last, half.inner[0]);
    for index in 1..half.inner.len() {
        let deviation = dev(half.first, half.last, half.inner[index]);
        if less(most, deviation) {
            place = index;
            most = deviation;
        }
    }
    place
}

/// Whether a corner is before another: by x, then by z.
pub(crate) fn is_before(a: Point, b: Point) -> bool
    ensures { result ≡ is_point_before a b }
{
    corner_order(&a, &b).is_lt()
}

/// The order of two corners: by x, then by z.
pub(crate) fn corner_order(a: &Point, b: &Point) -> Ordering
    ensures { result ≡ point_cmp a.now b.now }
{
    a.x.cmp(&b.x).then(a.z.cmp(&b.z))
}
