//! The corners of a contour that are kept. The places of a contour that are kept at first.

ghost use Rattle.std.specs.Prelude.{◌≡◌, ◌++◌, ◌<◌, IfOk, OnOk, All, length, ◌+◌, ◌^◌, ◌↔◌, IsTrue, [], ◌∷◌};
ghost use Rattle.std.specs.List.{flat_map};
ghost use Rattle.nav_base.specs.Point.{IsCellCorner};
ghost use Rattle.mesh_types.specs.Rings.{beginnings, IsRing, place_before};
ghost use Rattle.mesh_types.specs.Simplified.{left_of_run, is_same, does_change, changes, extremes, kept_places, kept_round};
ghost use Rattle.mesh_types.specs.Words.{twice_round, runs_between};
ghost use Rattle.contour_simplify.specs.Rounds.{AreKeptRound};

use crate::run::{is_before, simplify_run};
use mesh_types::{Code, UnitEdge};
use nav_base::Point;
use std::alloc::{AllocError, Global};

/// The corners at which the edges begin, twice round.
pub(crate) fn twice_round(alloc: Global, edges: &[UnitEdge]) -> Result<Vec<Point>, AllocError>
    ensures { IfOk result (λ corners. corners.items ≡ twice_round edges.now) }
{
    let mut corners = Vec::with_capacity(alloc, edges.len().saturating_add(edges.len()))?;
    push_corners(&mut corners, edges)?;
    push_corners(&mut corners, edges)?;
    Ok(corners)
}

/// Appends the corners at which the edges begin.
fn push_corners(corners: &mut Vec<Point>, edges: &[UnitEdge]) -> Result<(), AllocError>
    ensures { OnOk result (corners.new.items ≡ corners.old.items ++ beginnings edges.now) }
{
    for edge in edges {
        corners.push(edge.from)?;
    }
    Ok(())
}

/// The corners that are left from each stop to the next, of the corners twice round.
pub(crate) fn kept_corners(
    alloc: Global,
    round: &[Point],
    kept_round: &[usize],
    error: u32,
) -> Result<Vec<Point>, AllocError>
    requires inside { All IsCellCorner round.now }
    requires kept_round { AreKeptRound (length round.now) kept_round.now }
    ensures { IfOk result (λ corners. corners.items ≡ flat_map (left_of_run error round.now) (runs_between kept_round.now)) }
{
    let mut corners = Vec::with_capacity(alloc, kept_round.len())?;
    for run in 0..kept_round.len() - 1 {
        let ends = (kept_round[run], kept_round[run + 1]);
        push_run(alloc, &mut corners, round, ends, error)?;
    }
    Ok(corners)
}

/// Appends the corners that the run between two kept places leaves, without its last.
fn push_run(
    alloc: Global,
    corners: &mut Vec<Point>,
    round: &[Point],
    ends: (usize, usize),
    error: u32,
) -> Result<(), AllocError>
    requires inside { All IsCellCorner round.now }
    requires order { ends.0 < ends.1 }
    requires there { ends.1 < length round.now }
    ensures { OnOk result (corners.new.items ≡ corners.old.items ++ left_of_run error round.now ends) }
{
    let (from, to) = ends;
    let kept = simplify_run(alloc, round[from], &round[from + 1..to], round[to], error)?;
    corners.push(round[from])?;
    corners.extend_from_slice(kept.as_slice())?;
    Ok(())
}

/// The kept places of a contour in order, and the first of them again, a round later.
pub(crate) fn kept_round(alloc: Global, edges: &[UnitEdge]) -> Result<Vec<usize>, AllocError>
    requires ring { IsRing edges.now }
    requires some { 0 < length edges.now }
    requires few { length edges.now + length edges.now < 2 ^ 64 }
    ensures { IfOk result (λ places. places.items ≡ kept_round edges.now) }
{
    let mut places = kept_places(alloc, edges)?;
    let again = places[0] + edges.len();
    places.push(again)?;
    Ok(places)
}

/// The places where the code changes, or those of the least and of the greatest corner where it never does.
#[tactic(auto, unfolding(mesh_types::specs::Simplified::kept_places))]
fn kept_places(alloc: Global, edges: &[UnitEdge]) -> Result<Vec<usize>, AllocError>
    requires { 0 < length edges.now }
    ensures { IfOk result (λ places. places.items ≡ kept_places edges.now) }
{
    let mut places = changes(alloc, edges)?;
    if places.is_empty() {
        let (low, high) = extremes(edges);
        places.push(low)?;
        places.push(high)?;
    }
    Ok(places)
}

/// The places where the code changes.
fn changes(alloc: Global, edges: &[UnitEdge]) -> Result<Vec<usize>, AllocError>
    ensures { IfOk result (λ places. places.items ≡ changes edges.now) }
{
    let mut places = Vec::new(alloc);
    for place in 0..edges.len() {
        if does_change(edges, place) {
            places.push(place)?;
        }
    }
    Ok(places)
}

/// Whether the edge that ends at a place and the edge that begins there have different codes.
fn does_change(edges: &[UnitEdge], place: usize) -> bool
    requires { place < length edges.now }
    ensures { result ≡ does_change edges.now place }
{
    let before = place_before(edges.len(), place);
    !is_same(edges[before].code, edges[place].code)
}

/// The place before another on the way round.
fn place_before(count: usize, place: usize) -> usize
    requires { place < count }
    ensures value { result ≡ place_before count place }
    ensures there { result < count }
{
    if place == 0 { count - 1 } else { place - 1 }
}

/// Whether two codes are the same.
fn is_same(a: Code, b: Code) -> bool
    ensures value { result ≡ is_same a b }
    ensures same { IsTrue result ↔ (a ≡ b) }
{
    match (a, b) {
        (Code::Wall, Code::Wall) => true,
        (Code::Region(a), Code::Region(b)) => a == b,
        (Code::Side(a), Code::Side(b)) => a == b,
        _ => false,
    }
}

/// The places of the least and of the greatest corner, in order.
fn extremes(edges: &[UnitEdge]) -> (usize, usize)
    requires { 0 < length edges.now }
    ensures { result.0 ∷ result.1 ∷ [] ≡ extremes (beginnings edges.now) }
{
    let mut least = 0;
    let mut greatest = 0;
    for place in 1..edges.len() {
        let corner = edges[place].from;
        if is_before(corner, edges[least].from) {
            least = place;
        }
        if is_before(edges[greatest].from, corner) {
            greatest = place;
        }
    }
    (least.min(greatest), least.max(greatest))
}
