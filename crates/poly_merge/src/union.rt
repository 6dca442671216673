//! Two pieces together. All merges of an outline. Two pieces of a list united.

ghost use Rattle.std.specs.Prelude.{◌≡◌, ◌<◌, ◌≤◌, ◌++◌, ◌+◌, ◌-◌, length, map, take, All, IfOk, OnOk, None};
ghost use Rattle.nav_base.specs.Point.{HasCoordinates};
ghost use Rattle.nav_base.specs.Convex.{corner_at};
ghost use Rattle.mesh_types.specs.Ears.{ArePlacesOf, AreEarsOf, CanBeCut, outline_area};
ghost use Rattle.mesh_types.specs.Merging.{past_edge, IsPieceOf, is_admissible, areas_of, best_merge, merged, joined};
ghost use Rattle.poly_merge.specs.Seen.{IsMergeOf, IsSmall, seen};
ghost use Rattle.mesh_types.specs.Edges.{HaveEdgesOnce, KeepOutline};
ghost use Rattle.mesh_types.specs.Words.{piece_of};

use crate::choices::{all_choices, best_merge, choices_after};
use crate::edge::{Merge, places_at};
use mesh_types::{Outline, Piece, Triangle};
use nav_base::{Point, strictly_convex};
use nav_lists::Items;
use std::alloc::{AllocError, Global};

/// Whether two pieces together are strictly convex; they have at most six corners.
pub(crate) fn is_admissible(corners: &[Point], pieces: &[Piece], merge: Merge) -> bool
    requires coordinates { All HasCoordinates corners.now }
    requires pieces { All (IsPieceOf corners.now) pieces.now }
    requires there { IsMergeOf pieces.now merge }
    requires few { IsSmall pieces.now merge }
    ensures { result ≡ is_admissible corners.now pieces.now (seen merge) }
{
    let first = places_at(pieces, merge.first);
    let second = places_at(pieces, merge.second);
    let mut points = [Point { x: 0, z: 0 }; 6];
    put_past_edge(&mut points, 0, corners, first, merge.edge);
    let count = first.len() - 1;
    put_past_edge(&mut points, count, corners, second, merge.facing);
    strictly_convex(&points[..count + (second.len() - 1)])
}

/// Writes, from an index on, the corners of a piece from the end of an edge on, all but the edge's beginning.
fn put_past_edge(points: &mut [Point], at: usize, corners: &[Point], places: &[u32], edge: usize)
    requires room { at + length places.now ≤ length points.old + 1 }
    requires edge { edge < length places.now }
    requires places { ArePlacesOf corners.now places.now }
    ensures value { take (at + (length places.now - 1)) points.new
        ≡ take at points.old ++ map (corner_at corners.now) (past_edge places.now edge) }
    ensures length { length points.new ≡ length points.old }
{
    let rest = places.len() - 1 - edge;
    put_points(points, at, corners, &places[edge + 1..]);
    put_points(points, at + rest, corners, &places[..edge]);
}

/// Writes the corners at places, from an index on.
fn put_points(points: &mut [Point], at: usize, corners: &[Point], places: &[u32])
    requires room { at + length places.now ≤ length points.old }
    requires places { ArePlacesOf corners.now places.now }
    ensures value { take (at + length places.now) points.new ≡ take at points.old ++ map (corner_at corners.now) places.now }
    ensures length { length points.new ≡ length points.old }
{
    for i in 0..places.len() {
        points[at + i] = corners[places[i] as usize];
    }
}

/// The places of two pieces together, from the end of the shared edge in the first one on.
pub(crate) fn union(
    alloc: Global,
    first: &[u32],
    edge: usize,
    second: &[u32],
    facing: usize,
) -> Result<Vec<u32>, AllocError>
    requires edge { edge < length first.now }
    requires facing { facing < length second.now }
    ensures { IfOk result (λ places. places.items ≡ past_edge first.now edge ++ past_edge second.now facing) }
{
    let mut places = Vec::with_capacity(alloc, 6)?;
    push_past_edge(&mut places, first, edge)?;
    push_past_edge(&mut places, second, facing)?;
    Ok(places)
}

/// Appends the places of a piece from the end of an edge on, all but the edge's beginning.
fn push_past_edge(places: &mut Vec<u32>, piece: &[u32], edge: usize) -> Result<(), AllocError>
    requires { edge < length piece.now }
    ensures { OnOk result (places.new.items ≡ places.old.items ++ past_edge piece.now edge) }
{
    places.extend_from_slice(&piece[edge + 1..])?;
    places.extend_from_slice(&piece[..edge])
}

/// The pieces into which the triangles of an outline are united. Only memory can be refused.
pub fn merge(
    alloc: Global,
    outline: &Outline,
    triangles: Items<Triangle>,
) -> Result<Items<Piece>, AllocError>
    requires outline { CanBeCut outline.now.corners }
    requires triangles { AreEarsOf outline.now.corners triangles }
    ensures value { IfOk result (λ pieces. pieces ≡ merged outline.now.corners triangles) }
    ensures pieces { IfOk result (All (IsPieceOf outline.now.corners)) }

    // Together they have exactly the area that the outline runs round.
    ensures area { IfOk result (λ pieces. areas_of outline.now.corners pieces ≡ outline_area outline.now.corners) }
    ensures few { IfOk result (λ pieces. length pieces + 2 ≤ length outline.now.corners) }

    // No two of their edges lead from the same corner to the same other. Each edge of the outline is the edge of one piece, and none leads back along it.
    ensures once { IfOk result HaveEdgesOnce }
    ensures outline { IfOk result (KeepOutline outline.now.corners) }

    // No two pieces are left that could be united.
    ensures done { IfOk result (λ pieces. best_merge outline.now.corners pieces ≡ None) }
{
    let corners = outline.corners.as_slice();
    let mut pieces = triangular(alloc, triangles.as_slice())?;
    let mut choices = all_choices(alloc, corners, pieces.as_slice())?;
    while let Some(next) = best_merge(corners, pieces.as_slice(), choices.as_slice()) {
        join(alloc, &mut pieces, next)?;
        choices = choices_after(alloc, corners, pieces.as_slice(), choices.as_slice(), next)?;
    }
    Ok(Items::from_vec(pieces))
}

/// Each triangle as a piece.
pub(crate) fn triangular(alloc: Global, triangles: &[Triangle]) -> Result<Vec<Piece>, AllocError>
    ensures { IfOk result (λ pieces. pieces.items ≡ map piece_of triangles.now) }
{
    let mut pieces = Vec::with_capacity(alloc, triangles.len())?;
    for triangle in triangles {
        pieces.push(piece_of(alloc, triangle)?)?;
    }
    Ok(pieces)
}

/// A triangle as a piece.
fn piece_of(alloc: Global, triangle: &Triangle) -> Result<Piece, AllocError>
    ensures { IfOk result (λ piece. piece ≡ piece_of triangle.now) }
{
    let corners = vec![in alloc; triangle.a, triangle.b, triangle.c]?;
    Ok(Piece {
        corners: Items::from_vec(corners),
    })
}

/// Puts two pieces together in the place of the first, and takes the second out of the list.
pub(crate) fn join(alloc: Global, pieces: &mut Vec<Piece>, merge: Merge) -> Result<(), AllocError>
    requires { IsMergeOf pieces.old.items merge }
    ensures { OnOk result (pieces.new.items ≡ joined pieces.old.items (seen merge)) }
{
    let first = places_at(pieces.as_slice(), merge.first);
    let second = places_at(pieces.as_slice(), merge.second);
    let places = union(alloc, first, merge.edge, second, merge.facing)?;
    pieces[merge.first] = Piece {
        corners: Items::from_vec(places),
    };
    let _united = pieces.remove(merge.second);
    Ok(())
}
