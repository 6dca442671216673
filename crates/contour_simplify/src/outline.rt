//! Outlines: contours with the corners that are kept.

ghost use Rattle.std.specs.Prelude.{◌≡◌, ◌↔◌, ◌<◌, ◌++◌, [], ◌∷◌, IfOk, OnOk, length, filter, nat_lt, if◌then◌else◌};
ghost use Rattle.std.specs.List.Sorted.{IsSortedBy};
ghost use Rattle.mesh_types.specs.Rings.{IsRing, beginnings};
ghost use Rattle.mesh_types.specs.LinkOrder.{is_point_before};
ghost use Rattle.mesh_types.specs.Simplified.{simplified_of, IsOutline, IfOutline, kept_edges, begins_among};
ghost use Rattle.mesh_types.specs.Words.{codes_of, is_among};

use crate::kept::{kept_corners, kept_round, twice_round};
use crate::run::corner_order;
use mesh_types::{Code, Outline, Simplified, UnitEdge};
use nav_base::Point;
use nav_lists::Items;
use std::alloc::{AllocError, Global};

/// The outline of a contour that keeps to it within an error, in hundredths of a squared cell, or that it is flat.
///
/// The corners where the code changes are kept, or the least and the greatest corner, by x and then z, where it never does; and of the
/// runs between them the corners that [`simplify_run`](crate::simplify_run) keeps. They stand in the contour's order, each with the code of
/// the edge that begins there.
pub fn simplify(alloc: Global, edges: &[UnitEdge], error: u32) -> Result<Simplified, AllocError>
    requires { IsRing edges.now }
    ensures value { IfOk result (λ simplified. simplified ≡ simplified_of error edges.now) }
    ensures outline { IfOk result (λ simplified. IfOutline simplified IsOutline) }
    ensures flat { IfOk result (λ simplified. (simplified ≡ Simplified.Flat) ↔ (length (kept_edges error edges.now) < 3)) }
{
    if edges.is_empty() {
        return Ok(Simplified::Flat);
    }
    let round = twice_round(alloc, edges)?;
    let kept_round = kept_round(alloc, edges)?;
    let mut kept = kept_corners(alloc, round.as_slice(), kept_round.as_slice(), error)?;
    kept.sort_unstable_by(|a, b| corner_order(a, b));
    let outline = outline(alloc, edges, kept.as_slice())?;
    Ok(simplified(outline))
}

/// The edges that begin at corners of a sorted list, as an outline.
fn outline(alloc: Global, edges: &[UnitEdge], kept: &[Point]) -> Result<Outline, AllocError>
    requires { IsSortedBy is_point_before kept.now }
    ensures corners { IfOk result (λ outline. outline.corners ≡ beginnings (filter (begins_among kept.now) edges.now)) }
    ensures codes { IfOk result (λ outline. outline.codes ≡ codes_of (filter (begins_among kept.now) edges.now)) }
{
    let mut corners = Vec::with_capacity(alloc, kept.len())?;
    let mut codes = Vec::with_capacity(alloc, kept.len())?;
    for edge in edges {
        if is_among(kept, edge.from) {
            push_edge(&mut corners, &mut codes, edge)?;
        }
    }
    Ok(Outline {
        corners: Items::from_vec(corners),
        codes: Items::from_vec(codes),
    })
}

/// Appends the corner at which an edge begins, and its code.
fn push_edge(
    corners: &mut Vec<Point>,
    codes: &mut Vec<Code>,
    edge: &UnitEdge,
) -> Result<(), AllocError>
    ensures corners { OnOk result (corners.new.items ≡ corners.old.items ++ edge.now.from ∷ []) }
    ensures codes { OnOk result (codes.new.items ≡ codes.old.items ++ edge.now.code ∷ []) }
{
    corners.push(edge.from)?;
    codes.push(edge.code)?;
    Ok(())
}

/// Whether a corner is one of a sorted list.
fn is_among(corners: &[Point], corner: Point) -> bool
    requires { IsSortedBy is_point_before corners.now }
    ensures { result ≡ is_among corners.now corner }
{
    corners
        .binary_search_by(|other| corner_order(other, &corner))
        .is_ok()
}

/// An outline of at least three corners, or flat.
fn simplified(outline: Outline) -> Simplified
    ensures { result ≡ (if nat_lt (length outline.corners) 3 then Simplified.Flat else Simplified.Outline outline) }
{
    if outline.corners.len() < 3 {
        Simplified::Flat
    } else {
        Simplified::Outline(outline)
    }
}
