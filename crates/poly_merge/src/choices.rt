//! The merges that may be made: all admissible ones, kept from merge to merge. The merge that comes next.

ghost use Rattle.std.specs.Prelude.{◌≡◌, ◌<◌, ◌≤◌, ◌+◌, ◌++◌, [], All, IfOk, OnOk, length, map, IfSome};
ghost use Rattle.std.specs.List.{cons_option, filter_map, flat_map, range_with_len};
ghost use Rattle.std.specs.Option.{option_map};
ghost use Rattle.nav_base.specs.Point.{HasCoordinates};
ghost use Rattle.mesh_types.specs.Merging.{IsPieceOf, merge_over, merges_between, merges_from, merges_of, places_at, best_merge, shared_length};
ghost use Rattle.poly_merge.specs.Seen.{admissible_of, after_removal, is_of, left_over, merges_onto, merges_with, seen, AreChoices, IsMergeOf, comes_before, place_cmp};
ghost use Rattle.mesh_types.specs.Choices.{or_later};

use crate::edge::{Merge, edge_end, facing, places_at, reach, rows_of};
use crate::union::is_admissible;
use mesh_types::Piece;
use nav_base::{Point, square_distance};
use std::alloc::{AllocError, Global};
use std::cmp::Ordering;

/// How many edges two pieces may have that are united: the six of a piece, and those that they share.
const EDGES_OF_TWO: usize = 8;

/// All admissible merges of pieces.
pub(crate) fn all_choices(
    alloc: Global,
    corners: &[Point],
    pieces: &[Piece],
) -> Result<Vec<Merge>, AllocError>
    requires coordinates { All HasCoordinates corners.now }
    requires pieces { All (IsPieceOf corners.now) pieces.now }
    ensures { IfOk result (λ choices. map seen choices.items ≡ admissible_of corners.now pieces.now (merges_of pieces.now)) }
{
    let mut choices = Vec::new(alloc);
    for first in 0..pieces.len() {
        push_from(&mut choices, corners, pieces, first)?;
    }
    Ok(choices)
}

/// The admissible merges of pieces of which one was just made by a merge: those that were before it and are of other pieces, and then those
/// of the united piece.
pub(crate) fn choices_after(
    alloc: Global,
    corners: &[Point],
    pieces: &[Piece],
    before: &[Merge],
    made: Merge,
) -> Result<Vec<Merge>, AllocError>
    requires coordinates { All HasCoordinates corners.now }
    requires pieces { All (IsPieceOf corners.now) pieces.now }
    requires made { made.first < length pieces.now }
    ensures { IfOk result (λ choices. map seen choices.items ≡ filter_map (left_over (seen made)) (map seen before.now)
        ++ admissible_of corners.now pieces.now (merges_with pieces.now made.first)) }
{
    let mut choices = choices_left(alloc, before, made)?;
    push_with(&mut choices, corners, pieces, made.first)?;
    Ok(choices)
}

/// Of the merges before one, those that are not of its pieces, as merges of the pieces after it.
fn choices_left(alloc: Global, before: &[Merge], made: Merge) -> Result<Vec<Merge>, AllocError>
    ensures { IfOk result (λ choices. map seen choices.items ≡ filter_map (left_over (seen made)) (map seen before.now)) }
{
    let mut choices = Vec::with_capacity(alloc, before.len())?;
    for choice in before {
        push_left(&mut choices, *choice, made)?;
    }
    Ok(choices)
}

/// Appends a merge, as a merge of the pieces after another one was made, if it is not of the same pieces.
fn push_left(choices: &mut Vec<Merge>, choice: Merge, made: Merge) -> Result<(), AllocError>
    ensures { OnOk result (map seen choices.new.items
        ≡ map seen choices.old.items ++ cons_option (left_over (seen made) (seen choice)) []) }
{
    let Some(left) = left_over(choice, made) else {
        return Ok(());
    };
    choices.push(left)?;
    Ok(())
}

/// A merge as one of the pieces after another one was made; none where that was of one of its pieces.
fn left_over(choice: Merge, made: Merge) -> Option<Merge>
    ensures { option_map seen result ≡ left_over (seen made) (seen choice) }
{
    if is_of(choice, made.first) || is_of(choice, made.second) {
        return None;
    }
    Some(Merge {
        first: after_removal(choice.first, made.second),
        second: after_removal(choice.second, made.second),
        edge: choice.edge,
        facing: choice.facing,
    })
}

/// Whether the piece at an index is one of the two of a merge.
fn is_of(merge: Merge, index: usize) -> bool
    ensures { result ≡ is_of (seen merge) index }
{
    merge.first == index || merge.second == index
}

/// Where an element of a list stands once another one was taken out.
fn after_removal(index: usize, removed: usize) -> usize
    ensures { result ≡ after_removal index removed }
{
    if removed < index { index - 1 } else { index }
}

/// Appends the admissible merges of a piece with all others.
fn push_with(
    choices: &mut Vec<Merge>,
    corners: &[Point],
    pieces: &[Piece],
    index: usize,
) -> Result<(), AllocError>
    requires coordinates { All HasCoordinates corners.now }
    requires pieces { All (IsPieceOf corners.now) pieces.now }
    requires there { index < length pieces.now }
    ensures { OnOk result (map seen choices.new.items
        ≡ map seen choices.old.items ++ admissible_of corners.now pieces.now (merges_with pieces.now index)) }
{
    push_onto(choices, corners, pieces, index)?;
    push_from(choices, corners, pieces, index)
}

/// Appends the admissible merges of a piece with those before it.
fn push_onto(
    choices: &mut Vec<Merge>,
    corners: &[Point],
    pieces: &[Piece],
    second: usize,
) -> Result<(), AllocError>
    requires coordinates { All HasCoordinates corners.now }
    requires pieces { All (IsPieceOf corners.now) pieces.now }
    requires there { second < length pieces.now }
    ensures { OnOk result (map seen choices.new.items ≡ map seen choices.old.items
        ++ admissible_of corners.now pieces.now (merges_onto pieces.now second)) }
{
    let rows = rows_of(corners, places_at(pieces, second));
    for first in 0..second {
        if reach(corners, places_at(pieces, first), rows) {
            push_between(choices, corners, pieces, first, second)?;
        }
    }
    Ok(())
}

/// Appends the admissible merges of a piece with those behind it.
fn push_from(
    choices: &mut Vec<Merge>,
    corners: &[Point],
    pieces: &[Piece],
    first: usize,
) -> Result<(), AllocError>
    requires coordinates { All HasCoordinates corners.now }
    requires pieces { All (IsPieceOf corners.now) pieces.now }
    requires there { first < length pieces.now }
    ensures { OnOk result (map seen choices.new.items
        ≡ map seen choices.old.items ++ admissible_of corners.now pieces.now (merges_from pieces.now first)) }
{
    let rows = rows_of(corners, places_at(pieces, first));
    for second in first + 1..pieces.len() {
        if reach(corners, places_at(pieces, second), rows) {
            push_between(choices, corners, pieces, first, second)?;
        }
    }
    Ok(())
}

/// Appends the admissible merges of two pieces.
fn push_between(
    choices: &mut Vec<Merge>,
    corners: &[Point],
    pieces: &[Piece],
    first: usize,
    second: usize,
) -> Result<(), AllocError>
    requires coordinates { All HasCoordinates corners.now }
    requires pieces { All (IsPieceOf corners.now) pieces.now }
    requires first { first < second }
    requires second { second < length pieces.now }
    ensures { OnOk result (map seen choices.new.items
        ≡ map seen choices.old.items ++ admissible_of corners.now pieces.now (merges_between pieces.now first second)) }
{
    let edges = places_at(pieces, first).len();
    if edges + places_at(pieces, second).len() > EDGES_OF_TWO {
        return Ok(());
    }
    for edge in 0..edges {
        push_over(choices, corners, pieces, (first, second), edge)?;
    }
    Ok(())
}

/// Appends the merge of two pieces over an edge of the first, if it is admissible.
fn push_over(
    choices: &mut Vec<Merge>,
    corners: &[Point],
    pieces: &[Piece],
    two: (usize, usize),
    edge: usize,
) -> Result<(), AllocError>
    requires coordinates { All HasCoordinates corners.now }
    requires pieces { All (IsPieceOf corners.now) pieces.now }
    requires first { two.0 < two.1 }
    requires second { two.1 < length pieces.now }
    requires edge { edge < length (places_at pieces.now two.0) }
    requires few { length (places_at pieces.now two.0) + length (places_at pieces.now two.1) ≤ 8 }
    ensures { OnOk result (map seen choices.new.items ≡ map seen choices.old.items
        ++ admissible_of corners.now pieces.now (cons_option (merge_over pieces.now two.0 two.1 edge) [])) }
{
    let (first, second) = two;
    let Some(facing) = facing(places_at(pieces, first), edge, places_at(pieces, second)) else {
        return Ok(());
    };
    let merge = Merge {
        first,
        second,
        edge,
        facing,
    };
    if is_admissible(corners, pieces, merge) {
        choices.push(merge)?;
    }
    Ok(())
}

/// The admissible merge over the longest edge, and of equally long ones the first; none where there is none. It is looked for among all
/// admissible merges, which may stand in any order.
pub(crate) fn best_merge(corners: &[Point], pieces: &[Piece], choices: &[Merge]) -> Option<Merge>
    requires coordinates { All HasCoordinates corners.now }
    requires pieces { All (IsPieceOf corners.now) pieces.now }
    requires choices { AreChoices corners.now pieces.now (map seen choices.now) }
    ensures value { option_map seen result ≡ best_merge corners.now pieces.now }
    ensures there { IfSome result (IsMergeOf pieces.now) }
{
    let mut best = None;
    for choice in choices {
        best = first_of(corners, pieces, best, *choice);
    }
    best
}

/// The merge that comes next so far, or another one where that comes before it.
fn first_of(corners: &[Point], pieces: &[Piece], best: Option<Merge>, merge: Merge) -> Option<Merge>
    requires coordinates { All HasCoordinates corners.now }
    requires pieces { All (IsPieceOf corners.now) pieces.now }
    requires best { IfSome best (IsMergeOf pieces.now) }
    requires merge { IsMergeOf pieces.now merge }
    ensures value { option_map seen result ≡ or_later (comes_before corners.now pieces.now) (option_map seen best) (seen merge) }
    ensures there { IfSome result (IsMergeOf pieces.now) }
{
    match best {
        Some(best) => {
            if comes_before(corners, pieces, merge, best) {
                Some(merge)
            } else {
                Some(best)
            }
        }
        None => Some(merge),
    }
}

/// Whether a merge is over a longer edge than another, or over one as long and of earlier pieces.
fn comes_before(corners: &[Point], pieces: &[Piece], merge: Merge, other: Merge) -> bool
    requires coordinates { All HasCoordinates corners.now }
    requires pieces { All (IsPieceOf corners.now) pieces.now }
    requires merge { IsMergeOf pieces.now merge }
    requires other { IsMergeOf pieces.now other }
    ensures { result ≡ comes_before corners.now pieces.now (seen merge) (seen other) }
{
    shared_length(corners, pieces, other)
        .cmp(&shared_length(corners, pieces, merge))
        .then(place_order(merge, other))
        .is_lt()
}

/// Which of two merges stands first: by the first piece, then by the second, then by the edge of the first.
fn place_order(merge: Merge, other: Merge) -> Ordering
    ensures { result ≡ place_cmp (seen merge) (seen other) }
{
    let pieces = merge.first.cmp(&other.first);
    pieces.then(
        merge
            .second
            .cmp(&other.second)
            .then(merge.edge.cmp(&other.edge)),
    )
}

/// The square of the length of the edge over which two pieces are merged, in squares of the unit of the points.
fn shared_length(corners: &[Point], pieces: &[Piece], merge: Merge) -> u64
    requires coordinates { All HasCoordinates corners.now }
    requires pieces { All (IsPieceOf corners.now) pieces.now }
    requires merge { IsMergeOf pieces.now merge }
    ensures { result ≡ shared_length corners.now pieces.now (seen merge) }
{
    let places = places_at(pieces, merge.first);
    square_distance(
        corners[places[merge.edge] as usize],
        corners[edge_end(places, merge.edge) as usize],
    )
}
