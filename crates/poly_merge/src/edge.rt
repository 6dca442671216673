//! Edges of pieces. The rows that pieces reach. Two pieces that share an edge have a row in common.

ghost use Rattle.std.specs.Prelude.{◌≡◌, ◌<◌, length, slice_index, true, IfSome, All};
ghost use Rattle.std.specs.List.{find, range_with_len, list_any};
ghost use Rattle.mesh_types.specs.Merging.{edge_end, is_facing, places_at};
ghost use Rattle.std.specs.Int.{int_max, int_min};
ghost use Rattle.nav_base.specs.Convex.{corner_at};
ghost use Rattle.mesh_types.specs.Ears.{ArePlacesOf};
ghost use Rattle.poly_merge.specs.Rows.{lies_in};

use mesh_types::Piece;
use nav_base::{Point, next_place};

/// Two pieces, by their indices, of which the first stands earlier, and the edge of each that they share, by the position where it begins.
#[derive(Clone, Copy)]
pub(crate) struct Merge {
    pub(crate) first: usize,
    pub(crate) second: usize,
    pub(crate) edge: usize,
    pub(crate) facing: usize,
}

/// The places of the piece at an index.
pub(crate) fn places_at(pieces: &[Piece], index: usize) -> &[u32]
    requires { index < length pieces.now }
    ensures { result.now ≡ places_at pieces.now index }
{
    pieces[index].corners.as_slice()
}

/// The place at which an edge ends.
pub(crate) fn edge_end(places: &[u32], edge: usize) -> u32
    requires { edge < length places.now }
    ensures { result ≡ edge_end places.now edge }
{
    places[next_place(places.len(), edge)]
}

/// The first edge of the second piece that joins the same places as an edge of the first one, in the opposite direction.
pub(crate) fn facing(first: &[u32], edge: usize, second: &[u32]) -> Option<usize>
    requires { edge < length first.now }
    ensures value { result ≡ find (is_facing first.now edge second.now) (range_with_len 0 (length second.now)) }
    ensures there { IfSome result (λ facing. facing < length second.now) }
    ensures shared { IfSome result (λ facing. is_facing first.now edge second.now facing ≡ true) }
{
    for facing in 0..second.len() {
        if is_facing(first, edge, second, facing) {
            return Some(facing);
        }
    }
    None
}

/// Whether two edges join the same places in opposite directions.
fn is_facing(first: &[u32], edge: usize, second: &[u32], facing: usize) -> bool
    requires edge { edge < length first.now }
    requires facing { facing < length second.now }
    ensures { result ≡ is_facing first.now edge second.now facing }
{
    second[facing] == edge_end(first, edge) && edge_end(second, facing) == first[edge]
}

/// Rows of corners, from the least z to the greatest.
#[derive(Clone, Copy)]
pub(crate) struct CornerRows {
    low: i32,
    high: i32,
}

/// The rows from the lowest to the highest of the corners at places.
pub(crate) fn rows_of(corners: &[Point], places: &[u32]) -> CornerRows
    requires { ArePlacesOf corners.now places.now }
    ensures { All (λ place. lies_in result (corner_at corners.now place) ≡ true) places.now }
{
    let mut rows = CornerRows {
        low: i32::MAX,
        high: i32::MIN,
    };
    for place in places {
        rows = widened(rows, corners[*place as usize]);
    }
    rows
}

/// The rows and that of a corner, with those between.
fn widened(rows: CornerRows, corner: Point) -> CornerRows
    ensures low { result.low ≡ int_min rows.low corner.z }
    ensures high { result.high ≡ int_max rows.high corner.z }
{
    CornerRows {
        low: rows.low.min(corner.z),
        high: rows.high.max(corner.z),
    }
}

/// Whether some corner at places lies in rows.
pub(crate) fn reach(corners: &[Point], places: &[u32], rows: CornerRows) -> bool
    requires { ArePlacesOf corners.now places.now }
    ensures { result ≡ list_any (λ place. lies_in rows (corner_at corners.now place)) places.now }
{
    places.iter().any(|place| lies_in(corners, *place, rows))
}

/// Whether the corner at a place lies in rows.
fn lies_in(corners: &[Point], place: u32, rows: CornerRows) -> bool
    requires { place < length corners.now }
    ensures { result ≡ lies_in rows (corner_at corners.now place) }
{
    let z = corners[place as usize].z;
    rows.low <= z && z <= rows.high
}
