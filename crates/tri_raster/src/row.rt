//! The shadows of one triangle in one row of columns. The spots that a triangle's part in a row of columns is spanned by.

ghost use Rattle.std.specs.Prelude.{◌≡◌, ◌<◌, ◌≤◌, length, All, ℕ, ◌+◌, ◌++◌, map, take};
ghost use Rattle.tri_raster.specs.Triangles.{IsTriangle, IsCorner};
ghost use Rattle.tri_raster.specs.Rows.{MeetsRow, AreRowShadows, shadow_of, hits_of};
ghost use Rattle.tri_raster.specs.Spots.{IsSized, mark_of, spot_of, crossing, corner_spots, edge_spots, row_spots};

use crate::gather::{clear, gather};
use crate::triangle::{Bound, Corner3, Hits, Mark, NO_MARK, Shadow, Spot, Tri};

/// The shadow that a triangle leaves in a column with these bounds.
pub fn shadow_of(bound: Bound, area: u32) -> Shadow
    requires { bound.low < 8191 }
    ensures { result ≡ shadow_of bound area }
{
    Shadow {
        bottom: bound.low,
        top: bound.high.max(bound.low + 1),
        area,
    }
}

/// The columns that the part between some spots lies in, where it has some width there.
fn hits(marks: &[Mark], width: u32) -> Hits
    ensures { result ≡ hits_of marks.now width }
{
    let first = marks
        .iter()
        .fold(1024, |first: u32, mark| first.min(mark.column));
    let end = marks.iter().fold(0, |end: u32, mark| end.max(mark.end));
    Hits {
        first,
        end: end.min(width),
    }
}

/// What a triangle leaves in row `z`, which it meets: the columns that it hits, and their bounds. There are as many columns as `bounds`, whose values
/// from before are of no account.
pub fn row_shadows(tri: &Tri, z: u32, bounds: &mut [Bound]) -> Hits
    requires triangle { IsTriangle tri.now }
    requires row { MeetsRow tri.now z }
    requires width { length bounds.old ≤ 1024 }
    requires depth { z < 1024 }
    ensures shadows { AreRowShadows tri.now z bounds.new result }
    ensures width { length bounds.new ≡ length bounds.old }
{
    let mut marks = [NO_MARK; MOST];
    let count = row_marks(tri, z, &mut marks);
    let marks = &marks[..count];
    let hits = hits(marks, bounds.len() as u32);
    clear(bounds, hits.first, hits.end);
    gather(bounds, marks);
    hits
}

/// The most spots of a row: three corners, and the crossings of three edges with two lines.
pub const MOST: usize = 9;

/// Where a spot lies.
pub fn mark(spot: Spot) -> Mark
    requires { IsSized spot }
    ensures { result ≡ mark_of spot }
{
    let side = 16 * spot.n;
    Mark {
        spot,
        column: spot.x / side,
        end: spot.x.div_ceil(side),
        low: spot.y / spot.n,
        high: spot.y.div_ceil(spot.n),
    }
}

/// Where an edge crosses a line of constant z that lies strictly between its ends.
fn crossing(from: Corner3, to: Corner3, line: u32) -> Spot
    requires start { IsCorner from }
    requires stop { IsCorner to }
    requires above { from.z < line }
    requires below { line < to.z }
    ensures value { result ≡ crossing from to line }
    ensures sized { IsSized result }
{
    let (from_weight, to_weight) = (to.z - line, line - from.z);
    Spot {
        n: to.z - from.z,
        x: from_weight * from.x + to_weight * to.x,
        y: from_weight * from.y + to_weight * to.y,
    }
}

/// Puts a corner that lies in row `z`, its border included, behind the first `count` marks. Answers how many there are then.
fn push_corner(marks: &mut [Mark], count: usize, corner: Corner3, z: u32) -> usize
    requires room { count < length marks.old }
    requires corner { IsCorner corner }
    requires row { z < 1024 }
    ensures items { take result marks.new ≡ take count marks.old ++ map mark_of (corner_spots corner z) }
    ensures most { result ≤ count + 1 }
    ensures room { length marks.new ≡ length marks.old }
{
    if 16 * z <= corner.z && corner.z <= 16 * z + 16 {
        let spot = Spot {
            n: 1,
            x: corner.x,
            y: corner.y,
        };
        marks[count] = mark(spot);
        return count + 1;
    }
    count
}

/// Puts the spot where an edge crosses a line, if its ends lie on both sides of it, behind the first `count` marks. Answers how many there are then.
#[inline(always)]
fn push_edge(marks: &mut [Mark], count: usize, a: Corner3, b: Corner3, line: u32) -> usize
    requires room { count < length marks.old }
    requires first { IsCorner a }
    requires second { IsCorner b }
    ensures items { take result marks.new ≡ take count marks.old ++ map mark_of (edge_spots a b line) }
    ensures most { result ≤ count + 1 }
    ensures room { length marks.new ≡ length marks.old }
{
    if a.z < line && line < b.z {
        marks[count] = mark(crossing(a, b, line));
        return count + 1;
    }
    if b.z < line && line < a.z {
        marks[count] = mark(crossing(b, a, line));
        return count + 1;
    }
    count
}

/// The corners of a triangle in row `z`, and where its edges cross the row's two lines: what lies of the triangle in the row is spanned by these.
/// They become the first of `marks`; answers how many there are.
pub fn row_marks(tri: &Tri, z: u32, marks: &mut [Mark]) -> usize
    requires triangle { IsTriangle tri.now }
    requires row { z < 1024 }
    requires room { 9 ≤ length marks.old }
    ensures items { take result marks.new ≡ map mark_of (row_spots tri.now z) }
    ensures room { result ≤ length marks.new }
{
    let Tri { a, b, c, .. } = *tri;
    let count = push_corner(marks, 0, a, z);
    let count = push_corner(marks, count, b, z);
    let count = push_corner(marks, count, c, z);
    let count = push_edge(marks, count, a, b, 16 * z);
    let count = push_edge(marks, count, b, c, 16 * z);
    let count = push_edge(marks, count, c, a, 16 * z);
    let count = push_edge(marks, count, a, b, 16 * z + 16);
    let count = push_edge(marks, count, b, c, 16 * z + 16);
    push_edge(marks, count, c, a, 16 * z + 16)
}
