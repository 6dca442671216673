//! The sides of a region: along the bottom and the top of a strip, and up and down its ends.

ghost use Rattle.std.specs.Prelude.{◌≡◌, ◌<◌, ◌≤◌, ◌+◌, ◌++◌, ◌∷◌, [], OnOk, All, length};
ghost use Rattle.nav_ground.specs.Directions.{number};
ghost use Rattle.mesh_types.specs.Regions.{IsUpon};
ghost use Rattle.contour_walk.specs.Tables.{IsFit, IsRim};
ghost use Rattle.contour_walk.specs.Walk.{edge_at, bottoms, tops, to_right_end, to_left_end, right_side, left_side, AreUpon};

use crate::codes::{RegionRim, edge};
use crate::owners::{index_of, left_end_over, next, place_in, right_end_over};
use mesh_types::{Strip, UnitEdge};
use nav_ground::Direction;
use std::alloc::AllocError;

/// Appends the edges along the bottom of a strip from a column up to another, to the right. The first of the cells is looked for at the index
/// that is handed in, and where the last was found is left there.
pub fn push_bottoms(
    edges: &mut Vec<UnitEdge>,
    rim: RegionRim,
    strip: &Strip,
    first: u32,
    end: u32,
    found: &mut usize,
) -> Result<(), AllocError>
    requires rim { IsRim rim }
    requires fit { IsFit strip.now }
    requires columns { (strip.now.x0 ≤ first) × (end ≤ strip.now.x1 + 1) }
    ensures { OnOk result (edges.new.items ≡ edges.old.items ++ bottoms (edge_at rim.entry.table.now.window rim.entry.cells.now rim.entry.regions.now) strip.now first end) }
{
    let mut guess = *found;
    for x in first..end {
        let at = place_in(strip, x);
        let index = index_of(rim.cells, guess, at);
        edges.push(edge(rim, index, at, Direction::Below))?;
        *found = index;
        guess = next(rim.table.neighbours.as_slice(), index, Direction::Right);
    }
    Ok(())
}

/// Appends the edges along the top of a strip from before a column down to another, to the left. The first of the cells is looked for at the
/// index that is handed in, and where the last was found is left there.
pub fn push_tops(
    edges: &mut Vec<UnitEdge>,
    rim: RegionRim,
    strip: &Strip,
    first: u32,
    end: u32,
    found: &mut usize,
) -> Result<(), AllocError>
    requires rim { IsRim rim }
    requires fit { IsFit strip.now }
    requires columns { (strip.now.x0 ≤ first) × (end ≤ strip.now.x1 + 1) }
    ensures { OnOk result (edges.new.items ≡ edges.old.items ++ tops (edge_at rim.entry.table.now.window rim.entry.cells.now rim.entry.regions.now) strip.now first end) }
{
    let mut guess = *found;
    for x in (first..end).rev() {
        let at = place_in(strip, x);
        let index = index_of(rim.cells, guess, at);
        edges.push(edge(rim, index, at, Direction::Above))?;
        *found = index;
        guess = next(rim.table.neighbours.as_slice(), index, Direction::Left);
    }
    Ok(())
}

/// Appends the edge at the end of a strip, its right or its left one. The cell is looked for at the index that is handed in, and where it was
/// found is left there.
fn push_end(
    edges: &mut Vec<UnitEdge>,
    rim: RegionRim,
    strip: &Strip,
    x: u32,
    dir: Direction,
    found: &mut usize,
) -> Result<(), AllocError>
    requires rim { IsRim rim }
    requires fit { IsFit strip.now }
    requires column { (strip.now.x0 ≤ x) × (x ≤ strip.now.x1) }
    ensures { OnOk result (edges.new.items ≡ edges.old.items ++ edge_at rim.entry.table.now.window rim.entry.cells.now rim.entry.regions.now (number dir) strip.now x ∷ []) }
{
    let at = place_in(strip, x);
    let index = index_of(rim.cells, *found, at);
    edges.push(edge(rim, index, at, dir))?;
    *found = index;
    Ok(())
}

/// Appends the edges from the right end of a strip to that of the one above: back along its top, or out along the bottom of that one. Where
/// the cell at the one end was found, that at the other is to be looked for afterwards.
fn push_to_right_end(
    edges: &mut Vec<UnitEdge>,
    rim: RegionRim,
    lower: &Strip,
    upper: &Strip,
    found: &mut usize,
) -> Result<(), AllocError>
    requires rim { IsRim rim }
    requires lower { IsFit lower.now }
    requires upper { IsFit upper.now }
    requires upon { IsUpon lower.now upper.now }
    ensures { OnOk result (edges.new.items ≡ edges.old.items ++ to_right_end (edge_at rim.entry.table.now.window rim.entry.cells.now rim.entry.regions.now) lower.now upper.now) }
{
    let lower_end = lower.x1 + 1;
    let upper_end = upper.x1 + 1;
    let table = rim.table.neighbours.as_slice();
    let mut below = *found;
    let mut above = next(
        table,
        next(table, below, Direction::Above),
        Direction::Right,
    );
    *found = right_end_over(table, below, Direction::Above, lower.x1, upper.x1);
    push_tops(edges, rim, lower, upper_end, lower_end, &mut below)?;
    push_bottoms(edges, rim, upper, lower_end, upper_end, &mut above)
}

/// Appends the edges from the left end of a strip to that of the one below: out along the top of that one, or back along its bottom. Where
/// the cell at the one end was found, that at the other is to be looked for afterwards.
fn push_to_left_end(
    edges: &mut Vec<UnitEdge>,
    rim: RegionRim,
    lower: &Strip,
    upper: &Strip,
    found: &mut usize,
) -> Result<(), AllocError>
    requires rim { IsRim rim }
    requires lower { IsFit lower.now }
    requires upper { IsFit upper.now }
    requires upon { IsUpon lower.now upper.now }
    ensures { OnOk result (edges.new.items ≡ edges.old.items ++ to_left_end (edge_at rim.entry.table.now.window rim.entry.cells.now rim.entry.regions.now) lower.now upper.now) }
{
    let table = rim.table.neighbours.as_slice();
    let mut above = *found;
    let mut below = next(table, next(table, above, Direction::Below), Direction::Left);
    *found = left_end_over(table, above, Direction::Below, upper.x0, lower.x0);
    push_tops(edges, rim, lower, lower.x0, upper.x0, &mut below)?;
    push_bottoms(edges, rim, upper, upper.x0, lower.x0, &mut above)
}

/// Appends the right side of a stack of strips, upward: the right end of each strip, and then back along its top or out along the bottom
/// of the next. The cell at the first end is looked for at the index that is handed in, and where the last was found is left there.
pub fn push_right_side(
    edges: &mut Vec<UnitEdge>,
    rim: RegionRim,
    strips: &[Strip],
    found: &mut usize,
) -> Result<(), AllocError>
    requires rim { IsRim rim }
    requires fit { All IsFit strips.now }
    requires upon { AreUpon strips.now }
    ensures { OnOk result (edges.new.items ≡ edges.old.items ++ right_side (edge_at rim.entry.table.now.window rim.entry.cells.now rim.entry.regions.now) strips.now) }
{
    for k in 0..strips.len() {
        let strip = &strips[k];
        push_end(edges, rim, strip, strip.x1, Direction::Right, found)?;
        if k + 1 < strips.len() {
            push_to_right_end(edges, rim, strip, &strips[k + 1], found)?;
        }
    }
    Ok(())
}

/// Appends the left side of a stack of strips, downward: for each strip back along its top or out along the bottom of the one above, and
/// then its left end. The cell at the first end is looked for at the index that is handed in, and where the last was found is left there.
pub fn push_left_side(
    edges: &mut Vec<UnitEdge>,
    rim: RegionRim,
    strips: &[Strip],
    found: &mut usize,
) -> Result<(), AllocError>
    requires rim { IsRim rim }
    requires fit { All IsFit strips.now }
    requires upon { AreUpon strips.now }
    ensures { OnOk result (edges.new.items ≡ edges.old.items ++ left_side (edge_at rim.entry.table.now.window rim.entry.cells.now rim.entry.regions.now) strips.now) }
{
    for k in (0..strips.len()).rev() {
        let strip = &strips[k];
        if k + 1 < strips.len() {
            push_to_left_end(edges, rim, strip, &strips[k + 1], found)?;
        }
        push_end(edges, rim, strip, strip.x0, Direction::Left, found)?;
    }
    Ok(())
}
