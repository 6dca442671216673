//! Which strips join which strips of the next row.

ghost use Rattle.std.specs.Prelude.{◌≡◌, ◌<◌, ◌&&◌, IsTrue, IfOk, length, map};
ghost use Rattle.std.specs.List.{list_all};
ghost use Rattle.mesh_types.specs.StripPolygons.{strip_runs};
ghost use Rattle.mesh_types.specs.Regions.{numbers, joins};
ghost use Rattle.mono_regions.specs.Indices.{AreIndices};
ghost use Rattle.mono_regions.specs.Seeing.{is_one, IsSeenAmong};
ghost use Rattle.mono_regions.specs.Joining.{IsTableOf, touched_from, joined_from, is_over, is_fitting, has_area_of, is_unjoined, names};

use crate::touching::{SeenStrips, StripTable, beyond, touched};
use nav_ground::{Direction, PackedCell};
use std::alloc::{AllocError, Global};

/// For each strip the strip of the next row that it joins, if there is one, from what each touches toward z - 1.
pub fn joined_strips(
    alloc: Global,
    cells: &[PackedCell],
    strips: &StripTable,
    below: &[SeenStrips],
) -> Result<Vec<Option<u32>>, AllocError>
    requires strips { IsTableOf cells.now strips.now }
    requires below { below.now ≡ map (touched_from cells.now 3) (numbers (strip_runs cells.now)) }
    ensures { IfOk result (λ joined. joined.items ≡ map (joined_from (strip_runs cells.now)) (numbers (strip_runs cells.now))) }
{
    let mut joined = Vec::with_capacity(alloc, strips.index.runs.len())?;
    for number in 0..strips.index.runs.len() {
        joined.push(joined_strip(cells, strips, below, number as u32))?;
    }
    Ok(joined)
}

/// The strip that a strip joins, if there is one.
fn joined_strip(
    cells: &[PackedCell],
    strips: &StripTable,
    below: &[SeenStrips],
    lower: u32,
) -> Option<u32>
    requires strips { IsTableOf cells.now strips.now }
    requires below { below.now ≡ map (touched_from cells.now 3) (numbers (strip_runs cells.now)) }
    requires there { lower < length (strip_runs cells.now) }
    ensures { result ≡ joined_from (strip_runs cells.now) lower }
{
    let run = strips.index.runs.list(lower as usize);
    match touched(cells, strips, run, Direction::Above) {
        SeenStrips::One(upper) => {
            if is_joined(cells, strips, below, lower, upper) {
                Some(upper)
            } else {
                None
            }
        }
        SeenStrips::Nothing => None,
        SeenStrips::Several => None,
    }
}

/// Whether a strip joins the only one that it touches toward z + 1.
fn is_joined(
    cells: &[PackedCell],
    strips: &StripTable,
    below: &[SeenStrips],
    lower: u32,
    upper: u32,
) -> bool
    requires strips { IsTableOf cells.now strips.now }
    requires below { below.now ≡ map (touched_from cells.now 3) (numbers (strip_runs cells.now)) }
    requires lower { lower < length (strip_runs cells.now) }
    requires upper { upper < length (strip_runs cells.now) }
    requires only { IsTrue (is_one upper (touched_from cells.now 1 lower)) }
    ensures { result ≡ joins (strip_runs cells.now) lower upper }
{
    let run = strips.index.runs.list(lower as usize);
    let over = strips.index.runs.list(upper as usize);
    is_one(below[upper as usize], lower) && are_fitting(cells, strips, run, over, upper)
}

/// Whether a strip is connected to the upper one wherever that lies over it, and both have one area.
fn are_fitting(
    cells: &[PackedCell],
    strips: &StripTable,
    run: &[u32],
    over: &[u32],
    upper: u32,
) -> bool
    requires strips { IsTableOf cells.now strips.now }
    requires run { AreIndices cells.now run.now }
    requires over { AreIndices cells.now over.now }
    ensures { result ≡ (list_all (is_fitting cells.now upper over.now) run.now && has_area_of cells.now over.now run.now) }
{
    are_connected(cells, strips, run, over, upper) && have_one_area(cells, run, over)
}

/// Whether the strips of cells with some indices have one area.
fn have_one_area(cells: &[PackedCell], run: &[u32], over: &[u32]) -> bool
    requires run { AreIndices cells.now run.now }
    requires over { AreIndices cells.now over.now }
    ensures { result ≡ has_area_of cells.now over.now run.now }
{
    cells[run[0] as usize].area() == cells[over[0] as usize].area()
}

/// Whether one strip was seen alone.
fn is_one(seen: SeenStrips, strip: u32) -> bool
    ensures { result ≡ is_one strip seen }
{
    match seen {
        SeenStrips::One(other) => other == strip,
        SeenStrips::Nothing => false,
        SeenStrips::Several => false,
    }
}

/// Whether each cell of a strip is connected toward z + 1 to the upper strip, where that has a cell in its column.
fn are_connected(
    cells: &[PackedCell],
    strips: &StripTable,
    run: &[u32],
    over: &[u32],
    upper: u32,
) -> bool
    requires strips { IsTableOf cells.now strips.now }
    requires run { AreIndices cells.now run.now }
    requires over { AreIndices cells.now over.now }
    ensures { result ≡ list_all (is_fitting cells.now upper over.now) run.now }
{
    run.iter()
        .all(|at| is_fitting(cells, strips, *at, over, upper))
}

/// Whether a cell is connected toward z + 1 to the upper strip, or that has no cell in its column.
fn is_fitting(cells: &[PackedCell], strips: &StripTable, at: u32, over: &[u32], upper: u32) -> bool
    requires strips { IsTableOf cells.now strips.now }
    requires there { at < length cells.now }
    requires over { AreIndices cells.now over.now }
    ensures { result ≡ is_fitting cells.now upper over.now at }
{
    is_named(beyond(cells, strips, at, Direction::Above), upper)
        || !is_over(cells, cells[at as usize].at().x, over)
}

/// Whether a column lies in the strip of the cells with some indices.
fn is_over(cells: &[PackedCell], x: u32, run: &[u32]) -> bool
    requires { AreIndices cells.now run.now }
    ensures { result ≡ is_over cells.now x run.now }
{
    let x0 = cells[run[0] as usize].at().x as usize;
    x0 <= x as usize && x as usize + 1 <= x0 + run.len()
}

/// Whether a strip that was found is a given one.
fn is_named(found: Option<u32>, strip: u32) -> bool
    ensures { result ≡ names strip found }
{
    match found {
        Some(other) => other == strip,
        None => false,
    }
}

/// Whether no strip joins a strip, from what that touches below, and what each strip joins.
pub fn is_unjoined(joined: &[Option<u32>], below: SeenStrips, strip: u32) -> bool
    requires { IsSeenAmong (length joined.now) below }
    ensures { result ≡ is_unjoined joined.now strip below }
{
    match below {
        SeenStrips::One(lower) => !is_named(joined[lower as usize], strip),
        SeenStrips::Nothing => true,
        SeenStrips::Several => true,
    }
}
