//! What the rim of a tile offers to the tiles across its sides.

ghost use Rattle.std.specs.Prelude.{◌≡◌, ◌<◌, ◌≤◌, ◌+◌, ◌++◌, ◌↔◌, pos, false, [], IfOk, IfSome, IsTrue, OnOk, All, length, map, slice_index, slice_index_or, slice_range};
ghost use Rattle.std.specs.List.{between, flat_map, range_with_len};
ghost use Rattle.nav_ground.specs.declared.cell.Cell.{Cell};
ghost use Rattle.nav_ground.specs.Cells.{IsCell, IsCells};
ghost use Rattle.nav_ground.specs.Directions.{number};
ghost use Rattle.mesh_types.specs.StripRim.{strip_rim, strip_rim_over};
ghost use Rattle.mesh_types.specs.Crossings.{is_crossing};
ghost use Rattle.mesh_types.specs.StripLinks.{outside_of};
ghost use Rattle.mesh_types.specs.StripPolygons.{some_cell};
ghost use Rattle.mesh_types.specs.Runs.{label_if, runs_of};
ghost use Rattle.mono_regions.specs.Indices.{cell_at, AreIndices};
ghost use Rattle.strip_mesh.specs.Indexed.{AreIndexed, runs_in, run_in};
ghost use Rattle.strip_mesh.specs.Strips.{pair_at, IsAloneAtSide};

use crate::tile_strips::{TileStrips, outside_of};
use mesh_types::{LabelRun, LevelPair, RimEdge, runs};
use nav_ground::{CellRef, Direction, PackedCell, Window};
use nav_lists::Items;
use std::alloc::{AllocError, Global};

/// The rim of a tile, strip by strip and edge by edge: for each edge along a side of the tile the maximal runs of cells that have a kept
/// neighbour across.
pub fn rim(
    alloc: Global,
    strips: &TileStrips,
    window: &Window,
) -> Result<Items<RimEdge>, AllocError>
    requires { AreIndexed strips.now }
    ensures { IfOk result (λ rim. rim ≡ strip_rim window.now (runs_in strips.now)) }
{
    let mut labels = Vec::new(alloc);
    let mut rim = Vec::new(alloc);
    for strip in 0..strips.count() {
        let of = StripRim {
            strips,
            window,
            strip,
        };
        push_rim(alloc, of, &mut labels, &mut rim)?;
    }
    Ok(Items::from_vec(rim))
}

/// A strip, of which the rim of its tile is to list the edges.
#[derive(Clone, Copy)]
struct StripRim<'a> {
    strips: &'a TileStrips,
    window: &'a Window,
    strip: u32,
}

/// Appends what the rim lists for a strip. The labels are room to work in.
fn push_rim(
    alloc: Global,
    of: StripRim,
    labels: &mut Vec<Option<u32>>,
    rim: &mut Vec<RimEdge>,
) -> Result<(), AllocError>
    requires rules { AreIndexed of.strips.now }
    requires there { of.strip < length (runs_in of.strips.now) }
    ensures { OnOk result (rim.new.items ≡ rim.old.items ++ flat_map (strip_rim_over of.entry.window.now (runs_in of.entry.strips.now) of.entry.strip) (range_with_len 0 4)) }
{
    for edge in 0..4 {
        push_rim_over(alloc, of, edge, labels, rim)?;
    }
    Ok(())
}

/// Appends what the rim lists for an edge of a strip. Beyond its ends a strip meets a side of the tile with one cell alone.
fn push_rim_over(
    alloc: Global,
    of: StripRim,
    edge: u32,
    labels: &mut Vec<Option<u32>>,
    rim: &mut Vec<RimEdge>,
) -> Result<(), AllocError>
    requires rules { AreIndexed of.strips.now }
    requires there { of.strip < length (runs_in of.strips.now) }
    requires edge { edge < 4 }
    ensures { OnOk result (rim.new.items ≡ rim.old.items ++ strip_rim_over of.entry.window.now (runs_in of.entry.strips.now) of.entry.strip edge) }
{
    if !may_reach(of, outside_of(edge)) {
        return Ok(());
    }
    match end_at_side(of, edge) {
        Some(place) => push_rim_at(alloc, of, edge, place, rim),
        None => push_rim_along(alloc, of, edge, labels, rim),
    }
}

/// Appends what the rim lists for an edge at an end of a strip, of which the cell at a place alone lies along the side of the tile.
fn push_rim_at(
    alloc: Global,
    of: StripRim,
    edge: u32,
    place: u32,
    rim: &mut Vec<RimEdge>,
) -> Result<(), AllocError>
    requires rules { AreIndexed of.strips.now }
    requires there { of.strip < length (runs_in of.strips.now) }
    requires edge { edge < 4 }
    requires alone { IsAloneAtSide of.window.now (run_in of.strips.now of.strip) (outside_of edge) place }
    ensures { OnOk result (rim.new.items ≡ rim.old.items ++ strip_rim_over of.entry.window.now (runs_in of.entry.strips.now) of.entry.strip edge) }
{
    let run = of.strips.run(of.strip);
    if let Some(label) = label_at(of, edge, run[place as usize]) {
        let part = LabelRun {
            first: place,
            last: place,
            label,
        };
        rim.push(rim_edge(alloc, of.strips, of.strip, edge, part)?)?;
    }
    Ok(())
}

/// Appends what the rim lists for an edge of a strip, along all of it.
fn push_rim_along(
    alloc: Global,
    of: StripRim,
    edge: u32,
    labels: &mut Vec<Option<u32>>,
    rim: &mut Vec<RimEdge>,
) -> Result<(), AllocError>
    requires rules { AreIndexed of.strips.now }
    requires there { of.strip < length (runs_in of.strips.now) }
    requires edge { edge < 4 }
    ensures { OnOk result (rim.new.items ≡ rim.old.items ++ strip_rim_over of.entry.window.now (runs_in of.entry.strips.now) of.entry.strip edge) }
{
    label_crossing(of, edge, labels)?;
    let parts = runs(alloc, labels.as_slice())?;
    let parts = parts.as_slice();
    for part in parts {
        rim.push(rim_edge(alloc, of.strips, of.strip, edge, *part)?)?;
    }
    Ok(())
}

/// The place of the one cell of a strip that lies along the side of the tile beyond an edge at an end of the strip, where the strip is known to
/// end right at that side.
fn end_at_side(of: StripRim, edge: u32) -> Option<u32>
    requires rules { AreIndexed of.strips.now }
    requires there { of.strip < length (runs_in of.strips.now) }
    ensures { IfSome result (IsAloneAtSide of.entry.window.now (run_in of.entry.strips.now of.entry.strip) (outside_of edge)) }
{
    match edge {
        1 => last_at_side(of),
        3 => first_at_side(of),
        _ => None,
    }
}

/// The place of the last cell of a strip, if it lies in the last columns of the tile.
fn last_at_side(of: StripRim) -> Option<u32>
    requires rules { AreIndexed of.strips.now }
    requires there { of.strip < length (runs_in of.strips.now) }
    ensures { IfSome result (IsAloneAtSide of.entry.window.now (run_in of.entry.strips.now of.entry.strip) 2) }
{
    let count = of.strips.run(of.strip).len();
    if is_last_column(of.window, of.strips.last(of.strip).at()) {
        Some((count - 1) as u32)
    } else {
        None
    }
}

/// The place of the first cell of a strip, if it lies in the first columns of the tile.
fn first_at_side(of: StripRim) -> Option<u32>
    requires rules { AreIndexed of.strips.now }
    requires there { of.strip < length (runs_in of.strips.now) }
    ensures { IfSome result (IsAloneAtSide of.entry.window.now (run_in of.entry.strips.now of.entry.strip) 0) }
{
    if is_first_column(of.window, of.strips.first(of.strip).at()) {
        Some(0)
    } else {
        None
    }
}

/// Whether a place lies in the first columns of a tile.
fn is_first_column(window: &Window, at: CellRef) -> bool
    requires { at.x < 1024 }
    ensures { IsTrue result ↔ (pos at.x ≡ window.now.x0) }
{
    at.x as i32 == window.x0
}

/// Whether a place lies in the last columns of a tile.
fn is_last_column(window: &Window, at: CellRef) -> bool
    requires { at.x < 1024 }
    ensures { IsTrue result ↔ (pos at.x ≡ window.now.x1) }
{
    at.x as i32 == window.x1
}

/// Whether a strip may have cells along the side of the tile in a direction: toward x + 1 its last cell comes nearest to that, else its
/// first.
fn may_reach(of: StripRim, dir: Direction) -> bool
    requires rules { AreIndexed of.strips.now }
    requires there { of.strip < length (runs_in of.strips.now) }
    ensures { result ≡ false → runs_of (map (λ (cell : Cell). label_if (is_crossing of.entry.window.now (number dir) cell)) (run_in of.entry.strips.now of.entry.strip)) ≡ [] }
{
    match dir {
        Direction::Right => is_at_side(of.window, dir, of.strips.last(of.strip).at()),
        Direction::Left | Direction::Above | Direction::Below => {
            is_at_side(of.window, dir, of.strips.first(of.strip).at())
        }
    }
}

/// Which cells of a strip have a kept neighbour across the side of the tile that an edge lies on.
fn label_crossing(of: StripRim, edge: u32, labels: &mut Vec<Option<u32>>) -> Result<(), AllocError>
    requires rules { AreIndexed of.strips.now }
    requires there { of.strip < length (runs_in of.strips.now) }
    requires edge { edge < 4 }
    ensures { OnOk result (labels.new.items
        ≡ map (λ (cell : Cell). label_if (is_crossing of.entry.window.now (outside_of edge) cell)) (run_in of.entry.strips.now of.entry.strip)) }
{
    let run = of.strips.run(of.strip);
    labels.clear();
    for at in run {
        labels.push(label_at(of, edge, *at))?;
    }
    Ok(())
}

/// The one label, for the cell with an index, if it has a kept neighbour across the side of the tile that an edge lies on.
fn label_at(of: StripRim, edge: u32, at: u32) -> Option<u32>
    requires rules { AreIndexed of.strips.now }
    requires edge { edge < 4 }
    requires there { at < length of.strips.now.free.cells }
    ensures { result ≡ label_if (is_crossing of.entry.window.now (outside_of edge) (cell_at of.entry.strips.now.free.cells at)) }
{
    let cells = of.strips.free.cells.as_slice();
    label(of.window, outside_of(edge), &cells[at as usize])
}

/// The one label, for a cell that has a kept neighbour across the side of the tile in a direction.
fn label(window: &Window, dir: Direction, cell: &PackedCell) -> Option<u32>
    requires { IsCell cell.now }
    ensures { result ≡ label_if (is_crossing window.now (number dir) cell.now) }
{
    if is_at_side(window, dir, cell.at()) && cell.next(dir).is_some() {
        Some(0)
    } else {
        None
    }
}

/// Whether the neighbouring column of a place in a direction lies outside the tile.
fn is_at_side(window: &Window, dir: Direction, at: CellRef) -> bool
    requires x { at.x < 1024 }
    requires z { at.z < 1024 }
    ensures { result ≡ Rattle.mesh_types.specs.Crossings.is_at_side window.now (number dir) at }
{
    match dir {
        Direction::Left => at.x as i32 <= window.x0,
        Direction::Above => window.z1 <= at.z as i32,
        Direction::Right => window.x1 <= at.x as i32,
        Direction::Below => at.z as i32 <= window.z0,
    }
}

/// What the rim lists for an edge of a strip along a run of its cells.
fn rim_edge(
    alloc: Global,
    strips: &TileStrips,
    strip: u32,
    edge: u32,
    part: LabelRun,
) -> Result<RimEdge, AllocError>
    requires rules { AreIndexed strips.now }
    requires there { strip < length (runs_in strips.now) }
    requires edge { edge < 4 }
    requires order { part.first ≤ part.last }
    requires inside { part.last < length (run_in strips.now strip) }
    ensures { IfOk result (λ entry. entry ≡ Rattle.mesh_types.specs.StripRim.rim_edge strip edge (run_in strips.now strip) part) }
{
    let cells = strips.free.cells.as_slice();
    let side = outside_of(edge);
    let run = part_of(strips, strip, part);
    Ok(RimEdge {
        poly: strip,
        edge,
        side: side.index() as u32,
        first: position_of(side, cells[run[0] as usize].at()),
        pairs: pairs(alloc, cells, run, side)?,
    })
}

/// The indices of the cells of a strip along a part of it.
fn part_of(strips: &TileStrips, strip: u32, part: LabelRun) -> &[u32]
    requires rules { AreIndexed strips.now }
    requires there { strip < length (runs_in strips.now) }
    requires order { part.first ≤ part.last }
    requires inside { part.last < length (run_in strips.now strip) }
    ensures cells { map (cell_at strips.now.free.cells) result.now ≡ between part.first (part.last + 1) (run_in strips.now strip) }
    ensures first { cell_at strips.now.free.cells (slice_index result.now 0) ≡ slice_index_or (run_in strips.now strip) part.first some_cell }
    ensures indices { AreIndices strips.now.free.cells result.now }
{
    let run = strips.run(strip);
    between(run, part.first as usize, part.last as usize + 1)
}

/// The indices from one place up to another.
fn between(run: &[u32], first: usize, end: usize) -> &[u32]
    requires { (first ≤ end) × (end ≤ length run.now) }
    ensures { result.now ≡ slice_range run.now first end }
{
    &run[first..end]
}

/// The position of a place along a side of a tile: z on the sides 0 and 2, x on the sides 1 and 3.
fn position_of(side: Direction, at: CellRef) -> u32
    ensures { result ≡ Rattle.mesh_types.specs.Crossings.position_of (number side) at }
{
    match side {
        Direction::Left => at.z,
        Direction::Above => at.x,
        Direction::Right => at.z,
        Direction::Below => at.x,
    }
}

/// The levels of cells, by their indices, and of their neighbours across a side.
fn pairs(
    alloc: Global,
    cells: &[PackedCell],
    run: &[u32],
    side: Direction,
) -> Result<Items<LevelPair>, AllocError>
    requires cells { IsCells cells.now }
    requires run { All (λ i. i < length cells.now) run.now }
    ensures { IfOk result (λ pairs. pairs ≡ map (pair_at cells.now (number side)) run.now) }
{
    let mut pairs = Vec::with_capacity(alloc, run.len())?;
    for at in run {
        pairs.push(level_pair(side, &cells[*at as usize]))?;
    }
    Ok(Items::from_vec(pairs))
}

/// The levels of a cell and of its neighbour across a side.
fn level_pair(side: Direction, cell: &PackedCell) -> LevelPair
    ensures { result ≡ Rattle.mesh_types.specs.Crossings.level_pair (number side) cell.now }
{
    LevelPair {
        own: cell.at().level,
        other: cell.next(side).unwrap_or(0),
    }
}
