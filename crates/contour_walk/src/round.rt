//! The contour of a region.

ghost use Rattle.std.specs.Prelude.{◌≡◌, ◌*◌, ◌<◌, ◌≤◌, IfOk, OnOk, All, length, slice_index_or, ℕ, false, take, drop, ◌++◌};
ghost use Rattle.nav_ground.specs.Limits.{IsSetting};
ghost use Rattle.nav_ground.specs.Cells.{IsCells};
ghost use Rattle.nav_ground.specs.Tiling.{tile_count, tile_window};
ghost use Rattle.mesh_types.specs.declared.region.UnitEdge.{UnitEdge};
ghost use Rattle.mesh_types.specs.Regions.{AreRegionsOf};
ghost use Rattle.mesh_types.specs.Contours.{IsContour};
ghost use Rattle.mesh_types.specs.LinkOrder.{is_point_before};
ghost use Rattle.mesh_types.specs.Rings.{IsRing};
ghost use Rattle.contour_walk.specs.Tables.{IsFit, IsRim};
ghost use Rattle.contour_walk.specs.Walk.{edge_at, round, AreUpon};

use crate::codes::{RegionRim, region_table};
use crate::sides::{push_bottoms, push_left_side, push_right_side, push_tops};
use mesh_types::{Regions, Strip, UnitEdge};
use nav_base::Point;
use nav_ground::{FreeLayer, Setting};
use nav_lists::Items;
use std::alloc::{AllocError, Global};

/// How many edges a walk has room for at first, a strip: its two ends, and six where it reaches beyond the strips below and above it, which
/// most strips do by fewer columns.
const EDGES_A_STRIP: usize = 8;

/// The walk round a stack of strips, from the left end of its first strip's bottom.
fn walk(alloc: Global, rim: RegionRim, strips: &[Strip]) -> Result<Vec<UnitEdge>, AllocError>
    requires rim { IsRim rim }
    requires some { 0 < length strips.now }
    requires fit { All IsFit strips.now }
    requires upon { AreUpon strips.now }
    ensures { IfOk result (λ edges. edges.items ≡ round (edge_at rim.entry.table.now.window rim.entry.cells.now rim.entry.regions.now) strips.now) }
{
    let mut edges = Vec::with_capacity(alloc, strips.len().saturating_mul(EDGES_A_STRIP))?;
    push_round(&mut edges, rim, strips)?;
    Ok(edges)
}

/// Appends that walk.
fn push_round(edges: &mut Vec<UnitEdge>, rim: RegionRim, strips: &[Strip]) -> Result<(), AllocError>
    requires rim { IsRim rim }
    requires some { 0 < length strips.now }
    requires fit { All IsFit strips.now }
    requires upon { AreUpon strips.now }
    ensures { OnOk result (edges.new.items ≡ edges.old.items ++ round (edge_at rim.entry.table.now.window rim.entry.cells.now rim.entry.regions.now) strips.now) }
{
    let first = &strips[0];
    let last = &strips[strips.len() - 1];
    let first_end = first.x1 + 1;
    let last_end = last.x1 + 1;
    let mut found = 0;
    push_bottoms(edges, rim, first, first.x0, first_end, &mut found)?;
    push_right_side(edges, rim, strips, &mut found)?;
    push_tops(edges, rim, last, last.x0, last_end, &mut found)?;
    push_left_side(edges, rim, strips, &mut found)
}

/// The first place at which an edge begins at the least corner.
fn least_beginning(edges: &[UnitEdge]) -> usize
    ensures there { 0 < length edges.now → result < length edges.now }
    ensures least { (k : ℕ) (d : UnitEdge) → k < length edges.now
        → is_point_before (slice_index_or edges.now k d).from (slice_index_or edges.now result d).from ≡ false }
{
    let mut least = 0;
    for k in 0..edges.len() {
        if is_before(edges[k].from, edges[least].from) {
            least = k;
        }
    }
    least
}

/// Whether a corner comes before another: by x, then by z.
fn is_before(a: Point, b: Point) -> bool
    ensures { result ≡ is_point_before a b }
{
    a.x.cmp(&b.x).then(a.z.cmp(&b.z)).is_lt()
}

/// The contour of the region with a number, by the tables of its tile: the edges at its rim in whole cells, counterclockwise, from the
/// least corner by x and then z.
pub fn contour_over(alloc: Global, rim: RegionRim, id: u32) -> Result<Items<UnitEdge>, AllocError>
    requires rim { IsRim rim }
    requires regions { AreRegionsOf rim.cells.now rim.regions.now }
    requires there { id < length rim.regions.now.regions }
    ensures contour { IfOk result (IsContour rim.entry.table.now.window rim.entry.cells.now rim.entry.regions.now id) }
    ensures ring { IfOk result IsRing }
    ensures few { IfOk result (λ edges. length edges ≤ 4 * length rim.entry.cells.now) }
{
    let strips = rim.regions.regions.as_slice()[id as usize]
        .strips
        .as_slice();
    let mut edges = walk(alloc, rim, strips)?;
    let least = least_beginning(edges.as_slice());
    turn(edges.as_mut_slice(), least);
    Ok(Items::from_vec(edges))
}

/// Puts the edge at a place first, and those before it behind the others.
fn turn(edges: &mut [UnitEdge], first: usize)
    requires { first ≤ length edges.old }
    ensures { edges.new ≡ drop first edges.old ++ take first edges.old }
{
    edges.rotate_left(first);
}

/// The contour of the region with a number, of the regions of a tile's free cells: the edges at its rim in whole cells, counterclockwise,
/// from the least corner by x and then z. Where all contours of a tile are wanted, `region_table` and `contour_over` make its tables once.
/// From Recast's contours. For n cells and edges the work is n log n at worst, and linear where columns have one cell.
pub fn contour(
    alloc: Global,
    free: &FreeLayer,
    setting: &Setting,
    regions: &Regions,
    id: u32,
) -> Result<Items<UnitEdge>, AllocError>
    requires setting { IsSetting setting.now }
    requires tile { free.now.tile < tile_count setting.now }
    requires cells { IsCells free.now.cells }
    requires regions { AreRegionsOf free.now.cells regions.now }
    requires there { id < length regions.now.regions }
    ensures contour { IfOk result (IsContour (tile_window setting.now free.now.tile) free.now.cells regions.now id) }
    ensures ring { IfOk result IsRing }
    ensures few { IfOk result (λ edges. length edges ≤ 4 * length free.now.cells) }
{
    let table = region_table(alloc, free, setting, regions)?;
    let rim = RegionRim {
        cells: free.cells.as_slice(),
        regions,
        table: &table,
    };
    contour_over(alloc, rim, id)
}
