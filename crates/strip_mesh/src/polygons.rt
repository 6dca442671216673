//! The rectangles of strips.

ghost use Rattle.std.specs.Prelude.{◌≡◌, IfOk, map};
ghost use Rattle.nav_ground.specs.Cells.{IsCells};
ghost use Rattle.mesh_types.specs.StripPolygons.{strip_polygon, low_of, high_of};
ghost use Rattle.mono_regions.specs.Indices.{cell_at, AreIndices};
ghost use Rattle.strip_mesh.specs.Indexed.{AreIndexed, runs_in};
ghost use Rattle.strip_mesh.specs.Strips.{polygon_at};

use crate::inner::corner;
use crate::tile_strips::TileStrips;
use mesh_types::{Corners, Polygon, Polygons};
use nav_ground::PackedCell;
use std::alloc::{AllocError, Global};

/// The polygons of a tile: a rectangle for each strip, in order.
pub fn polygons(alloc: Global, strips: &TileStrips) -> Result<Polygons, AllocError>
    requires { AreIndexed strips.now }
    ensures { IfOk result (λ polys. polys ≡ map strip_polygon (runs_in strips.now)) }
{
    let cells = strips.free.cells.as_slice();
    let count = strips.count();
    let mut polys = Vec::with_capacity(alloc, count as usize)?;
    for strip in 0..count {
        polys.push(polygon(cells, strips.run(strip)))?;
    }
    Polygons::from_vec(alloc, polys)
}

/// The rectangle round cells of one row, by their indices, counterclockwise from its least corner.
fn polygon(cells: &[PackedCell], run: &[u32]) -> Polygon
    requires cells { IsCells cells.now }
    requires run { AreIndices cells.now run.now }
    ensures { result ≡ polygon_at cells.now run.now }
{
    let first = &cells[run[0] as usize];
    let at = first.at();
    let x1 = at.x + run.len() as u32 - 1;
    let corners = [
        corner(at.x, at.z),
        corner(x1 + 1, at.z),
        corner(x1 + 1, at.z + 1),
        corner(at.x, at.z + 1),
    ];
    Polygon {
        corners: Corners::from_slice(&corners),
        area: first.area(),
        low: low(cells, run),
        high: high(cells, run),
    }
}

/// The least floor of cells.
fn low(cells: &[PackedCell], run: &[u32]) -> u32
    requires { AreIndices cells.now run.now }
    ensures { result ≡ low_of (map (cell_at cells.now) run.now) }
{
    let mut low = cells[run[0] as usize].floor();
    for at in run {
        low = low.min(cells[*at as usize].floor());
    }
    low
}

/// The greatest floor of cells.
fn high(cells: &[PackedCell], run: &[u32]) -> u32
    requires { AreIndices cells.now run.now }
    ensures { result ≡ high_of (map (cell_at cells.now) run.now) }
{
    let mut high = cells[run[0] as usize].floor();
    for at in run {
        high = high.max(cells[*at as usize].floor());
    }
    high
}
