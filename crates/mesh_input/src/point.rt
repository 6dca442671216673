//! Points of a mesh on the grid of a field, and on the fine one.
ghost use Rattle.std.specs.Prelude.{◌≡◌, ℕ, ◌+◌, ◌*◌, ◌≤◌, ◌<◌, ◌^◌, List, None, length, slice_index_or, IfOk, IfSome, IsNone};
ghost use Rattle.std.specs.Float.{Float};
ghost use Rattle.mesh_input.specs.declared.grid.MeshGrid.{MeshGrid};
ghost use Rattle.mesh_input.specs.Points.{IsPointOn, IsTriangleOn, IsListed, IsListedTriangle, AreVertexPoints};
ghost use Rattle.mesh_input.specs.Triangles.{LiesInField, IsInField};

use crate::axis::place_on;
use crate::grid::{GridPoint, GridTriangle, MeshGrid};
use crate::mesh::{WorldTriangle, vertex};
use std::alloc::{AllocError, Global};
use world_grid::WorldPoint;

/// A point on the axes; none where it lies outside.
fn grid_point(grid: &MeshGrid, at: WorldPoint) -> Option<GridPoint>
    ensures found { IfSome result (IsPointOn grid.now at) }
    ensures none { IsNone result → ¬ LiesInField grid.now at }
{
    let x = place_on(at.x, grid.x)?;
    let y = place_on(at.y, grid.y)?;
    let z = place_on(at.z, grid.z)?;
    Some(GridPoint { x, y, z })
}

/// A triangle on the axes; none where a corner lies outside.
pub(crate) fn grid_triangle(grid: &MeshGrid, facet: &WorldTriangle) -> Option<GridTriangle>
    ensures found { IfSome result (IsTriangleOn grid.now facet.now) }
    ensures none { IsNone result → ¬ IsInField grid.now facet.now }
{
    let a = grid_point(grid, facet.a)?;
    let b = grid_point(grid, facet.b)?;
    let c = grid_point(grid, facet.c)?;
    Some(GridTriangle { a, b, c })
}

/// The points of all vertices, where a mesh with so many corners of triangles uses each of them twice or more; else no points.
pub(crate) fn vertex_points(
    alloc: Global,
    grid: &MeshGrid,
    vertices: &[f32],
    corners: usize,
) -> Result<Vec<Option<GridPoint>>, AllocError>
    ensures { IfOk result (λ points. AreVertexPoints grid.now vertices.now points.items) }
{
    let count = vertices.len() / 3;
    if count > corners / 2 {
        return Ok(Vec::new(alloc));
    }
    let mut points = Vec::with_capacity(alloc, count)?;
    for index in 0..count {
        points.push(point_of(grid, vertices, index))?;
    }
    Ok(points)
}

/// The point of a vertex.
fn point_of(grid: &MeshGrid, vertices: &[f32], index: usize) -> Option<GridPoint>
    requires few { 3 * index + 2 < 2 ^ 64 }
    ensures { IfSome result (IsListed grid.now vertices.now index) }
{
    grid_point(grid, vertex(vertices, index)?)
}

/// The triangle at a place, where the points of all its vertices are listed.
pub(crate) fn listed_triangle(
    points: &[Option<GridPoint>],
    corners: &[u32],
    place: usize,
) -> Option<GridTriangle>
    requires there { 3 * place + 2 < length corners.now }
    ensures { (grid : MeshGrid) → (vertices : List Float) → AreVertexPoints grid vertices points.now
        → IfSome result (IsListedTriangle grid vertices corners.now place) }
{
    let at = 3 * place;
    let a = listed(points, corners[at])?;
    let b = listed(points, corners[at + 1])?;
    let c = listed(points, corners[at + 2])?;
    Some(GridTriangle { a, b, c })
}

/// The listed point of a vertex.
fn listed(points: &[Option<GridPoint>], index: u32) -> Option<GridPoint>
    ensures { result ≡ slice_index_or points.now index None }
{
    let at = index as usize;
    if at < points.len() { points[at] } else { None }
}
