//! A triangle of a mesh on the grid of a field.
ghost use Rattle.std.specs.Prelude.{◌≡◌, ℕ, ◌≤◌, MatchBool, pos, ◌+ℤ◌};
ghost use Rattle.std.specs.Int.RustNames.{unsigned_abs};
ghost use Rattle.mesh_input.specs.declared.grid.MeshGrid.{MeshGrid};
ghost use Rattle.mesh_input.specs.declared.mesh.WorldTriangle.{WorldTriangle};
ghost use Rattle.mesh_input.specs.Points.{IsTriangleOn, IsFromTo, corner_of};
ghost use Rattle.mesh_input.specs.Triangles.{IsWalkable, IsMade, moved, off_lines, is_on_line};
ghost use Rattle.tri_raster.specs.Triangles.{IsCorner, IsTriangle};

use crate::axis::LAST_ACROSS;
use crate::fault::MeshFault;
use crate::gentle::is_gentle;
use crate::grid::{AxisPlace, GridPoint, GridTriangle, MeshGrid};
use crate::mesh::{MOST_AREA, WorldTriangle, is_finite};
use crate::point::grid_triangle;
use crate::slope::{Edge, Slope};
use tri_raster::{Corner3, Tri};

/// The triangle of a field that one of the game is, which may have this area. Else what is wrong with it, first of all.
pub(crate) fn tri(
    grid: &MeshGrid,
    slope: Slope,
    facet: &WorldTriangle,
    area: u32,
) -> Result<Tri, MeshFault>
    ensures { IsMade grid.now slope facet.now area result }
{
    match grid_triangle(grid, facet) {
        Some(on) => tri_on(slope, &on, area),
        None => Err(if is_finite(facet) {
            MeshFault::Outside
        } else {
            MeshFault::NoNumber
        }),
    }
}

/// The triangle of a field that one on its axes is, which may have this area.
pub(crate) fn tri_on(slope: Slope, on: &GridTriangle, area: u32) -> Result<Tri, MeshFault>
    ensures { (grid : MeshGrid) → (facet : WorldTriangle) → IsTriangleOn grid facet on.now → IsMade grid slope facet area result }
{
    if area > MOST_AREA {
        return Err(MeshFault::BadArea);
    }
    let area = if is_walkable(slope, on) { area } else { 0 };
    Ok(off_lines(Tri {
        a: corner(on.a),
        b: corner(on.b),
        c: corner(on.c),
        area,
    }))
}

/// A point on the axes as a corner of the field.
fn corner(point: GridPoint) -> Corner3
    ensures { result ≡ corner_of point }
{
    Corner3 {
        x: point.x.number,
        y: point.y.number,
        z: point.z.number,
    }
}

/// Whether somebody can walk on a triangle.
fn is_walkable(slope: Slope, on: &GridTriangle) -> bool
    ensures { (grid : MeshGrid) → (facet : WorldTriangle) → IsTriangleOn grid facet on.now
        → MatchBool result (IsWalkable grid slope facet) (¬ IsWalkable grid slope facet) }
{
    is_gentle(slope, edge(on.a, on.b), edge(on.a, on.c))
}

/// The edge from one point to another, on the fine grid.
fn edge(from: GridPoint, to: GridPoint) -> Edge
    ensures { IsFromTo from to result }
{
    Edge {
        x: change(from.x, to.x),
        y: change(from.y, to.y),
        z: change(from.z, to.z),
    }
}

/// How many fine steps it is from one place of an axis to another.
fn change(from: AxisPlace, to: AxisPlace) -> i64
    ensures value { pos to.fine ≡ pos from.fine +ℤ result }
    ensures small { unsigned_abs result ≤ 5000000 }
{
    i64::from(to.fine) - i64::from(from.fine)
}

/// Whether three numbers of corners are all the same line between columns.
fn is_on_line(a: u32, b: u32, c: u32) -> bool
    ensures { result ≡ is_on_line a b c }
{
    a == b && b == c && a % 16 == 0
}

/// A corner, moved by so many sixteenths along x and z, but not beyond the largest field.
fn moved(corner: Corner3, x: u32, z: u32) -> Corner3
    requires corner { IsCorner corner }
    requires x { x ≤ 1 }
    requires z { z ≤ 1 }
    ensures { result ≡ moved corner x z }
{
    Corner3 {
        x: (corner.x + x).min(LAST_ACROSS),
        y: corner.y,
        z: (corner.z + z).min(LAST_ACROSS),
    }
}

/// What stands upright on a line between columns lies in none of them: it is moved into the one behind the line.
fn off_lines(tri: Tri) -> Tri
    requires { IsTriangle tri }
    ensures { result ≡ off_lines tri }
{
    let x = u32::from(is_on_line(tri.a.x, tri.b.x, tri.c.x));
    let z = u32::from(is_on_line(tri.a.z, tri.b.z, tri.c.z));
    Tri {
        a: moved(tri.a, x, z),
        b: moved(tri.b, x, z),
        c: moved(tri.c, x, z),
        area: tri.area,
    }
}
