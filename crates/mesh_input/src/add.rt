//! Triangles from arrays, added to those of a field.
ghost use Rattle.std.specs.Prelude.{◌≡◌, ℕ, ◌+◌, ◌*◌, ◌%◌, ◌/◌, ◌<◌, List, [], length, take, All, OnOk, OnErr, Err, ◌⊎◌};
ghost use Rattle.mesh_input.specs.declared.fault.FaultyTriangle.{FaultyTriangle};
ghost use Rattle.mesh_input.specs.Adding.{IsMadeAt, AreAdded, IsFirstFault, HasAdded, AreAreasOf, lists_of};
ghost use Rattle.mesh_input.specs.Points.{AreVertexPoints};
ghost use Rattle.tri_raster.specs.Triangles.{IsTriangle};

use crate::fault::{FaultyTriangle, MeshFault, MeshRefusal};
use crate::grid::{GridPoint, MeshGrid};
use crate::mesh::{area, facet};
use crate::point::{listed_triangle, vertex_points};
use crate::slope::Slope;
use crate::triangle::{tri, tri_on};
use tri_raster::Tri;

/// Adds the triangles of a mesh to those of a field: three numbers of `vertices` a vertex, three of `corners` a triangle, and one of `areas`
/// a triangle, or none at all. The first triangle that fails is told, and then none is added.
pub fn add_triangles(
    tris: &mut Vec<Tri>,
    grid: &MeshGrid,
    slope: Slope,
    vertices: &[f32],
    corners: &[u32],
    areas: &[u8],
) -> Result<(), MeshRefusal>
    requires whole { length corners.now % 3 ≡ 0 }
    requires areas { AreAreasOf corners.now areas.now }
    ensures added { OnOk result (AreAdded grid.now slope (lists_of vertices.now corners.now areas.now) tris.old.items tris.new.items) }
    ensures rules { All IsTriangle tris.old.items → All IsTriangle tris.new.items }
    ensures refused { OnErr result (tris.new.items ≡ tris.old.items) }
    ensures first { (faulty : FaultyTriangle) → result ≡ Err (MeshRefusal.Faulty faulty)
        → IsFirstFault grid.now slope (lists_of vertices.now corners.now areas.now) faulty }
{
    let before = tris.len();
    let mesh = MeshSource {
        grid,
        slope,
        vertices,
        corners,
        areas,
    };
    let pushed = push_mesh(tris, mesh);
    if pushed.is_err() {
        tris.truncate(before);
    }
    pushed
}

/// The arrays of a mesh, and what they are read by.
#[derive(Clone, Copy)]
struct MeshSource<'a> {
    grid: &'a MeshGrid,
    slope: Slope,
    vertices: &'a [f32],
    corners: &'a [u32],
    areas: &'a [u8],
}

/// The same, but some triangles may stand behind the old ones where one fails.
fn push_mesh(tris: &mut Vec<Tri>, mesh: MeshSource) -> Result<(), MeshRefusal>
    requires whole { length mesh.corners.now % 3 ≡ 0 }
    ensures { HasAdded mesh.entry.grid.now mesh.entry.slope (lists_of mesh.entry.vertices.now mesh.entry.corners.now mesh.entry.areas.now)
        tris.old.items tris.new.items result }
{
    let alloc = *tris.allocator();
    let points = vertex_points(alloc, mesh.grid, mesh.vertices, mesh.corners.len())?;
    push_triangles(tris, mesh, points.as_slice())
}

/// The same, with points of vertices.
fn push_triangles(
    tris: &mut Vec<Tri>,
    mesh: MeshSource,
    points: &[Option<GridPoint>],
) -> Result<(), MeshRefusal>
    requires whole { length mesh.corners.now % 3 ≡ 0 }
    requires points { AreVertexPoints mesh.grid.now mesh.vertices.now points.now }
    ensures { HasAdded mesh.entry.grid.now mesh.entry.slope (lists_of mesh.entry.vertices.now mesh.entry.corners.now mesh.entry.areas.now)
        tris.old.items tris.new.items result }
{
    for place in 0..mesh.corners.len() / 3 {
        match tri_at(mesh, points, place) {
            Ok(tri) => {
                if tris.push(tri).is_err() {
                    return Err(MeshRefusal::OutOfMemory);
                }
            }
            Err(fault) => return Err(MeshRefusal::Faulty(FaultyTriangle { fault, place })),
        }
    }
    Ok(())
}

/// What the triangle at a place becomes.
fn tri_at(mesh: MeshSource, points: &[Option<GridPoint>], place: usize) -> Result<Tri, MeshFault>
    requires there { 3 * place + 2 < length mesh.corners.now }
    requires points { AreVertexPoints mesh.grid.now mesh.vertices.now points.now }
    ensures { IsMadeAt mesh.entry.grid.now mesh.entry.slope (lists_of mesh.entry.vertices.now mesh.entry.corners.now mesh.entry.areas.now) place result }
{
    let area = area(mesh.areas, place);
    if let Some(on) = listed_triangle(points, mesh.corners, place) {
        return tri_on(mesh.slope, &on, area);
    }
    match facet(mesh.vertices, mesh.corners, place) {
        Some(facet) => tri(mesh.grid, mesh.slope, &facet, area),
        None => Err(MeshFault::NoVertex),
    }
}
