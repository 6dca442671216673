//! The arrays of a mesh: corners of triangles in the game's numbers.
ghost use Rattle.std.specs.Prelude.{◌≡◌, ◌+◌, ◌*◌, ◌<◌, ◌^◌, length};
ghost use Rattle.mesh_input.specs.Meshes.{vertex_of, facet_of, is_finite_point, is_finite, area_of};

use world_grid::WorldPoint;

/// A triangle in the game's numbers.
#[derive(Clone, Copy)]
pub struct WorldTriangle {
    pub a: WorldPoint,
    pub b: WorldPoint,
    pub c: WorldPoint,
}

/// The point of a vertex, where there is one.
pub(crate) fn vertex(vertices: &[f32], index: usize) -> Option<WorldPoint>
    requires few { 3 * index + 2 < 2 ^ 64 }
    ensures { result ≡ vertex_of vertices.now index }
{
    let at = 3 * index;
    if at + 2 >= vertices.len() {
        return None;
    }
    Some(WorldPoint {
        x: vertices[at],
        y: vertices[at + 1],
        z: vertices[at + 2],
    })
}

/// A triangle of a mesh, where it has all its vertices.
pub(crate) fn facet(vertices: &[f32], corners: &[u32], place: usize) -> Option<WorldTriangle>
    requires there { 3 * place + 2 < length corners.now }
    ensures { result ≡ facet_of vertices.now corners.now place }
{
    let at = 3 * place;
    let a = vertex(vertices, corners[at] as usize)?;
    let b = vertex(vertices, corners[at + 1] as usize)?;
    let c = vertex(vertices, corners[at + 2] as usize)?;
    Some(WorldTriangle { a, b, c })
}

/// Whether all numbers of a point are finite.
fn is_finite_point(at: WorldPoint) -> bool
    ensures { result ≡ is_finite_point at }
{
    at.x.is_finite() && at.y.is_finite() && at.z.is_finite()
}

/// Whether all numbers of a triangle are finite.
pub(crate) fn is_finite(facet: &WorldTriangle) -> bool
    ensures { result ≡ is_finite facet.now }
{
    is_finite_point(facet.a) && is_finite_point(facet.b) && is_finite_point(facet.c)
}

/// The area that a mesh gives a triangle: 63 where it gives none.
pub(crate) fn area(areas: &[u8], place: usize) -> u32
    ensures { result ≡ area_of areas.now place }
{
    if place < areas.len() {
        u32::from(areas[place])
    } else {
        MOST_AREA
    }
}

/// The greatest area.
pub(crate) const MOST_AREA: u32 = 63;
