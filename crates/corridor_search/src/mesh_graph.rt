//! The mesh as a graph.

ghost use Rattle.std.specs.Prelude.{◌≡◌, ◌++◌, ◌+◌, ◌<◌, OnOk, IfSome, IfNone, map, length, Contains};
ghost use Rattle.nav_ground.specs.Limits.{IsSetting};
ghost use Rattle.mesh_types.specs.LinkIndex.{entered_by};
ghost use Rattle.mesh_types.specs.Soundness.{IsSound};
ghost use Rattle.graph_search.specs.Walks.{arc_of};
ghost use Rattle.corridor_search.specs.MeshGraphs.{vertex_of, vertices_of, polygon_of, inner_links, outer_links, links_from, link_of, end_of, arcs_from};

use crate::landmarks::{LANDMARKS, Landmarks, bound};
use crate::weights::{cost_or, distance, extent_at, middle, weight};
use graph_search::{Graph, Step, Vertex};
use mesh_types::{Link, Mesh, PolyRef};
use nav_base::Point;
use std::alloc::AllocError;

/// The vertex of a polygon: a block for each tile.
pub fn vertex_at(at: PolyRef) -> Vertex
    ensures { result ≡ vertex_of at }
{
    Vertex {
        block: at.tile,
        place: at.index,
    }
}

/// The polygon of a vertex.
pub fn polygon_at(vertex: Vertex) -> PolyRef
    ensures { result ≡ polygon_of vertex }
{
    PolyRef {
        tile: vertex.block,
        index: vertex.place,
    }
}

/// The links that leave a polygon inside its tile.
fn inner(mesh: &Mesh, at: PolyRef) -> &[Link]
    ensures { result.now ≡ inner_links mesh.now at }
{
    match mesh.tiles.get(at.tile as usize) {
        Some(tile) => tile.get().links.leaving(at.index),
        None => &[],
    }
}

/// The links that leave a polygon over its tile's border.
fn outer(mesh: &Mesh, at: PolyRef) -> &[Link]
    ensures { result.now ≡ outer_links mesh.now at }
{
    match mesh.cross.get(at.tile as usize) {
        Some(links) => links.get().leaving(at.index),
        None => &[],
    }
}

/// The polygons that those links enter.
pub(crate) fn entered_inside(mesh: &Mesh, at: PolyRef) -> &[PolyRef]
    ensures { result.now ≡ map entered_by (inner_links mesh.now at) }
{
    match mesh.tiles.get(at.tile as usize) {
        Some(tile) => tile.get().links.entered_from(at.index),
        None => &[],
    }
}

/// The polygons that the links over the border enter.
pub(crate) fn entered_outside(mesh: &Mesh, at: PolyRef) -> &[PolyRef]
    ensures { result.now ≡ map entered_by (outer_links mesh.now at) }
{
    match mesh.cross.get(at.tile as usize) {
        Some(links) => links.get().entered_from(at.index),
        None => &[],
    }
}

/// The link that a step takes.
pub fn link_at(mesh: &Mesh, step: Step) -> Link
    requires { step.place < length (links_from mesh.now (polygon_of step.from)) }
    ensures { result ≡ link_of mesh.now step }
{
    let at = polygon_at(step.from);
    let inside = inner(mesh, at);
    if step.place < inside.len() {
        inside[step.place]
    } else {
        outer(mesh, at)[step.place - inside.len()]
    }
}

/// How far the place of a step is past all links that leave its polygon; none where it is that of a link.
pub fn past_links(mesh: &Mesh, step: Step) -> Option<usize>
    ensures link { IfNone result (step.place < length (links_from mesh.now (polygon_of step.from))) }
    ensures past { IfSome result (λ past. step.place ≡ length (links_from mesh.now (polygon_of step.from)) + past) }
{
    let at = polygon_at(step.from);
    let inside = entered_inside(mesh, at).len();
    let outside = entered_outside(mesh, at).len();
    if step.place < inside {
        return None;
    }
    let past = step.place - inside;
    if past < outside {
        return None;
    }
    Some(past - outside)
}

/// Appends the vertices of the polygons that the links which leave a polygon enter, in order of the links.
pub fn push_link_ends(mesh: &Mesh, at: PolyRef, ends: &mut Vec<Vertex>) -> Result<(), AllocError>
    ensures { OnOk result (ends.new.items ≡ ends.old.items ++ map end_of (links_from mesh.now at)) }
{
    push_vertices(entered_inside(mesh, at), ends)?;
    push_vertices(entered_outside(mesh, at), ends)
}

/// What the link of a step weighs, which enters a given vertex: the distance of the middles of the two polygons, in sixteenths of a cell,
/// rounded up and at least 1, times the cost of the area that is entered. The extents of the two polygons are all that is read.
pub fn link_weight(mesh: &Mesh, step: Step, to: Vertex) -> u64
    requires sound { IsSound mesh.now }
    requires setting { IsSetting mesh.now.setting }
    requires there { Contains (vertices_of mesh.now) step.from }
    requires place { step.place < length (arcs_from mesh.now step.from) }
    requires end { (arc_of (arcs_from mesh.now) step).to ≡ to }
    ensures { result ≡ (arc_of (arcs_from mesh.now) step).weight }
{
    let left = extent_at(mesh, polygon_at(step.from));
    let entered = extent_at(mesh, polygon_at(to));
    weight(&mesh.setting, middle(left), entered)
}

/// A mesh that is searched for walks to a goal.
#[derive(Clone, Copy)]
pub(crate) struct MeshGraph<'a> {
    pub(crate) mesh: &'a Mesh,
    /// The middle of the goal's polygon, in sixteenths of a cell.
    pub(crate) goal: Point,
    /// A cost than which no area costs less.
    pub(crate) least: u32,
    /// Landmarks of the mesh, where there are some.
    pub(crate) landmarks: Option<&'a Landmarks>,
    /// The heights of the goal's polygon over them.
    pub(crate) heights: [u32; LANDMARKS],
}

impl Graph for MeshGraph<'_> {
    ghost use Rattle.corridor_search.specs.MeshGraphs.{vertices_of, arcs_from};
    ghost use Rattle.std.specs.Option.{option_copied};
    ghost use Rattle.corridor_search.specs.Landmarks.{IsSearchedBy, estimates_by};

    ghost is_sound = { λ g. IsSearchedBy g.mesh.now g.goal g.least (option_copied g.landmarks) };

    ghost vertices = { λ g. vertices_of g.mesh.now };

    ghost arcs = { λ g. arcs_from g.mesh.now };

    ghost estimates = { λ g. estimates_by g.mesh.now g.goal g.least (option_copied g.landmarks) g.heights };

    /// The middles of two linked polygons are at most the side of a tile apart along each axis: 128 cells, 2048 sixteenths. Rounded up, that
    /// is 2897 across, at a cost of at most 1000.
    ghost heaviest = { λ _. 2897000 };

    fn push_ends(&self, from: Vertex, ends: &mut Vec<Vertex>) -> Result<(), AllocError> {
        push_link_ends(self.mesh, polygon_at(from), ends)
    }

    fn weight(&self, step: Step, to: Vertex) -> u64 {
        link_weight(self.mesh, step, to)
    }

    fn estimate(&self, from: Vertex) -> u64 {
        let at = polygon_at(from);
        let extent = extent_at(self.mesh, at);
        let middle = middle(extent);
        match self.landmarks {
            Some(marks) => {
                let bound = bound(marks.heights(at), self.heights);
                cost_or(middle, self.goal, self.least, bound)
            }
            None => u64::from(distance(middle, self.goal)) * u64::from(self.least),
        }
    }
}

/// Appends the vertices of polygons.
fn push_vertices(polygons: &[PolyRef], ends: &mut Vec<Vertex>) -> Result<(), AllocError>
    ensures { OnOk result (ends.new.items ≡ ends.old.items ++ map vertex_of polygons.now) }
{
    for at in polygons {
        ends.push(vertex_at(*at))?;
    }
    Ok(())
}
