//! The mesh with off-mesh links as a graph.

ghost use Rattle.std.specs.Prelude.{◌≡◌, ◌++◌, ◌<◌, OnOk, map, length};
ghost use Rattle.mesh_types.specs.declared.answers.HopStep.{HopStep};
ghost use Rattle.off_links.specs.HopGraphs.{IsHopped, hop_step, off_mesh_link_end, steps_from};

use crate::off_mesh_links::{OffMeshLink, leaving_by_slot, off_mesh_link_at};
use corridor_search::{link_at, link_weight, past_links, polygon_at, push_link_ends, vertex_at};
use graph_search::{Graph, Step, Vertex};
use mesh_types::{HopStep, Jump, Mesh};
use std::alloc::AllocError;

/// A mesh that is searched with off-mesh links.
#[derive(Clone, Copy)]
pub(crate) struct HopGraph<'a> {
    pub(crate) mesh: &'a Mesh,
    /// The jumps that the off-mesh links are of: a step of a hop walk names its jump by its number there.
    pub(crate) jumps: &'a [Jump],
    pub(crate) off_mesh_links: &'a [OffMeshLink],
    /// Slots in which those of the polygons that off-mesh links leave are taken.
    pub(crate) slots: &'a [bool],
}

impl Graph for HopGraph<'_> {
    ghost use Rattle.corridor_search.specs.MeshGraphs.{vertices_of};
    ghost use Rattle.off_links.specs.HopGraphs.{IsSlotted, hop_arcs, no_estimate};

    ghost is_sound = { λ g. IsSlotted g.mesh.now g.jumps.now g.off_mesh_links.now g.slots.now };

    ghost vertices = { λ g. vertices_of g.mesh.now };

    ghost arcs = { λ g. hop_arcs g.mesh.now g.jumps.now g.off_mesh_links.now };

    ghost estimates = { λ _. no_estimate };

    /// What the costliest jump costs.
    ghost heaviest = { λ _. 4294967295 };

    fn push_ends(&self, from: Vertex, ends: &mut Vec<Vertex>) -> Result<(), AllocError> {
        let at = polygon_at(from);
        push_link_ends(self.mesh, at, ends)?;
        push_off_mesh_link_ends(leaving_by_slot(self.off_mesh_links, self.slots, at), ends)
    }

    fn weight(&self, step: Step, to: Vertex) -> u64 {
        match past_links(self.mesh, step) {
            None => link_weight(self.mesh, step, to),
            Some(past) => {
                let off_mesh_link = off_mesh_link_at(
                    self.off_mesh_links,
                    polygon_at(step.from),
                    past,
                );
                u64::from(off_mesh_link.cost)
            }
        }
    }

    fn estimate(&self, from: Vertex) -> u64 {
        let _ = from;
        0
    }
}

/// Appends the vertices of the polygons that off-mesh links enter.
fn push_off_mesh_link_ends(
    off_mesh_links: &[OffMeshLink],
    ends: &mut Vec<Vertex>,
) -> Result<(), AllocError>
    ensures { OnOk result (ends.new.items ≡ ends.old.items ++ map off_mesh_link_end off_mesh_links.now) }
{
    for off_mesh_link in off_mesh_links {
        ends.push(vertex_at(off_mesh_link.to))?;
    }
    Ok(())
}

/// The step of a hop walk that a step in the graph takes.
pub(crate) fn step_at(graph: HopGraph<'_>, step: Step) -> HopStep
    requires sound { IsHopped graph.mesh.now graph.jumps.now graph.off_mesh_links.now }
    requires there { step.place < length (steps_from graph.mesh.now graph.off_mesh_links.now step.from) }
    ensures { result ≡ hop_step graph.entry.mesh.now graph.entry.off_mesh_links.now step }
{
    match past_links(graph.mesh, step) {
        None => HopStep::Link(link_at(graph.mesh, step)),
        Some(past) => {
            let off_mesh_link = off_mesh_link_at(graph.off_mesh_links, polygon_at(step.from), past);
            HopStep::Jump {
                number: off_mesh_link.number,
                to: off_mesh_link.to,
            }
        }
    }
}
