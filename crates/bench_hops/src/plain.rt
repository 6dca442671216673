//! Walks over links by a search without an estimate.

ghost use Rattle.nav_ground.specs.Limits.{IsSetting};
ghost use Rattle.mesh_types.specs.Soundness.{IsSound};
ghost use Rattle.corridor_search.specs.MeshGraphs.{IsThere};

use corridor_search::{link_weight, polygon_at, push_link_ends, vertex_at};
use graph_search::{Graph, Step, Vertex, cheapest_walk};
use mesh_types::{Mesh, PolyRef};
use std::alloc::{AllocError, Global};

/// A mesh that is searched without an estimate.
#[derive(Clone, Copy)]
struct Plain<'a> {
    mesh: &'a Mesh,
}

impl Graph for Plain<'_> {
    ghost use Rattle.corridor_search.specs.MeshGraphs.{vertices_of, arcs_from};
    ghost use Rattle.bench_hops.specs.Plain.{IsPlain, no_estimate};

    ghost is_sound = { λ g. IsPlain g.mesh.now };

    ghost vertices = { λ g. vertices_of g.mesh.now };

    ghost arcs = { λ g. arcs_from g.mesh.now };

    ghost estimates = { λ _. no_estimate };

    ghost heaviest = { λ _. 2897000 };

    fn push_ends(&self, from: Vertex, ends: &mut Vec<Vertex>) -> Result<(), AllocError> {
        push_link_ends(self.mesh, polygon_at(from), ends)
    }

    fn weight(&self, step: Step, to: Vertex) -> u64 {
        link_weight(self.mesh, step, to)
    }

    fn estimate(&self, from: Vertex) -> u64 {
        let _ = from;
        0
    }
}

/// How many links a cheapest walk has.
pub fn steps_of_plain(
    alloc: Global,
    mesh: &Mesh,
    from: PolyRef,
    to: PolyRef,
) -> Result<Option<usize>, AllocError>
    requires sound { IsSound mesh.now }
    requires setting { IsSetting mesh.now.setting }
    requires from { IsThere mesh.now from }
{
    let graph = Plain { mesh };
    match cheapest_walk(alloc, &graph, vertex_at(from), vertex_at(to))? {
        Some(walk) => Ok(Some(walk.steps.len())),
        None => Ok(None),
    }
}
