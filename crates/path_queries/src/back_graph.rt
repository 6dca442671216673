//! The mesh as a graph that is searched back from a goal.

ghost use Rattle.std.specs.Prelude.{◌≡◌, IfOk};
ghost use Rattle.nav_ground.specs.Limits.{IsSetting};
ghost use Rattle.mesh_types.specs.Passages.{IsTwoWay};
ghost use Rattle.mesh_types.specs.Soundness.{IsSound};
ghost use Rattle.corridor_search.specs.MeshGraphs.{IsThere};
ghost use Rattle.corridor_search.specs.Estimates.{extent_at};
ghost use Rattle.path_queries.specs.BackGraphs.{IsExploredBack};
ghost use Rattle.path_queries.specs.Filters.{IsFilter, costs_in};

use crate::filtered_graph::{StepExtents, extent_there, step_cost, step_extents};
use crate::filters::{Filter, are_all_open, is_open};
use corridor_search::{middle, polygon_at, push_link_ends, vertex_at};
use graph_search::{Explored, Graph, Limits, Room, Step, Vertex, explore_in};
use mesh_types::{Mesh, PolyRef};
use nav_ground::AREAS;
use std::alloc::{AllocError, Global};

/// A mesh that is searched for allowed walks to a polygon. Its arcs are the links, and each weighs what its reverse does: a walk comes by
/// that one, and pays for the area of the polygon that the search leaves. So no arc leaves a polygon of a closed area, while one may be
/// reached, as walks may begin in it.
#[derive(Clone, Copy)]
pub(crate) struct BackGraph<'a> {
    pub(crate) mesh: &'a Mesh,
    /// Bit a: polygons of area a may be entered.
    pub(crate) areas: u64,
    /// What a sixteenth of a cell costs in each area.
    pub(crate) costs: &'a [u32; AREAS],
}

impl Graph for BackGraph<'_> {
    ghost use Rattle.corridor_search.specs.MeshGraphs.{vertices_of};
    ghost use Rattle.path_queries.specs.BackGraphs.{IsSearchedBack, arcs_back, no_estimate};

    ghost is_sound = { λ g. IsSearchedBack g.mesh.now g.costs.now };

    ghost vertices = { λ g. vertices_of g.mesh.now };

    ghost arcs = { λ g. arcs_back g.mesh.now g.areas g.costs.now };

    ghost estimates = { λ _. no_estimate };

    /// The middles of two linked polygons are at most 2897 sixteenths apart, at a cost of at most 1000.
    ghost heaviest = { λ _. 2897000 };

    fn push_ends(&self, from: Vertex, ends: &mut Vec<Vertex>) -> Result<(), AllocError> {
        let at = polygon_at(from);
        if may_be_entered(self.mesh, self.areas, at) {
            push_link_ends(self.mesh, at, ends)
        } else {
            Ok(())
        }
    }

    fn weight(&self, step: Step, to: Vertex) -> u64 {
        let StepExtents { left, entered } = step_extents(
            self.mesh,
            polygon_at(to),
            polygon_at(step.from),
        );
        step_cost(self.costs, middle(left), entered)
    }

    fn estimate(&self, _from: Vertex) -> u64 {
        0
    }
}

/// Whether a walk may enter a polygon: its area is open.
fn may_be_entered(mesh: &Mesh, areas: u64, at: PolyRef) -> bool
    requires sound { IsSound mesh.now }
    requires there { IsThere mesh.now at }
    ensures { result ≡ Rattle.path_queries.specs.Filters.is_open areas (extent_at mesh.now at).area }
{
    if are_all_open(areas) {
        return true;
    }
    is_open(areas, extent_there(mesh, at).area)
}

/// Searches back from a polygon through a filter within limits, in room that an earlier search may have left.
pub(crate) fn search_back(
    alloc: Global,
    room: &mut Room,
    mesh: &Mesh,
    filter: &Filter,
    last: PolyRef,
    limits: Limits,
) -> Result<Explored, AllocError>
    requires sound { IsSound mesh.now }
    requires setting { IsSetting mesh.now.setting }
    requires two_way { IsTwoWay mesh.now }
    requires filter { IsFilter filter.now }
    requires last { IsThere mesh.now last }
    ensures { IfOk result (λ found. IsExploredBack mesh.now filter.now.areas (costs_in mesh.now filter.now) last limits found.reached.items
        found.seen) }
{
    let costs = filter.costs.unwrap_or(mesh.setting.costs);
    let graph = BackGraph {
        mesh,
        areas: filter.areas,
        costs: &costs,
    };
    explore_in(alloc, room, &graph, vertex_at(last), &[], limits)
}
