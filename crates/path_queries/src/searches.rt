//! Searches through a filter.

ghost use Rattle.std.specs.Prelude.{◌≡◌, ◌*◌, ◌⊎◌, [], ◌∷◌, map, All, Contains, IfOk};
ghost use Rattle.nav_base.specs.Point.{IsInField};
ghost use Rattle.nav_ground.specs.Limits.{IsSetting};
ghost use Rattle.mesh_types.specs.declared.links.PolyRef.{PolyRef};
ghost use Rattle.mesh_types.specs.Soundness.{IsSound};
ghost use Rattle.corridor_search.specs.MeshGraphs.{IsThere, vertex_of};
ghost use Rattle.corridor_search.specs.Estimates.{estimate_from};
ghost use Rattle.path_queries.specs.Filters.{IsFilter};
ghost use Rattle.path_queries.specs.FilteredGraphs.{IsLeastCost};
ghost use Rattle.path_queries.specs.Searches.{IsHeadingFor, IsSearchedThrough};

use crate::filtered_graph::FilteredGraph;
use crate::filters::{Filter, least_cost, search_costs};
use corridor_search::{extent_at, middle, vertex_at};
use graph_search::{Explored, Limits, Room, Vertex, explore_in};
use mesh_types::{Mesh, PolyRef};
use nav_base::Point;
use nav_ground::AREAS;
use std::alloc::{AllocError, Global};

/// What a search is to do: it begins in a polygon, and ends at the first of some goals, or at a limit.
#[derive(Clone, Copy)]
pub(crate) struct Sought<'a> {
    pub(crate) from: PolyRef,
    pub(crate) goals: &'a [PolyRef],
    pub(crate) limits: Limits,
}

/// Searches through a filter, in room that an earlier search may have left.
pub(crate) fn search_through(
    alloc: Global,
    room: &mut Room,
    mesh: &Mesh,
    filter: &Filter,
    sought: Sought<'_>,
) -> Result<Explored, AllocError>
    requires sound { IsSound mesh.now }
    requires setting { IsSetting mesh.now.setting }
    requires filter { IsFilter filter.now }
    requires from { IsThere mesh.now sought.from }
    requires goals { All (IsThere mesh.now) sought.goals.now }
    ensures { IfOk result (λ found. IsSearchedThrough mesh.now filter.now sought.entry.from sought.entry.goals.now sought.entry.limits
        found.reached.items found.seen) }
{
    let from = sought.from;
    let costs = filter.costs.unwrap_or(mesh.setting.costs);
    let heading = heading_for(mesh, filter.areas, &costs, sought.goals);
    let graph = FilteredGraph {
        mesh,
        areas: filter.areas,
        costs: &search_costs(filter.areas, &costs),
        start: from,
        aim: heading.aim,
        least: heading.least,
    };
    let stops = vertices(alloc, sought.goals)?;
    let stops = stops.as_slice();
    explore_in(alloc, room, &graph, vertex_at(from), stops, sought.limits)
}

/// The vertices of polygons, in order.
fn vertices(alloc: Global, polygons: &[PolyRef]) -> Result<Vec<Vertex>, AllocError>
    ensures { IfOk result (λ vertices. vertices.items ≡ map vertex_of polygons.now) }
{
    let vertices = polygons.iter().map(|at| Vertex {
        block: at.tile,
        place: at.index,
    });
    vertices.collect(alloc)
}

/// What the estimate of a search goes by: a place, and what a sixteenth of a cell on the way there costs at least; 0 for no estimate.
#[derive(Clone, Copy)]
struct Heading {
    aim: Point,
    least: u32,
}

/// The heading for goals: where there is one alone, its middle.
fn heading_for(mesh: &Mesh, areas: u64, costs: &[u32; AREAS], goals: &[PolyRef]) -> Heading
    requires sound { IsSound mesh.now }
    requires goals { All (IsThere mesh.now) goals.now }
    ensures in_field { IsInField result.aim }
    ensures least { (result.least ≡ 0) ⊎ IsLeastCost areas costs.now result.least }
    ensures no_rest { (goal : PolyRef) → Contains goals.now goal → estimate_from mesh.now result.aim goal * result.least ≡ 0 }
    ensures no_goal { goals.now ≡ [] → result.least ≡ 0 }
    ensures one_goal { (goal : PolyRef) → goals.now ≡ goal ∷ [] → IsHeadingFor mesh.now areas costs.now goal result.aim result.least }
{
    if goals.len() != 1 {
        return Heading {
            aim: Point { x: 0, z: 0 },
            least: 0,
        };
    }
    let aim = middle(extent_at(mesh, goals[0]));
    let least = least_cost(areas, costs);
    Heading { aim, least }
}
