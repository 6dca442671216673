//! Cheapest allowed walks to the nearest of some polygons, within limits.

ghost use Rattle.std.specs.Prelude.{◌≡◌, ◌<◌, true, List, map, All, Contains, IfOk};
ghost use Rattle.std.specs.Bool.{MatchBool};
ghost use Rattle.nav_ground.specs.Limits.{IsSetting};
ghost use Rattle.graph_search.specs.declared.graph.Step.{Step};
ghost use Rattle.mesh_types.specs.declared.links.PolyRef.{PolyRef};
ghost use Rattle.mesh_types.specs.Soundness.{IsSound};
ghost use Rattle.corridor_search.specs.MeshGraphs.{IsOver, IsThere, link_of};
ghost use Rattle.path_queries.specs.Filters.{IsFilter};
ghost use Rattle.path_queries.specs.FilteredGraphs.{leads_on};
ghost use Rattle.path_queries.specs.Reaches.{IsReach};

use crate::filters::Filter;
use crate::searches::{Sought, search_through};
use corridor_search::{link_at, polygon_at};
use graph_search::{Room, Step, reached_walk};
use mesh_types::{Corridor, Link, Mesh, PolyRef};
use nav_lists::Items;
use std::alloc::{AllocError, Global};

/// What a search within limits says of some goals.
#[derive(Drop)]
pub enum Reach {
    /// The nearest of them, and a cheapest allowed walk to it.
    Found { at: PolyRef, corridor: Corridor },
    /// A limit ended the search: each allowed walk to a goal costs at least `seen`.
    Limit { seen: u64 },
    /// No allowed walk leads to a goal.
    Apart,
}

/// The nearest of some goals from which walks may lead on, within limits, by a search in room that an earlier one may have left.
pub(crate) fn cheapest_to(
    alloc: Global,
    room: &mut Room,
    mesh: &Mesh,
    filter: &Filter,
    sought: Sought<'_>,
) -> Result<Reach, AllocError>
    requires sound { IsSound mesh.now }
    requires setting { IsSetting mesh.now.setting }
    requires filter { IsFilter filter.now }
    requires from { IsThere mesh.now sought.from }
    requires goals { All (IsThere mesh.now) sought.goals.now }
    requires lead_on { (goal : PolyRef) → Contains sought.goals.now goal → leads_on mesh.now filter.now.areas sought.from goal ≡ true }
    ensures { IfOk result (IsReach mesh.now filter.now sought.entry.from sought.entry.goals.now sought.entry.limits) }
{
    let found = search_through(alloc, room, mesh, filter, sought)?;
    let reached = found.reached.as_slice();
    let last = reached.len() - 1;
    let at = polygon_at(reached[last].vertex);
    if is_goal(sought.goals, at) {
        let walk = reached_walk(alloc, reached, last)?;
        let links = links_along(alloc, mesh, walk.steps.as_slice())?;
        let cost = walk.cost;
        let corridor = Corridor { cost, links };
        return Ok(Reach::Found { at, corridor });
    }
    if is_all(found.seen) {
        return Ok(Reach::Apart);
    }
    Ok(Reach::Limit { seen: found.seen })
}

/// Whether a search has seen all that it could reach.
fn is_all(seen: u64) -> bool
    ensures { MatchBool result (seen ≡ 18446744073709551615) (seen < 18446744073709551615) }
{
    seen == u64::MAX
}

/// Whether a polygon is one of the goals.
pub(crate) fn is_goal(goals: &[PolyRef], at: PolyRef) -> bool
    ensures { MatchBool result (Contains goals.now at) (Contains goals.now at → ⊥) }
{
    goals.contains(&at)
}

/// The links that steps take, in order.
pub(crate) fn links_along(
    alloc: Global,
    mesh: &Mesh,
    steps: &[Step],
) -> Result<Items<Link>, AllocError>
    requires { All (λ (step : Step). IsOver mesh.now step) steps.now }
    ensures { IfOk result (λ links. links ≡ map (link_of mesh.now) steps.now) }
{
    let mut links = Vec::with_capacity(alloc, steps.len())?;
    for step in steps {
        links.push(link_at(mesh, *step))?;
    }
    Ok(Items::from_vec(links))
}
