//! Partial ways: where no way to the goal is found, the way to the nearest place that was reached.

ghost use Rattle.std.specs.Prelude.{◌≡◌, ◌<◌, [], ◌∷◌, true, IfSome, IfNone, IfOk, Some, length, slice_get};
ghost use Rattle.nav_base.specs.Point.{HasCoordinates};
ghost use Rattle.nav_ground.specs.Limits.{IsSetting};
ghost use Rattle.mesh_types.specs.declared.links.PolyRef.{PolyRef};
ghost use Rattle.mesh_types.specs.declared.answers.PathFound.{PathFound};
ghost use Rattle.mesh_types.specs.Located.{IsLocated};
ghost use Rattle.mesh_types.specs.Soundness.{IsSound};
ghost use Rattle.path_queries.specs.PartialWays.{IsOpenGoal, IsPartialAsked};
ghost use Rattle.path_queries.specs.Plans.{CanPlan, HasLowWayCost, IsPlan};
ghost use Rattle.path_queries.specs.Reached.{AreOpenGoals, IsReachedList, IsWayTo, IsEndOf};

use crate::filtered_graph::leads_on;
use crate::plans::{PathQuery, PlanAnswer, WayEnd, least_floor, turns};
use crate::reach::{is_goal, links_along};
use crate::searches::{Sought, search_through};
use crate::spots::{Toward, nearest_spot};
use corridor_search::polygon_at;
use graph_search::{Limits, ReachedVertex, Room, reached_walk};
use mesh_locate::locate;
use mesh_types::{Mesh, PathFound, PolyRef};
use std::alloc::{AllocError, Global};

/// Where a partial way begins, and how many sixteenths of a cell each unit of height counts.
#[derive(Clone, Copy)]
pub(crate) struct PartialStart {
    pub(crate) first: PolyRef,
    pub(crate) rise: u32,
}

/// A right answer where a partial way is asked for and a polygon locates the start.
pub(crate) fn partial_plan(
    alloc: Global,
    room: &mut Room,
    mesh: &Mesh,
    query: &PathQuery,
    start: PartialStart,
) -> Result<PlanAnswer, AllocError>
    requires sound { IsSound mesh.now }
    requires setting { IsSetting mesh.now.setting }
    requires query { CanPlan query.now }
    requires partial { query.now.partial ≡ Some start.rise }
    requires start { IsLocated mesh.now query.now.from query.now.from_y start.first }
    ensures right { IfOk result (λ answer. IsPlan query.now mesh.now answer) }
    ensures low_cost { IfOk result HasLowWayCost }
{
    match open_goal(mesh, query, start.first) {
        Some(goal) => plan_toward(alloc, room, mesh, query, start, &[goal]),
        None => plan_toward(alloc, room, mesh, query, start, &[]),
    }
}

/// The polygon that locates the goal, if walks may end there.
fn open_goal(mesh: &Mesh, query: &PathQuery, first: PolyRef) -> Option<PolyRef>
    requires sound { IsSound mesh.now }
    requires setting { IsSetting mesh.now.setting }
    requires query { CanPlan query.now }
    ensures some { IfSome result (IsOpenGoal mesh.now query.now first) }
    ensures none { IfNone result ((goal : PolyRef) → IsOpenGoal mesh.now query.now first goal → ⊥) }
{
    let Some(goal) = locate(mesh, query.goal, query.goal_y) else {
        return None;
    };
    if leads_on(mesh, query.filter.areas, first, goal) {
        Some(goal)
    } else {
        None
    }
}

/// The same, by one search up to the goal, if walks may end there.
fn plan_toward(
    alloc: Global,
    room: &mut Room,
    mesh: &Mesh,
    query: &PathQuery,
    start: PartialStart,
    goals: &[PolyRef],
) -> Result<PlanAnswer, AllocError>
    requires sound { IsSound mesh.now }
    requires setting { IsSetting mesh.now.setting }
    requires query { CanPlan query.now }
    requires partial { query.now.partial ≡ Some start.rise }
    requires start { IsLocated mesh.now query.now.from query.now.from_y start.first }
    requires goals { AreOpenGoals mesh.now query.now start.first goals.now }
    ensures right { IfOk result (λ answer. IsPlan query.now mesh.now answer) }
    ensures low_cost { IfOk result HasLowWayCost }
{
    let PartialStart { first, rise } = start;
    let sought = Sought {
        from: first,
        goals,
        limits: Limits {
            key: query.most_cost,
            count: query.most_polygons,
        },
    };
    let found = search_through(alloc, room, mesh, &query.filter, sought)?;
    let reached = found.reached.as_slice();
    let last = reached.len() - 1;
    let at = polygon_at(reached[last].vertex);
    if is_goal(goals, at) {
        let end = WayEnd {
            polygon: at,
            point: query.goal,
            y: least_floor(mesh, at),
        };
        let way = way_to(alloc, mesh, query, reached, last, end)?;
        return Ok(PlanAnswer::Whole { way, end });
    }
    let toward = Toward {
        goal: query.goal,
        y: query.goal_y,
        rise,
    };
    let spot = nearest_spot(mesh, query.filter.areas, first, reached, toward);
    let way = way_to(alloc, mesh, query, reached, spot.place, spot.end)?;
    Ok(PlanAnswer::Nearest {
        way,
        end: spot.end,
        seen: found.seen,
    })
}

/// The way to a point of the polygon at a place of the list.
fn way_to(
    alloc: Global,
    mesh: &Mesh,
    query: &PathQuery,
    reached: &[ReachedVertex],
    place: usize,
    end: WayEnd,
) -> Result<PathFound, AllocError>
    requires sound { IsSound mesh.now }
    requires setting { IsSetting mesh.now.setting }
    requires query { CanPlan query.now }
    requires reached { IsReachedList mesh.now query.now reached.now }
    requires end { IsEndOf mesh.now query.now reached.now place end }
    ensures { IfOk result (λ way. IsWayTo mesh.now query.now reached.now place end way) }
{
    let first = polygon_at(reached[0].vertex);
    let walk = reached_walk(alloc, reached, place)?;
    let links = links_along(alloc, mesh, walk.steps.as_slice())?;
    let turns = turns(alloc, query.from, links.as_slice(), end.point)?;
    Ok(PathFound {
        first,
        cost: walk.cost,
        links,
        turns,
    })
}
