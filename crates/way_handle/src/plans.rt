//! Ways through a filter.

ghost use Rattle.std.specs.Prelude.{◌≡◌, ◌↔◌, IfNone, IfSome, IsTrue, Option};
ghost use Rattle.mesh_types.specs.declared.mesh.Mesh.{Mesh};
ghost use Rattle.path_queries.specs.PartialWays.{IsPartialAsked};
ghost use Rattle.path_queries.specs.Plans.{IsRightPlan};
ghost use Rattle.nav_handle.specs.Answers.{EndsSo, IsAskedBy, IsRepliedBy};
ghost use Rattle.nav_handle.specs.Statuses as status;
ghost use Rattle.way_handle.specs.Planning.{CanAskPlan, PlanRoom, partial_asked, plan_asked, plan_ends, told_plan, told_way};

use crate::filters::filter_of;
use mesh_types::PathFound;
use nav_handle::{
    HasMesh, LIMIT, NO_GOAL, NO_PATH, NO_START, NavdLink, NavdPoint, NavdPolygon, NavdTurn,
    NavdWay, OK, OUT_OF_RANGE, is_way, lay_links, lay_turns, point_of, point_told, polygon_told,
};
use path_queries::{PathQuery, PlanAnswer, WayEnd};
use std::alloc::Global;

/// The status of a question that is answered by the way to the nearest place.
pub const PARTIAL: u32 = 19;

/// From where to where a way leads, which areas it may enter, bit a for area a, what ends the search for it, and whether a way to the nearest place
/// will do, 0 or 1, with how many sixteenths a unit of height counts then, which the host writes; and what it costs, or what a way there costs at
/// least, the polygons in which it begins and ends, where it ends and the least floor there, and how many links and turns it has, which the call
/// tells.
#[repr(C)]
#[derive(Clone, Copy)]
pub struct NavdPlan {
    pub way: NavdWay,
    pub areas: u64,
    pub most_cost: u64,
    pub most_polygons: usize,
    pub partial: u32,
    pub rise: u32,
    pub cost: u64,
    pub seen: u64,
    pub first: NavdPolygon,
    pub last: NavdPolygon,
    pub end: NavdPoint,
    pub end_y: u32,
    pub links: usize,
    pub turns: usize,
}

/// The question for a way, if it may be asked.
fn query_of(plan: &NavdPlan, costs: &[u32]) -> Option<PathQuery>
    ensures query { IfSome result (λ query. query ≡ plan_asked plan.now costs.now) }
    ensures rules { IfSome result (λ query. CanAskPlan plan.now costs.now) }
    ensures none { IfNone result (CanAskPlan plan.now costs.now → ⊥) }
{
    if plan.partial > 1 || !is_way(&plan.way) {
        return None;
    }
    let filter = filter_of(plan.areas, costs)?;
    let query = PathQuery {
        from: point_of(plan.way.from),
        from_y: plan.way.from_y,
        goal: point_of(plan.way.to),
        goal_y: plan.way.to_y,
        filter,
        most_cost: plan.most_cost,
        most_polygons: plan.most_polygons,
        partial: partial_of(plan),
    };
    if is_partial_in_range(&query) {
        Some(query)
    } else {
        None
    }
}

/// How many sixteenths a unit of height counts, if a way to the nearest place will do.
fn partial_of(plan: &NavdPlan) -> Option<u32>
    ensures { result ≡ partial_asked plan.now }
{
    if plan.partial == 0 {
        None
    } else {
        Some(plan.rise)
    }
}

/// Whether what a partial way is asked by is within its limits.
fn is_partial_in_range(query: &PathQuery) -> bool
    ensures { IsTrue result ↔ IfSome query.now.partial (IsPartialAsked query.now) }
{
    match query.partial {
        Some(rise) => rise <= 1024 && query.goal_y <= 65535,
        None => true,
    }
}

/// How the question for a way ends with an answer.
fn plan_status(answer: &PlanAnswer) -> u32
    ensures { result ≡ plan_ends answer.now }
{
    match answer {
        PlanAnswer::Whole { .. } => OK,
        PlanAnswer::Nearest { .. } => PARTIAL,
        PlanAnswer::Limit { .. } => LIMIT,
        PlanAnswer::NoStart => NO_START,
        PlanAnswer::NoGoal => NO_GOAL,
        PlanAnswer::NoPath => NO_PATH,
    }
}

/// Tells a way with its links and turns, or how far was seen, if the answer says so.
fn tell_plan(
    answer: &PlanAnswer,
    plan: &mut NavdPlan,
    links: &mut [NavdLink],
    turns: &mut [NavdTurn],
)
    ensures { (plan.new, links.new, turns.new) ≡ told_plan answer.now (plan.old, links.old, turns.old) }
{
    match answer {
        PlanAnswer::Whole { way, end } => tell_way(way, *end, plan, links, turns),
        PlanAnswer::Nearest { way, end, seen } => {
            tell_way(way, *end, plan, links, turns);
            plan.seen = *seen;
        }
        PlanAnswer::Limit { seen } => plan.seen = *seen,
        _ => {}
    }
}

/// Tells a way with its end, its links and its turns.
fn tell_way(
    way: &PathFound,
    end: WayEnd,
    plan: &mut NavdPlan,
    links: &mut [NavdLink],
    turns: &mut [NavdTurn],
)
    ensures { (plan.new, links.new, turns.new) ≡ told_way way.now end (plan.old, links.old, turns.old) }
{
    lay_links(way.links.as_slice(), links);
    lay_turns(way.turns.as_slice(), turns);
    plan.cost = way.cost;
    plan.first = polygon_told(way.first);
    plan.last = polygon_told(end.polygon);
    plan.end = point_told(end.point);
    plan.end_y = end.y;
    plan.links = way.links.len();
    plan.turns = way.turns.len();
}

/// How the question for a way ends.
fn end_plan(
    answer: Result<PlanAnswer, u32>,
    plan: &mut NavdPlan,
    links: &mut [NavdLink],
    turns: &mut [NavdTurn],
) -> u32
    ensures { (held : Option Mesh) (query : PathQuery) → IsRepliedBy (IsRightPlan query) held answer
        → IsAskedBy (IsRightPlan query) plan_ends told_plan held (plan.old, links.old, turns.old) (plan.new, links.new, turns.new) result }
{
    match answer {
        Ok(answer) => {
            tell_plan(&answer, plan, links, turns);
            plan_status(&answer)
        }
        Err(status) => status,
    }
}

/// A cheapest way through a filter in the mesh of a handle, and a taut line through its portals.
pub fn plan<H: HasMesh>(
    alloc: Global,
    held: &mut H,
    plan: &mut NavdPlan,
    costs: &[u32],
    links: &mut [NavdLink],
    turns: &mut [NavdTurn],
) -> u32
    ensures asked { CanAskPlan plan.old costs.now → IsAskedBy (IsRightPlan (plan_asked plan.old costs.now)) plan_ends told_plan
        (H.mesh_in held.old) (plan.old, links.old, turns.old) (plan.new, links.new, turns.new) result }
    ensures refused { (CanAskPlan plan.old costs.now → ⊥)
        → EndsSo {Room = PlanRoom} status.out_of_range (plan.old, links.old, turns.old) (plan.new, links.new, turns.new) result }
    ensures same { H.is_same held.old held.new }
{
    let Some(query) = query_of(plan, costs) else {
        return OUT_OF_RANGE;
    };
    let answer = held.ask_in_room(alloc, &query);
    end_plan(answer, plan, links, turns)
}
