//! The nearest of many goals, by one search.

ghost use Rattle.std.specs.Prelude.{◌≡◌, All, Contains, IfOk};
ghost use Rattle.std.specs.Bool.{MatchBool};
ghost use Rattle.nav_ground.specs.Limits.{IsSetting};
ghost use Rattle.mesh_types.specs.Soundness.{IsSound};
ghost use Rattle.corridor_search.specs.MeshGraphs.{IsThere};
ghost use Rattle.path_queries.specs.Filters.{IsFilter};
ghost use Rattle.path_queries.specs.HeldGoals.{AreHeldGoals, polygons_held, polygons_open};
ghost use Rattle.path_queries.specs.NearestGoals.{AreAlikeNearest, CanAskNearest, HasGoalCoordinates, HasLowNearestCost, IsNearestGoal, IsRightNearest};
ghost use Rattle.path_queries.specs.Reaches.{IsReach};

use crate::asking::AskedIn;
use crate::filtered_graph::leads_on;
use crate::filters::Filter;
use crate::plans::turns;
use crate::reach::{Reach, cheapest_to};
use crate::searches::Sought;
use graph_search::{Limits, Room};
use mesh_locate::locate;
use mesh_types::{Asked, Mesh, PathFound, PolyRef};
use nav_base::Point;
use nav_lists::Items;
use std::alloc::{AllocError, Global};

/// A place to which a way may lead: a point in sixteenths of a cell, and a height in height units.
#[derive(Clone, Copy, PartialEq, Eq)]
pub struct Goal {
    pub point: Point,
    pub y: u32,
}

/// The question which of some goals the cheapest way from a place leads to, through a filter. The point is in sixteenths of a cell, the height
/// in height units.
#[derive(PartialEq, Eq, Drop)]
pub struct NearestQuery {
    pub from: Point,
    pub from_y: u32,
    pub goals: Items<Goal>,
    pub filter: Filter,
    /// The search ends where what is left costs more; `u64::MAX` for no limit.
    pub most_cost: u64,
}

/// What the question for the nearest goal is answered.
#[derive(PartialEq, Eq, Drop)]
pub enum NearestAnswer {
    /// A goal that no other undercuts, by its place in the question from 0; the polygon that locates it, and a cheapest way there.
    Found {
        which: usize,
        last: PolyRef,
        way: PathFound,
    },
    /// The limit ended the search: each allowed walk to a goal costs at least `seen`.
    Limit {
        seen: u64,
    },
    /// No polygon holds the place in which the way is to begin.
    NoStart,
    /// No polygon holds any of the goals.
    NoGoal,
    /// Some goal is held, and no allowed walk leads to any.
    NoPath,
}

/// A right answer to the question for the nearest goal. Only memory can be refused.
pub fn nearest_goal(
    alloc: Global,
    mesh: &Mesh,
    query: &NearestQuery,
) -> Result<NearestAnswer, AllocError>
    requires sound { IsSound mesh.now }
    requires setting { IsSetting mesh.now.setting }
    requires query { CanAskNearest query.now }
    ensures right { IfOk result (λ answer. IsNearestGoal query.now mesh.now answer) }
    ensures low_cost { IfOk result HasLowNearestCost }

    // Without a limit right answers are of one kind, with the same first polygon and the same cost.
    ensures only { IfOk result (λ answer. query.now.most_cost ≡ 18446744073709551615 → (other : NearestAnswer)
        → IsNearestGoal query.now mesh.now other → AreAlikeNearest answer other) }
{
    let mut room = Room::new(alloc);
    nearest_goal_in(alloc, &mut room, mesh, query)
}

/// The same, in room that an earlier search may have left.
pub fn nearest_goal_in(
    alloc: Global,
    room: &mut Room,
    mesh: &Mesh,
    query: &NearestQuery,
) -> Result<NearestAnswer, AllocError>
    requires sound { IsSound mesh.now }
    requires setting { IsSetting mesh.now.setting }
    requires query { CanAskNearest query.now }
    ensures right { IfOk result (λ answer. IsNearestGoal query.now mesh.now answer) }
    ensures low_cost { IfOk result HasLowNearestCost }
    ensures only { IfOk result (λ answer. query.now.most_cost ≡ 18446744073709551615 → (other : NearestAnswer)
        → IsNearestGoal query.now mesh.now other → AreAlikeNearest answer other) }
{
    right_nearest(alloc, room, mesh, query)
}

impl Asked for NearestQuery {
    type Answer = NearestAnswer;

    ghost can_ask = { λ query. CanAskNearest query };

    ghost is_right = { λ query mesh answer. IsRightNearest query mesh answer };

    fn ask(&self, alloc: Global, mesh: &Mesh) -> Result<NearestAnswer, AllocError> {
        nearest_goal(alloc, mesh, self)
    }
}

impl AskedIn for NearestQuery {
    fn ask_in(
        &self,
        alloc: Global,
        room: &mut Room,
        mesh: &Mesh,
    ) -> Result<NearestAnswer, AllocError> {
        nearest_goal_in(alloc, room, mesh, self)
    }
}

/// The same, with no more said of it than that it is right and costs little.
fn right_nearest(
    alloc: Global,
    room: &mut Room,
    mesh: &Mesh,
    query: &NearestQuery,
) -> Result<NearestAnswer, AllocError>
    requires sound { IsSound mesh.now }
    requires setting { IsSetting mesh.now.setting }
    requires query { CanAskNearest query.now }
    ensures right { IfOk result (λ answer. IsNearestGoal query.now mesh.now answer) }
    ensures low_cost { IfOk result HasLowNearestCost }
{
    let Some(first) = locate(mesh, query.from, query.from_y) else {
        return Ok(NearestAnswer::NoStart);
    };
    let held = held_goals(alloc, mesh, query.goals.as_slice())?;
    if held.is_empty() {
        return Ok(NearestAnswer::NoGoal);
    }
    match cheapest_to_held(alloc, room, mesh, query, first, held.as_slice())? {
        Reach::Found { at, corridor } => {
            let which = place_of(held.as_slice(), at);
            let goal = query.goals.as_slice()[which];
            let turns = turns(alloc, query.from, corridor.links.as_slice(), goal.point)?;
            let way = PathFound {
                first,
                cost: corridor.cost,
                links: corridor.links,
                turns,
            };
            Ok(NearestAnswer::Found {
                which,
                last: at,
                way,
            })
        }
        Reach::Limit { seen } => Ok(NearestAnswer::Limit { seen }),
        Reach::Apart => Ok(NearestAnswer::NoPath),
    }
}

/// A goal that a polygon holds: its place in the question, and the polygon that locates it.
#[derive(Clone, Copy)]
pub(crate) struct HeldGoal {
    pub(crate) which: usize,
    pub(crate) at: PolyRef,
}

/// The goals that polygons hold, in order.
fn held_goals(alloc: Global, mesh: &Mesh, goals: &[Goal]) -> Result<Vec<HeldGoal>, AllocError>
    requires sound { IsSound mesh.now }
    requires setting { IsSetting mesh.now.setting }
    requires goals { All HasGoalCoordinates goals.now }
    ensures { IfOk result (λ held. AreHeldGoals mesh.now goals.now held.items) }
{
    let mut held = Vec::new(alloc);
    for (which, goal) in goals.iter().enumerate() {
        match locate(mesh, goal.point, goal.y) {
            Some(at) => held.push(HeldGoal { which, at })?,
            None => {}
        }
    }
    Ok(held)
}

/// The nearest of the goals of a question that polygons hold, within its limit.
fn cheapest_to_held(
    alloc: Global,
    room: &mut Room,
    mesh: &Mesh,
    query: &NearestQuery,
    first: PolyRef,
    held: &[HeldGoal],
) -> Result<Reach, AllocError>
    requires sound { IsSound mesh.now }
    requires setting { IsSetting mesh.now.setting }
    requires filter { IsFilter query.now.filter }
    requires first { IsThere mesh.now first }
    requires held { All (IsThere mesh.now) (polygons_held held.now) }
    ensures { IfOk result (IsReach mesh.now query.now.filter first (polygons_held held.now)
        (record { key = query.now.most_cost; count = 18446744073709551615 })) }
{
    let ends = open_polygons(alloc, mesh, query.filter.areas, first, held)?;
    if ends.is_empty() {
        return Ok(Reach::Apart);
    }
    let sought = Sought {
        from: first,
        goals: ends.as_slice(),
        limits: Limits {
            key: query.most_cost,
            count: usize::MAX,
        },
    };
    cheapest_to(alloc, room, mesh, &query.filter, sought)
}

/// The polygons of goals at which walks may end. The others are looked for in vain.
fn open_polygons(
    alloc: Global,
    mesh: &Mesh,
    areas: u64,
    first: PolyRef,
    held: &[HeldGoal],
) -> Result<Vec<PolyRef>, AllocError>
    requires sound { IsSound mesh.now }
    requires held { All (IsThere mesh.now) (polygons_held held.now) }
    ensures { IfOk result (λ ends. ends.items ≡ polygons_open mesh.now areas first held.now) }
{
    let mut ends = Vec::new(alloc);
    for goal in held {
        if leads_on(mesh, areas, first, goal.at) {
            ends.push(goal.at)?;
        }
    }
    Ok(ends)
}

/// The place of the first goal that a polygon locates.
fn place_of(held: &[HeldGoal], at: PolyRef) -> usize
    requires { Contains (polygons_held held.now) at }
    ensures { Contains held.now (record { which = result; at = at }) }
{
    for goal in held {
        if is_same(goal.at, at) {
            return goal.which;
        }
    }
    0
}

/// Whether two polygons are the same.
fn is_same(a: PolyRef, b: PolyRef) -> bool
    ensures { MatchBool result (a ≡ b) (a ≡ b → ⊥) }
{
    a == b
}
