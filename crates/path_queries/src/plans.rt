//! The question for a way through a filter, and its answers. Cheapest allowed walks.

ghost use Rattle.std.specs.Prelude.{◌≡◌, ◌<◌, ◌∷◌, [], None, Some, IfOk, length};
ghost use Rattle.nav_ground.specs.Limits.{IsSetting};
ghost use Rattle.corridor_search.specs.MeshGraphs.{IsThere};
ghost use Rattle.funnel_path.specs.Coordinates.{HasChainCoordinates};
ghost use Rattle.mesh_types.specs.declared.answers.Answer.{Answer};
ghost use Rattle.mesh_types.specs.declared.polygon.Polygon.{Polygon};
ghost use Rattle.mesh_types.specs.Chains.{IsChain};
ghost use Rattle.mesh_types.specs.Located.{IsLocated};
ghost use Rattle.mesh_types.specs.Right.{IsRightPath, portals_of};
ghost use Rattle.mesh_types.specs.Soundness.{IsSound};
ghost use Rattle.mesh_types.specs.Taut.{IsTaut};
ghost use Rattle.mesh_types.specs.WholeMesh.{poly_at};
ghost use Rattle.path_queries.specs.Filters.{AreAllOpen, IsFilter};
ghost use Rattle.path_queries.specs.Plans.{AreAlikePlans, CanPlan, HasLowWayCost, HasNoLimits, IsPlan, IsPlanAsPath, IsRightPlan};
ghost use Rattle.path_queries.specs.Reaches.{IsReach};

use crate::asking::AskedIn;
use crate::filtered_graph::leads_on;
use crate::filters::Filter;
use crate::partial::{PartialStart, partial_plan};
use crate::reach::{Reach, cheapest_to};
use crate::searches::Sought;
use funnel_path::pull;
use graph_search::{Limits, Room};
use mesh_locate::locate;
use mesh_types::{Asked, Corner, Link, Mesh, PathFound, PolyRef, Portal, poly};
use nav_base::Point;
use nav_lists::Items;
use std::alloc::{AllocError, Global};

/// The question for a way from one place to another through a filter. Points are in sixteenths of a cell and heights in height units.
#[derive(Clone, Copy, PartialEq, Eq)]
pub struct PathQuery {
    pub from: Point,
    pub from_y: u32,
    pub goal: Point,
    pub goal_y: u32,
    pub filter: Filter,
    /// The search ends where what is left costs more; `u64::MAX` for no limit.
    pub most_cost: u64,
    /// It ends after so many polygons; `usize::MAX` for no limit.
    pub most_polygons: usize,
    /// Whether a way to the nearest place will do where none to the goal is found: then how many sixteenths of a cell each unit of height
    /// counts between a polygon's floors and the goal's height, 0 to 1024.
    pub partial: Option<u32>,
}

/// Where a way ends: in which polygon, at which point of it, in sixteenths of a cell, and the least floor of that polygon.
#[derive(Clone, Copy, PartialEq, Eq)]
pub struct WayEnd {
    pub polygon: PolyRef,
    pub point: Point,
    pub y: u32,
}

/// What the question for a way is answered.
#[derive(PartialEq, Eq, Drop)]
pub enum PlanAnswer {
    /// A way to the goal: a cheapest allowed walk, as the filter prices it.
    Whole {
        way: PathFound,
        end: WayEnd,
    },
    /// Where a partial way will do and none to the goal was found: a cheapest way to the nearest place. No place is nearer to which an allowed
    /// walk leads that costs, with the straight way from there to the goal, less than `seen`; `u64::MAX` where all was seen.
    Nearest {
        way: PathFound,
        end: WayEnd,
        seen: u64,
    },
    /// A limit ended the search: an allowed walk to the goal, if there is one, costs at least `seen`.
    Limit {
        seen: u64,
    },
    /// No polygon holds the place in which the way is to begin.
    NoStart,
    /// No polygon holds the goal.
    NoGoal,
    /// The places are held, and no allowed walk joins their polygons.
    NoPath,
}

/// A right answer to the question for a way. Only memory can be refused.
pub fn plan(alloc: Global, mesh: &Mesh, query: &PathQuery) -> Result<PlanAnswer, AllocError>
    requires sound { IsSound mesh.now }
    requires setting { IsSetting mesh.now.setting }
    requires query { CanPlan query.now }
    ensures right { IfOk result (λ answer. IsPlan query.now mesh.now answer) }
    ensures low_cost { IfOk result HasLowWayCost }

    // Without limits right answers are of one kind, with the same first polygon and the same cost.
    ensures only { IfOk result (λ answer. HasNoLimits query.now → (other : PlanAnswer) → IsPlan query.now mesh.now other
        → AreAlikePlans query.now mesh.now answer other) }

    // With all areas open and no costs of its own a filter changes nothing, where no limit may end the search: they are those of a right
    // answer to the question for a path.
    ensures as_path { IfOk result (λ answer. HasNoLimits query.now → AreAllOpen query.now.filter.areas → query.now.filter.costs ≡ None
        → (path : Answer) → IsRightPath mesh.now query.now.from query.now.from_y query.now.goal query.now.goal_y path → IsPlanAsPath answer path) }
{
    let mut room = Room::new(alloc);
    plan_in(alloc, &mut room, mesh, query)
}

/// The same, in room that an earlier search may have left.
pub fn plan_in(
    alloc: Global,
    room: &mut Room,
    mesh: &Mesh,
    query: &PathQuery,
) -> Result<PlanAnswer, AllocError>
    requires sound { IsSound mesh.now }
    requires setting { IsSetting mesh.now.setting }
    requires query { CanPlan query.now }
    ensures right { IfOk result (λ answer. IsPlan query.now mesh.now answer) }
    ensures low_cost { IfOk result HasLowWayCost }
    ensures only { IfOk result (λ answer. HasNoLimits query.now → (other : PlanAnswer) → IsPlan query.now mesh.now other
        → AreAlikePlans query.now mesh.now answer other) }
    ensures as_path { IfOk result (λ answer. HasNoLimits query.now → AreAllOpen query.now.filter.areas → query.now.filter.costs ≡ None
        → (path : Answer) → IsRightPath mesh.now query.now.from query.now.from_y query.now.goal query.now.goal_y path → IsPlanAsPath answer path) }
{
    right_plan(alloc, room, mesh, query)
}

/// The same, with no more said of it than that it is right and costs little.
fn right_plan(
    alloc: Global,
    room: &mut Room,
    mesh: &Mesh,
    query: &PathQuery,
) -> Result<PlanAnswer, AllocError>
    requires sound { IsSound mesh.now }
    requires setting { IsSetting mesh.now.setting }
    requires query { CanPlan query.now }
    ensures right { IfOk result (λ answer. IsPlan query.now mesh.now answer) }
    ensures low_cost { IfOk result HasLowWayCost }
{
    let Some(first) = locate(mesh, query.from, query.from_y) else {
        return Ok(PlanAnswer::NoStart);
    };
    match query.partial {
        Some(rise) => partial_plan(alloc, room, mesh, query, PartialStart { first, rise }),
        None => whole_plan(alloc, room, mesh, query, first),
    }
}

/// A right answer where no partial way is asked for and a polygon locates the start.
fn whole_plan(
    alloc: Global,
    room: &mut Room,
    mesh: &Mesh,
    query: &PathQuery,
    first: PolyRef,
) -> Result<PlanAnswer, AllocError>
    requires sound { IsSound mesh.now }
    requires setting { IsSetting mesh.now.setting }
    requires query { CanPlan query.now }
    requires whole { query.now.partial ≡ None }
    requires start { IsLocated mesh.now query.now.from query.now.from_y first }
    ensures right { IfOk result (λ answer. IsPlan query.now mesh.now answer) }
    ensures low_cost { IfOk result HasLowWayCost }
{
    let Some(last) = locate(mesh, query.goal, query.goal_y) else {
        return Ok(PlanAnswer::NoGoal);
    };
    let limits = Limits {
        key: query.most_cost,
        count: query.most_polygons,
    };
    let ends = WalkEnds {
        from: first,
        to: last,
    };
    match cheapest_allowed_in(alloc, room, mesh, &query.filter, ends, limits)? {
        Reach::Found { corridor, .. } => {
            let turns = turns(alloc, query.from, corridor.links.as_slice(), query.goal)?;
            let way = PathFound {
                first,
                cost: corridor.cost,
                links: corridor.links,
                turns,
            };
            let end = WayEnd {
                polygon: last,
                point: query.goal,
                y: least_floor(mesh, last),
            };
            Ok(PlanAnswer::Whole { way, end })
        }
        Reach::Limit { seen } => Ok(PlanAnswer::Limit { seen }),
        Reach::Apart => Ok(PlanAnswer::NoPath),
    }
}

/// The least floor of a polygon.
pub(crate) fn least_floor(mesh: &Mesh, at: PolyRef) -> u32
    ensures { (polygon : Polygon) → poly_at mesh.now at ≡ Some polygon → result ≡ polygon.low }
{
    match poly(mesh, at) {
        Some(polygon) => polygon.low,
        None => 0,
    }
}

impl Asked for PathQuery {
    type Answer = PlanAnswer;

    ghost can_ask = { λ query. CanPlan query };

    ghost is_right = { λ query mesh answer. IsRightPlan query mesh answer };

    fn ask(&self, alloc: Global, mesh: &Mesh) -> Result<PlanAnswer, AllocError> {
        plan(alloc, mesh, self)
    }
}

impl AskedIn for PathQuery {
    fn ask_in(
        &self,
        alloc: Global,
        room: &mut Room,
        mesh: &Mesh,
    ) -> Result<PlanAnswer, AllocError> {
        plan_in(alloc, room, mesh, self)
    }
}

/// The polygons in which a walk begins and ends.
#[derive(Clone, Copy)]
pub struct WalkEnds {
    pub from: PolyRef,
    pub to: PolyRef,
}

/// A cheapest allowed walk from one polygon to another, within limits. Only memory can be refused.
pub fn cheapest_allowed(
    alloc: Global,
    mesh: &Mesh,
    filter: &Filter,
    from: PolyRef,
    to: PolyRef,
    limits: Limits,
) -> Result<Reach, AllocError>
    requires sound { IsSound mesh.now }
    requires setting { IsSetting mesh.now.setting }
    requires filter { IsFilter filter.now }
    requires from { IsThere mesh.now from }
    requires to { IsThere mesh.now to }
    ensures { IfOk result (IsReach mesh.now filter.now from (to ∷ []) limits) }
{
    let mut room = Room::new(alloc);
    cheapest_allowed_in(
        alloc,
        &mut room,
        mesh,
        filter,
        WalkEnds { from, to },
        limits,
    )
}

/// The same, in room that an earlier search may have left.
pub fn cheapest_allowed_in(
    alloc: Global,
    room: &mut Room,
    mesh: &Mesh,
    filter: &Filter,
    ends: WalkEnds,
    limits: Limits,
) -> Result<Reach, AllocError>
    requires sound { IsSound mesh.now }
    requires setting { IsSetting mesh.now.setting }
    requires filter { IsFilter filter.now }
    requires from { IsThere mesh.now ends.from }
    requires to { IsThere mesh.now ends.to }
    ensures { IfOk result (IsReach mesh.now filter.now ends.from (ends.to ∷ []) limits) }
{
    let WalkEnds { from, to } = ends;
    if !leads_on(mesh, filter.areas, from, to) {
        return Ok(Reach::Apart);
    }
    let sought = Sought {
        from,
        goals: &[to],
        limits,
    };
    cheapest_to(alloc, room, mesh, filter, sought)
}

/// The corners of a taut line from one place to another through the portals of links.
pub fn turns(
    alloc: Global,
    from: Point,
    links: &[Link],
    to: Point,
) -> Result<Items<Corner>, AllocError>
    requires chain { IsChain from (portals_of links.now) to }
    requires few { length (portals_of links.now) < 4294967295 }
    requires coordinates { HasChainCoordinates from (portals_of links.now) to }
    ensures { IfOk result (λ turns. IsTaut from (portals_of links.now) to turns) }
{
    let portals = portals(alloc, links)?;
    let turns = pull(alloc, from, portals.as_slice(), to)?;
    Ok(Items::from_vec(turns))
}

/// The portals of links, in order.
fn portals(alloc: Global, links: &[Link]) -> Result<Vec<Portal>, AllocError>
    ensures { IfOk result (λ portals. portals.items ≡ portals_of links.now) }
{
    links.iter().map(|link| link.portal).collect(alloc)
}
