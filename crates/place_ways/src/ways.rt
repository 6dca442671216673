//! The question for a way between two places of the mesh, and its answers.

ghost use Rattle.std.specs.Prelude.{IfOk};
ghost use Rattle.nav_ground.specs.Limits.{IsSetting};
ghost use Rattle.mesh_types.specs.Soundness.{IsSound};
ghost use Rattle.place_ways.specs.Ways.{AreAlikeWays, ArePlaces, CanAskWay, IsCorridorOf, IsPlaceWay, IsUnlimited, IsWayLow};

use crate::corners::corners;
use graph_search::Limits;
use mesh_place::is_place;
use mesh_types::{Asked, Corridor, Mesh, MeshPlace, PathFound};
use nav_lists::Items;
use path_queries::reach::Reach;
use path_queries::{Filter, cheapest_allowed, turns};
use std::alloc::{AllocError, Global};

/// The question for a way from one place of the mesh to another through a filter.
#[derive(Clone, Copy, PartialEq, Eq)]
pub struct PlaceWayQuery {
    pub from: MeshPlace,
    pub goal: MeshPlace,
    pub filter: Filter,
    /// The search ends where what is left costs more; `u64::MAX` for no limit.
    pub most_cost: u64,
    /// It ends after so many polygons; `usize::MAX` for no limit.
    pub most_polygons: usize,
}

/// What the question for a way between two places is answered.
#[derive(PartialEq, Eq, Drop)]
pub enum PlaceWayAnswer {
    /// A cheapest allowed walk, as the filter prices it, and the corners of its line, from the one place to the other.
    Way {
        way: PathFound,
        corners: Items<MeshPlace>,
    },
    /// A limit ended the search: an allowed walk from the one place's polygon to the other's, if there is one, costs at least `seen`.
    Limit {
        seen: u64,
    },
    /// The way is to begin at no place of the mesh.
    NoStart,
    /// It is to end at no place of the mesh.
    NoGoal,
    /// Both are places of the mesh, and no allowed walk joins their polygons.
    NoPath,
}

/// A cheapest allowed way between two places of the mesh, with its corners as places. Only memory can be refused.
pub fn way_between(
    alloc: Global,
    mesh: &Mesh,
    query: &PlaceWayQuery,
) -> Result<PlaceWayAnswer, AllocError>
    requires sound { IsSound mesh.now }
    requires setting { IsSetting mesh.now.setting }
    requires query { CanAskWay query.now }
    ensures right { IfOk result (λ answer. IsPlaceWay query.now mesh.now answer) }
    ensures low_cost { IfOk result IsWayLow }

    // Without limits right answers are of one kind and of one cost.
    ensures only { IfOk result (λ answer. IsUnlimited query.now → (other : PlaceWayAnswer) → IsPlaceWay query.now mesh.now other
        → AreAlikeWays answer other) }
{
    right_way(alloc, mesh, query)
}

/// The same, with no more said of it than that it is right and costs little.
fn right_way(
    alloc: Global,
    mesh: &Mesh,
    query: &PlaceWayQuery,
) -> Result<PlaceWayAnswer, AllocError>
    requires sound { IsSound mesh.now }
    requires setting { IsSetting mesh.now.setting }
    requires query { CanAskWay query.now }
    ensures right { IfOk result (λ answer. IsPlaceWay query.now mesh.now answer) }
    ensures low_cost { IfOk result IsWayLow }
{
    if !is_place(mesh, query.from) {
        return Ok(PlaceWayAnswer::NoStart);
    }
    if !is_place(mesh, query.goal) {
        return Ok(PlaceWayAnswer::NoGoal);
    }
    let (from, goal) = (query.from.polygon, query.goal.polygon);
    let limits = Limits {
        key: query.most_cost,
        count: query.most_polygons,
    };
    match cheapest_allowed(alloc, mesh, &query.filter, from, goal, limits)? {
        Reach::Found { corridor, .. } => way_along(alloc, mesh, query, corridor),
        Reach::Limit { seen } => Ok(PlaceWayAnswer::Limit { seen }),
        Reach::Apart => Ok(PlaceWayAnswer::NoPath),
    }
}

/// The way along a cheapest allowed walk between the polygons of two places.
fn way_along(
    alloc: Global,
    mesh: &Mesh,
    query: &PlaceWayQuery,
    corridor: Corridor,
) -> Result<PlaceWayAnswer, AllocError>
    requires sound { IsSound mesh.now }
    requires query { CanAskWay query.now }
    requires places { ArePlaces mesh.now query.now }
    requires found { IsCorridorOf mesh.now query.now corridor }
    ensures right { IfOk result (λ answer. IsPlaceWay query.now mesh.now answer) }
    ensures low_cost { IfOk result IsWayLow }
{
    let links = corridor.links.as_slice();
    let turns = turns(alloc, query.from.point, links, query.goal.point)?;
    let corners = corners(alloc, mesh, query.from, links, turns.as_slice(), query.goal)?;
    let way = PathFound {
        first: query.from.polygon,
        cost: corridor.cost,
        links: corridor.links,
        turns,
    };
    Ok(PlaceWayAnswer::Way { way, corners })
}

impl Asked for PlaceWayQuery {
    ghost use Rattle.place_ways.specs.Ways.{CanAskWay, IsRightPlaceWay};

    type Answer = PlaceWayAnswer;

    ghost can_ask = { λ query. CanAskWay query };

    ghost is_right = { λ query mesh answer. IsRightPlaceWay query mesh answer };

    fn ask(&self, alloc: Global, mesh: &Mesh) -> Result<PlaceWayAnswer, AllocError> {
        way_between(alloc, mesh, self)
    }
}
