//! The question for a way between the places that are nearest to two points.

ghost use Rattle.std.specs.Prelude.{◌≡◌, IfOk};
ghost use Rattle.nav_ground.specs.Limits.{IsSetting};
ghost use Rattle.mesh_types.specs.declared.storeys.MeshPlace.{MeshPlace};
ghost use Rattle.mesh_types.specs.Places.{IsPlace};
ghost use Rattle.mesh_types.specs.Soundness.{IsSound};
ghost use Rattle.mesh_place.specs.Nearest.{IsNearest};
ghost use Rattle.near_ways.specs.NearWays.{CanAskNearWay, IsNearWay, IsNearUnlimited};
ghost use Rattle.place_ways.specs.declared.ways.PlaceWayAnswer.{PlaceWayAnswer};
ghost use Rattle.place_ways.specs.Ways.{AreAlikeWays, IsWayLow};

use mesh_place::{Near, NearAnswer, nearest};
use mesh_types::{Asked, Mesh, MeshPlace};
use path_queries::Filter;
use place_ways::{PlaceWayAnswer, PlaceWayQuery, way_between};
use std::alloc::{AllocError, Global};

/// The question for a way between the places that are nearest to two points, through a filter.
#[derive(Clone, Copy, PartialEq, Eq)]
pub struct NearWayQuery {
    pub from: Near,
    pub goal: Near,
    pub filter: Filter,
    /// The search ends where what is left costs more; `u64::MAX` for no limit.
    pub most_cost: u64,
    /// It ends after so many polygons; `usize::MAX` for no limit.
    pub most_polygons: usize,
}

/// A cheapest allowed way between the places that are nearest to two points: there is no start, or no goal, where no place is in reach of the one
/// point, or of the other. Only memory can be refused.
pub fn way_near(
    alloc: Global,
    mesh: &Mesh,
    query: &NearWayQuery,
) -> Result<PlaceWayAnswer, AllocError>
    requires sound { IsSound mesh.now }
    requires setting { IsSetting mesh.now.setting }
    requires query { CanAskNearWay query.now }
    ensures right { IfOk result (λ answer. IsNearWay query.now mesh.now answer) }
    ensures low_cost { IfOk result IsWayLow }

    // Without limits right answers are of one kind and of one cost.
    ensures only { IfOk result (λ answer. IsNearUnlimited query.now → (other : PlaceWayAnswer) → IsNearWay query.now mesh.now other
        → AreAlikeWays answer other) }
{
    let NearAnswer::Nearest(from) = nearest(mesh, &query.from) else {
        return Ok(PlaceWayAnswer::NoStart);
    };
    let NearAnswer::Nearest(goal) = nearest(mesh, &query.goal) else {
        return Ok(PlaceWayAnswer::NoGoal);
    };
    way_joining(alloc, mesh, query, from, goal)
}

/// The way between two places, which are the nearest ones.
fn way_joining(
    alloc: Global,
    mesh: &Mesh,
    query: &NearWayQuery,
    from: MeshPlace,
    goal: MeshPlace,
) -> Result<PlaceWayAnswer, AllocError>
    requires sound { IsSound mesh.now }
    requires setting { IsSetting mesh.now.setting }
    requires query { CanAskNearWay query.now }
    requires start { IsNearest mesh.now query.now.from from }
    requires start_place { IsPlace mesh.now from }
    requires end { IsNearest mesh.now query.now.goal goal }
    requires end_place { IsPlace mesh.now goal }
    requires one_start { (other : MeshPlace) → IsNearest mesh.now query.now.from other → other ≡ from }
    requires one_end { (other : MeshPlace) → IsNearest mesh.now query.now.goal other → other ≡ goal }
    ensures right { IfOk result (λ answer. IsNearWay query.now mesh.now answer) }
    ensures low_cost { IfOk result IsWayLow }
    ensures only { IfOk result (λ answer. IsNearUnlimited query.now → (other : PlaceWayAnswer) → IsNearWay query.now mesh.now other
        → AreAlikeWays answer other) }
{
    let joined = PlaceWayQuery {
        from,
        goal,
        filter: query.filter,
        most_cost: query.most_cost,
        most_polygons: query.most_polygons,
    };
    way_between(alloc, mesh, &joined)
}

impl Asked for NearWayQuery {
    ghost use Rattle.near_ways.specs.NearWays.{CanAskNearWay, IsRightNearWay};

    type Answer = PlaceWayAnswer;

    ghost can_ask = { λ query. CanAskNearWay query };

    ghost is_right = { λ query mesh answer. IsRightNearWay query mesh answer };

    fn ask(&self, alloc: Global, mesh: &Mesh) -> Result<PlaceWayAnswer, AllocError> {
        way_near(alloc, mesh, self)
    }
}
