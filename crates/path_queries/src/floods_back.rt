//! Floods back: the polygons from which a place is reached within a cost.

ghost use Rattle.std.specs.Prelude.{IfOk};
ghost use Rattle.nav_ground.specs.Limits.{IsSetting};
ghost use Rattle.mesh_types.specs.Passages.{IsTwoWay};
ghost use Rattle.mesh_types.specs.Soundness.{IsSound};
ghost use Rattle.corridor_search.specs.MeshGraphs.{IsThere};
ghost use Rattle.path_queries.specs.Filters.{IsFilter};
ghost use Rattle.path_queries.specs.Floods.{CanFlood};
ghost use Rattle.path_queries.specs.FloodsBack.{IsRightFloodBack, IsWholeFloodBack};

use crate::back_graph::search_back;
use crate::filters::Filter;
use crate::floods::{FloodAnswer, FloodQuery, Flooded, polygons_reached};
use graph_search::{Limits, Room};
use mesh_locate::locate;
use mesh_types::{Mesh, PolyRef};
use nav_lists::Items;
use std::alloc::{AllocError, Global};

/// A right answer to the question for a flood back: the polygons from which an allowed walk leads to the place that costs no more than asked,
/// by rising cost; the first is the one that the place is located in. `via` is the place in the list of the polygon behind one on a cheapest
/// walk to the place. A polygon of a closed area may be told, as a walk may begin in it, and none leads on through it; where the place's own
/// polygon is closed, it alone is told. `NoStart` where no polygon holds the place. The links of the mesh must lead there and back, as those of
/// builds do. Only memory can be refused.
pub fn flood_back(alloc: Global, mesh: &Mesh, query: &FloodQuery) -> Result<FloodAnswer, AllocError>
    requires sound { IsSound mesh.now }
    requires setting { IsSetting mesh.now.setting }
    requires two_way { IsTwoWay mesh.now }
    requires query { CanFlood query.now }
    ensures right { IfOk result (λ answer. IsRightFloodBack query.now mesh.now answer) }
{
    let mut room = Room::new(alloc);
    flood_back_in(alloc, &mut room, mesh, query)
}

/// The same, in room that an earlier search may have left.
pub fn flood_back_in(
    alloc: Global,
    room: &mut Room,
    mesh: &Mesh,
    query: &FloodQuery,
) -> Result<FloodAnswer, AllocError>
    requires sound { IsSound mesh.now }
    requires setting { IsSetting mesh.now.setting }
    requires two_way { IsTwoWay mesh.now }
    requires query { CanFlood query.now }
    ensures right { IfOk result (λ answer. IsRightFloodBack query.now mesh.now answer) }
{
    let Some(last) = locate(mesh, query.at, query.y) else {
        return Ok(FloodAnswer::NoStart);
    };
    let list = flood_to(alloc, room, mesh, &query.filter, last, query.most_cost)?;
    Ok(FloodAnswer::Flooded(list))
}

/// The flood back from a polygon, up to a cost.
pub(crate) fn flood_to(
    alloc: Global,
    room: &mut Room,
    mesh: &Mesh,
    filter: &Filter,
    last: PolyRef,
    most_cost: u64,
) -> Result<Items<Flooded>, AllocError>
    requires sound { IsSound mesh.now }
    requires setting { IsSetting mesh.now.setting }
    requires two_way { IsTwoWay mesh.now }
    requires filter { IsFilter filter.now }
    requires last { IsThere mesh.now last }
    ensures { IfOk result (λ list. IsWholeFloodBack mesh.now filter.now last most_cost list) }
{
    let limits = Limits {
        key: most_cost,
        count: usize::MAX,
    };
    let found = search_back(alloc, room, mesh, filter, last, limits)?;
    let list = polygons_reached(alloc, found.reached.as_slice())?;
    Ok(Items::from_vec(list))
}
