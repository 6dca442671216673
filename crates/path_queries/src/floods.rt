//! Floods: the polygons within a cost of a place.

ghost use Rattle.std.specs.Prelude.{◌≡◌, All, IfOk, map};
ghost use Rattle.nav_ground.specs.Limits.{IsSetting};
ghost use Rattle.graph_search.specs.declared.exploring.ReachedVertex.{ReachedVertex};
ghost use Rattle.mesh_types.specs.Soundness.{IsSound};
ghost use Rattle.corridor_search.specs.MeshGraphs.{IsThere, polygon_of};
ghost use Rattle.path_queries.specs.BackGraphs.{flooded_back};
ghost use Rattle.path_queries.specs.Floods.{CanFlood, IsRightFlood};
ghost use Rattle.path_queries.specs.Searches.{AreViaNoLater, flooded_of};

use crate::asking::AskedIn;
use crate::filtered_graph::leads_on;
use crate::filters::{Filter, are_all_open};
use crate::searches::{Sought, search_through};
use corridor_search::polygon_at;
use graph_search::{Limits, ReachedVertex, Room};
use mesh_locate::locate;
use mesh_types::{Asked, Mesh, PolyRef};
use nav_base::Point;
use nav_lists::Items;
use std::alloc::{AllocError, Global};

/// The question for the polygons within a cost of a place, through a filter. The point is in sixteenths of a cell, the height in height
/// units.
#[derive(Clone, Copy, PartialEq, Eq)]
pub struct FloodQuery {
    pub at: Point,
    pub y: u32,
    pub filter: Filter,
    pub most_cost: u64,
}

/// A polygon of a flood, and what a cheapest allowed walk to it costs.
#[derive(Clone, Copy, PartialEq, Eq)]
pub struct Flooded {
    pub at: PolyRef,
    pub cost: u64,
    /// The place in the list of the polygon before it on such a walk; 0 for the first.
    pub via: usize,
}

/// What the question for a flood is answered.
#[derive(PartialEq, Eq, Drop)]
pub enum FloodAnswer {
    /// The polygons by rising cost; the first is the one that the place is located in.
    Flooded(Items<Flooded>),
    /// No polygon holds the place.
    NoStart,
}

/// A right answer to the question for a flood. Only memory can be refused.
pub fn flood(alloc: Global, mesh: &Mesh, query: &FloodQuery) -> Result<FloodAnswer, AllocError>
    requires sound { IsSound mesh.now }
    requires setting { IsSetting mesh.now.setting }
    requires query { CanFlood query.now }
    ensures right { IfOk result (λ answer. IsRightFlood query.now mesh.now answer) }
{
    let mut room = Room::new(alloc);
    flood_in(alloc, &mut room, mesh, query)
}

/// The same, in room that an earlier search may have left.
pub fn flood_in(
    alloc: Global,
    room: &mut Room,
    mesh: &Mesh,
    query: &FloodQuery,
) -> Result<FloodAnswer, AllocError>
    requires sound { IsSound mesh.now }
    requires setting { IsSetting mesh.now.setting }
    requires query { CanFlood query.now }
    ensures right { IfOk result (λ answer. IsRightFlood query.now mesh.now answer) }
{
    let Some(first) = locate(mesh, query.at, query.y) else {
        return Ok(FloodAnswer::NoStart);
    };
    let sought = Sought {
        from: first,
        goals: &[],
        limits: Limits {
            key: query.most_cost,
            count: usize::MAX,
        },
    };
    let found = search_through(alloc, room, mesh, &query.filter, sought)?;
    let list = polygons_of(
        alloc,
        mesh,
        query.filter.areas,
        first,
        found.reached.as_slice(),
    )?;
    Ok(FloodAnswer::Flooded(list))
}

impl Asked for FloodQuery {
    type Answer = FloodAnswer;

    ghost can_ask = { λ query. CanFlood query };

    ghost is_right = { λ query mesh answer. IsRightFlood query mesh answer };

    fn ask(&self, alloc: Global, mesh: &Mesh) -> Result<FloodAnswer, AllocError> {
        flood(alloc, mesh, self)
    }
}

impl AskedIn for FloodQuery {
    fn ask_in(
        &self,
        alloc: Global,
        room: &mut Room,
        mesh: &Mesh,
    ) -> Result<FloodAnswer, AllocError> {
        flood_in(alloc, room, mesh, self)
    }
}

/// The polygons of a flood: of those that a search reached, the ones from which a walk may lead on. The others may not be entered.
fn polygons_of(
    alloc: Global,
    mesh: &Mesh,
    areas: u64,
    first: PolyRef,
    reached: &[ReachedVertex],
) -> Result<Items<Flooded>, AllocError>
    requires sound { IsSound mesh.now }
    requires there { All (λ (entry : ReachedVertex). IsThere mesh.now (polygon_of entry.vertex)) reached.now }
    requires via { AreViaNoLater reached.now }
    ensures { IfOk result (λ list. list ≡ flooded_of mesh.now areas first reached.now) }
{
    if are_all_open(areas) {
        let list = polygons_reached(alloc, reached)?;
        return Ok(Items::from_vec(list));
    }
    kept_polygons(alloc, mesh, areas, first, reached)
}

/// The polygons of vertices that were reached, in order.
pub(crate) fn polygons_reached(
    alloc: Global,
    reached: &[ReachedVertex],
) -> Result<Vec<Flooded>, AllocError>
    ensures { IfOk result (λ list. list.items ≡ map flooded_back reached.now) }
{
    let polygons = reached.iter().map(|entry| Flooded {
        at: PolyRef {
            tile: entry.vertex.block,
            index: entry.vertex.place,
        },
        cost: entry.cost,
        via: entry.via,
    });
    polygons.collect(alloc)
}

/// The polygons of a flood, one by one.
fn kept_polygons(
    alloc: Global,
    mesh: &Mesh,
    areas: u64,
    first: PolyRef,
    reached: &[ReachedVertex],
) -> Result<Items<Flooded>, AllocError>
    requires sound { IsSound mesh.now }
    requires there { All (λ (entry : ReachedVertex). IsThere mesh.now (polygon_of entry.vertex)) reached.now }
    requires via { AreViaNoLater reached.now }
    ensures { IfOk result (λ list. list ≡ flooded_of mesh.now areas first reached.now) }
{
    let mut places = Vec::with_capacity(alloc, reached.len())?;
    let mut list = Vec::with_capacity(alloc, reached.len())?;
    for entry in reached {
        let at = polygon_at(entry.vertex);
        places.push(list.len())?;
        if leads_on(mesh, areas, first, at) {
            let via = places[entry.via];
            let cost = entry.cost;
            list.push(Flooded { at, cost, via })?;
        }
    }
    Ok(Items::from_vec(list))
}
