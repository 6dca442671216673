//! Searches within limits, of all vertices that are reached.

ghost use Rattle.std.specs.Prelude.{◌≡◌, ◌<◌, ◌≤◌, ◌*◌, List, length, Contains, IfOk};
ghost use Rattle.std.specs.Bool.{MatchBool};
ghost use Rattle.graph_search.specs.declared.graph.Vertex.{Vertex};
ghost use Rattle.graph_search.specs.declared.graph.Arc.{Arc};
ghost use Rattle.graph_search.specs.Walks.{IsSearchable};
ghost use Rattle.graph_search.specs.Visited.{visit_at};
ghost use Rattle.graph_search.specs.Explored.{AreReachedFrom, AreReachedOnce, AreInOrder, AreLeast, AreLimited, CostAtMost};
ghost use Rattle.graph_search.specs.Explored.{HasAllBelow, StopsAt, HasEnded, AreViaEarlier, IsReachedWalk};
ghost use Rattle.graph_search.specs.Exploring.{IsBeyond, IsWithin, IsExplored};

use crate::graph::{Graph, Step, Vertex, Walk};
use crate::search::{ClosedVertex, Room, Search};
use crate::visits::Visits;
use std::alloc::{AllocError, Global};

/// How far a search goes: it closes no more vertices where the least cost and estimate that waits is greater than `key`, or where it has
/// closed `count`. The first vertex it always closes.
#[derive(Clone, Copy)]
pub struct Limits {
    pub key: u64,
    pub count: usize,
}

/// A vertex that was closed, and the least cost of a walk to it.
#[derive(Clone, Copy)]
pub struct ReachedVertex {
    pub vertex: Vertex,
    pub cost: u64,
    /// The place in the list of the vertex before it on such a walk; 0 for the first.
    pub via: usize,
    /// The place of the arc taken among those that leave that one; 0 for the first.
    pub place: usize,
}

/// What a search has closed, in order, and how far it has seen: each vertex with a walk whose cost and estimate together are less than
/// `seen` was closed. `u64::MAX` where no vertex was left.
#[derive(Drop)]
pub struct Explored {
    pub reached: Vec<ReachedVertex>,
    pub seen: u64,
}

/// The vertices that a search from one vertex closes within limits, up to the first of the stops. Only memory can be refused.
pub fn explore<G: Graph>(
    alloc: Global,
    graph: &G,
    from: Vertex,
    stops: &[Vertex],
    limits: Limits,
) -> Result<Explored, AllocError>
    requires sound { G.is_sound graph.now }
    requires searchable { IsSearchable (G.vertices graph.now) (G.arcs graph.now) (G.estimates graph.now) (G.heaviest graph.now) }
    requires there { Contains (G.vertices graph.now) from }
    ensures tree { IfOk result (λ found. AreReachedFrom (G.arcs graph.now) from found.reached.items) }
    ensures once { IfOk result (λ found. AreReachedOnce found.reached.items) }
    ensures least { IfOk result (λ found. AreLeast (G.arcs graph.now) from found.reached.items) }
    ensures order { IfOk result (λ found. AreInOrder (G.estimates graph.now) found.reached.items) }
    ensures limited { IfOk result (λ found. AreLimited (G.estimates graph.now) limits found.reached.items) }
    ensures within { IfOk result (λ found. HasAllBelow (G.arcs graph.now) (G.estimates graph.now) from found.seen found.reached.items) }
    ensures stopped { IfOk result (λ found. StopsAt (G.estimates graph.now) stops.now found.reached.items found.seen) }
    ensures ended { IfOk result (λ found. HasEnded stops.now limits found.reached.items found.seen) }
    ensures few { IfOk result (λ found. CostAtMost (length (G.vertices graph.now) * G.heaviest graph.now) found.reached.items) }
    ensures short { IfOk result (λ found. length found.reached.items ≤ length (G.vertices graph.now)) }
{
    let mut room = Room::new(alloc);
    explore_in(alloc, &mut room, graph, from, stops, limits)
}

/// The same, in room that an earlier search may have left.
pub fn explore_in<G: Graph>(
    alloc: Global,
    room: &mut Room,
    graph: &G,
    from: Vertex,
    stops: &[Vertex],
    limits: Limits,
) -> Result<Explored, AllocError>
    requires sound { G.is_sound graph.now }
    requires searchable { IsSearchable (G.vertices graph.now) (G.arcs graph.now) (G.estimates graph.now) (G.heaviest graph.now) }
    requires there { Contains (G.vertices graph.now) from }
    ensures tree { IfOk result (λ found. AreReachedFrom (G.arcs graph.now) from found.reached.items) }
    ensures once { IfOk result (λ found. AreReachedOnce found.reached.items) }
    ensures least { IfOk result (λ found. AreLeast (G.arcs graph.now) from found.reached.items) }
    ensures order { IfOk result (λ found. AreInOrder (G.estimates graph.now) found.reached.items) }
    ensures limited { IfOk result (λ found. AreLimited (G.estimates graph.now) limits found.reached.items) }
    ensures within { IfOk result (λ found. HasAllBelow (G.arcs graph.now) (G.estimates graph.now) from found.seen found.reached.items) }
    ensures stopped { IfOk result (λ found. StopsAt (G.estimates graph.now) stops.now found.reached.items found.seen) }
    ensures ended { IfOk result (λ found. HasEnded stops.now limits found.reached.items found.seen) }
    ensures few { IfOk result (λ found. CostAtMost (length (G.vertices graph.now) * G.heaviest graph.now) found.reached.items) }
    ensures short { IfOk result (λ found. length found.reached.items ≤ length (G.vertices graph.now)) }
{
    search_within(alloc, room, graph, from, stops, limits)
}

/// The same, with what is said of it in one record.
fn search_within<G: Graph>(
    alloc: Global,
    room: &mut Room,
    graph: &G,
    from: Vertex,
    stops: &[Vertex],
    limits: Limits,
) -> Result<Explored, AllocError>
    requires sound { G.is_sound graph.now }
    requires searchable { IsSearchable (G.vertices graph.now) (G.arcs graph.now) (G.estimates graph.now) (G.heaviest graph.now) }
    requires there { Contains (G.vertices graph.now) from }
    ensures { IfOk result (λ found. IsExplored (G.arcs graph.now) (G.estimates graph.now) from stops.now limits
        (length (G.vertices graph.now)) (length (G.vertices graph.now) * G.heaviest graph.now) found.reached.items found.seen) }
{
    let Room {
        visits,
        waiting,
        mut ends,
    } = room.take(alloc);
    let mut search = Search::begin(alloc, visits, waiting, from, graph.estimate(from))?;
    let mut reached = Vec::new(alloc);
    while let Some(first) = search.waiting.pop(alloc)? {
        let vertex = first.vertex;
        let seen = first.key;
        let visit = search.visits.get(vertex);
        if visit.rank != 0 {
            continue;
        }
        if is_beyond(limits, search.closed, seen) {
            room.keep(search, ends);
            return Ok(Explored { reached, seen });
        }
        reached.push(reached_as(&search.visits, search.closed, vertex))?;
        search.close(alloc, vertex)?;
        if is_stop(stops, vertex) {
            room.keep(search, ends);
            return Ok(Explored { reached, seen });
        }
        let turn = ClosedVertex {
            vertex,
            cost: visit.cost,
        };
        search.relax(alloc, graph, turn, &mut ends)?;
    }
    room.keep(search, ends);
    Ok(Explored {
        reached,
        seen: u64::MAX,
    })
}

/// The walk by which the vertex at a place of such a list was reached, found back from there to the first. It has no more steps than that.
pub fn reached_walk(
    alloc: Global,
    reached: &[ReachedVertex],
    place: usize,
) -> Result<Walk, AllocError>
    requires there { place < length reached.now }
    requires earlier { AreViaEarlier reached.now }
    ensures walk { IfOk result (λ walk. (arcs : Vertex → List Arc) (from : Vertex) → AreReachedFrom arcs from reached.now
        → IsReachedWalk arcs from reached.now place walk) }
    ensures short { IfOk result (λ walk. length walk.steps.items ≤ place) }
{
    let mut steps = Vec::new(alloc);
    let mut at = place;
    while at != 0 {
        let entry = reached[at];
        let from = reached[entry.via].vertex;
        let place = entry.place;
        steps.push(Step { from, place })?;
        at = entry.via;
    }
    steps.reverse();
    let cost = reached[place].cost;
    Ok(Walk { cost, steps })
}

/// Whether a limit forbids to close one more vertex, of which the cost and estimate together are a key.
fn is_beyond(limits: Limits, closed: usize, key: u64) -> bool
    ensures { MatchBool result (IsBeyond limits closed key) (IsWithin limits closed key) }
{
    closed != 0 && (key > limits.key || closed >= limits.count)
}

/// Whether a search is to stop at a vertex.
fn is_stop(stops: &[Vertex], vertex: Vertex) -> bool
    ensures { MatchBool result (Contains stops.now vertex) (Contains stops.now vertex → ⊥) }
{
    stops.contains(&vertex)
}

/// What comes into the list for a vertex that is closed next.
fn reached_as(visits: &Visits, closed: usize, vertex: Vertex) -> ReachedVertex
    ensures { result ≡ Rattle.graph_search.specs.Exploring.reached_as (visit_at visits.now) closed vertex }
{
    let visit = visits.get(vertex);
    let cost = visit.cost;
    if closed == 0 {
        return ReachedVertex {
            vertex,
            cost,
            via: 0,
            place: 0,
        };
    }
    let via = visits.get(visit.last.from).rank.saturating_sub(1);
    let place = visit.last.place;
    ReachedVertex {
        vertex,
        cost,
        via,
        place,
    }
}
