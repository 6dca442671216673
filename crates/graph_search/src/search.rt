//! The search.

ghost use Rattle.std.specs.Prelude.{◌≡◌, ◌≤◌, ◌<◌, ◌+◌, ◌*◌, ◌^◌, ◌∷◌, [], List, length, Contains, IfOk, IfSome, IfNone, OnOk};
ghost use Rattle.std.specs.List.Sorted.{IsPermutation};
ghost use Rattle.graph_search.specs.declared.graph.Vertex.{Vertex};
ghost use Rattle.graph_search.specs.declared.graph.Arc.{Arc};
ghost use Rattle.graph_search.specs.Walks.{arc_of, IsCheapest, IsApart, IsSearchable};
ghost use Rattle.graph_search.specs.Visited.{visit_at, IsSeen, IsClosed, IsWritten};
ghost use Rattle.graph_search.specs.Entries.{entry};
ghost use Rattle.graph_search.specs.Searching.{IsTree, IsRanked, IsKnown, IsClosing, AllRelaxed, AreBeingRelaxed, IsFollowing, KeepsRanks, IsBegun, IsWalkTo, closed_as};

use crate::graph::{Graph, Step, Vertex, Walk};
use crate::radix_heap::RadixHeap;
use crate::visits::{UNSEEN, Visit, Visits};
use std::alloc::{AllocError, Global};
use std::mem;

/// A walk from one vertex to another than which no other such walk costs less; none exactly where no walk joins the two. Only memory can be
/// refused. Its steps are fewer than the vertices. Vertices are closed in the order of their least cost and estimate together, up to the
/// goal's; each arc of a closed vertex is looked at once.
pub fn cheapest_walk<G: Graph>(
    alloc: Global,
    graph: &G,
    from: Vertex,
    to: Vertex,
) -> Result<Option<Walk>, AllocError>
    requires sound { G.is_sound graph.now }
    requires searchable { IsSearchable (G.vertices graph.now) (G.arcs graph.now) (G.estimates graph.now) (G.heaviest graph.now) }
    requires there { Contains (G.vertices graph.now) from }
    ensures found { IfOk result (λ answer. IfSome answer (λ walk. IsCheapest (G.arcs graph.now) from to walk)) }
    ensures few { IfOk result (λ answer. IfSome answer (λ walk. walk.cost ≤ length (G.vertices graph.now) * G.heaviest graph.now)) }
    ensures short { IfOk result (λ answer. IfSome answer (λ walk. length walk.steps.items < length (G.vertices graph.now))) }
    ensures none { IfOk result (λ answer. IfNone answer (IsApart (G.arcs graph.now) from to)) }
{
    let mut room = Room::new(alloc);
    cheapest_walk_in(alloc, &mut room, graph, from, to)
}

/// The same, in room that an earlier search may have left.
pub fn cheapest_walk_in<G: Graph>(
    alloc: Global,
    room: &mut Room,
    graph: &G,
    from: Vertex,
    to: Vertex,
) -> Result<Option<Walk>, AllocError>
    requires sound { G.is_sound graph.now }
    requires searchable { IsSearchable (G.vertices graph.now) (G.arcs graph.now) (G.estimates graph.now) (G.heaviest graph.now) }
    requires there { Contains (G.vertices graph.now) from }
    ensures found { IfOk result (λ answer. IfSome answer (λ walk. IsCheapest (G.arcs graph.now) from to walk)) }
    ensures few { IfOk result (λ answer. IfSome answer (λ walk. walk.cost ≤ length (G.vertices graph.now) * G.heaviest graph.now)) }
    ensures short { IfOk result (λ answer. IfSome answer (λ walk. length walk.steps.items < length (G.vertices graph.now))) }
    ensures none { IfOk result (λ answer. IfNone answer (IsApart (G.arcs graph.now) from to)) }
{
    let Room {
        visits,
        waiting,
        mut ends,
    } = room.take(alloc);
    let mut search = Search::begin(alloc, visits, waiting, from, graph.estimate(from))?;
    while let Some(first) = search.waiting.pop(alloc)? {
        let vertex = first.vertex;
        let visit = search.visits.get(vertex);
        if visit.rank != 0 {
            continue;
        }
        search.close(alloc, vertex)?;
        if vertex == to {
            let walk = walk_to(alloc, &search.visits, from, to)?;
            room.keep(search, ends);
            return Ok(Some(walk));
        }
        let turn = ClosedVertex {
            vertex,
            cost: visit.cost,
        };
        search.relax(alloc, graph, turn, &mut ends)?;
    }
    room.keep(search, ends);
    Ok(None)
}

/// Memory that searches work in. One search leaves it to the next, which then asks for little. Nothing is promised of what it holds.
#[derive(Drop)]
pub struct Room {
    pub(crate) visits: Visits,
    pub(crate) waiting: RadixHeap,
    pub(crate) ends: Vec<Vertex>,
}

impl Room {
    /// Room without memory: searches ask for it as they go.
    pub fn new(alloc: Global) -> Self {
        Room {
            visits: Visits::new(alloc),
            waiting: RadixHeap::new(alloc, 0),
            ends: Vec::new(alloc),
        }
    }

    /// Takes all that is there.
    pub(crate) fn take(&mut self, alloc: Global) -> Room {
        mem::replace(self, Room::new(alloc))
    }

    /// Keeps what a search worked in.
    pub(crate) fn keep(&mut self, search: Search, ends: Vec<Vertex>) {
        let Search {
            visits,
            waiting,
            closed: _,
        } = search;
        *self = Room {
            visits,
            waiting,
            ends,
        };
    }
}

/// A vertex that was just closed, and what it costs.
#[derive(Clone, Copy)]
pub(crate) struct ClosedVertex {
    pub(crate) vertex: Vertex,
    pub(crate) cost: u64,
}

/// A step from a vertex that was just closed, and what that vertex costs.
#[derive(Clone, Copy)]
struct Stride {
    step: Step,
    cost: u64,
}

/// The state of a search.
#[derive(Drop)]
pub(crate) struct Search {
    pub(crate) visits: Visits,
    pub(crate) waiting: RadixHeap,
    /// How many vertices were closed.
    pub(crate) closed: usize,
}

impl Search {
    /// A search from a vertex, with the estimate of what is left to go from there, by what an earlier search left.
    pub(crate) fn begin(
        alloc: Global,
        mut visits: Visits,
        mut waiting: RadixHeap,
        from: Vertex,
        estimate: u64,
    ) -> Result<Self, AllocError>
        ensures begun { IfOk result (λ search. IsBegun from estimate (visit_at search.visits)) }
        ensures waiting { IfOk result (λ search. IsPermutation (entry estimate from ∷ []) search.waiting.entries) }
        ensures closed { IfOk result (λ search. search.closed ≡ 0) }
    {
        visits.clear();
        let start = Visit {
            cost: 0,
            estimate,
            ..UNSEEN
        };
        visits.set(alloc, from, start)?;
        waiting.restart(estimate);
        waiting.push(alloc, estimate, from)?;
        Ok(Search {
            visits,
            waiting,
            closed: 0,
        })
    }

    /// Closes a vertex.
    pub(crate) fn close(&mut self, alloc: Global, vertex: Vertex) -> Result<(), AllocError>
        requires { self.old.closed + 1 < 2 ^ 64 }
        ensures closed { OnOk result (self.new.closed ≡ self.old.closed + 1) }
        ensures written { OnOk result (IsWritten (visit_at self.old.visits) vertex
            (closed_as (self.old.closed + 1) (visit_at self.old.visits vertex)) (visit_at self.new.visits)) }
        ensures waiting { self.new.waiting ≡ self.old.waiting }
    {
        let rank = self.closed + 1;
        self.visits.close(alloc, vertex, rank)?;
        self.closed = rank;
        Ok(())
    }

    /// Follows the arcs of a vertex that was just closed. The ends are room to work in.
    pub(crate) fn relax<G: Graph>(
        &mut self,
        alloc: Global,
        graph: &G,
        turn: ClosedVertex,
        ends: &mut Vec<Vertex>,
    ) -> Result<(), AllocError>
        requires sound { G.is_sound graph.now }
        requires searchable { IsSearchable (G.vertices graph.now) (G.arcs graph.now) (G.estimates graph.now) (G.heaviest graph.now) }
        requires there { Contains (G.vertices graph.now) turn.vertex }
        requires cost { turn.cost ≡ (visit_at self.old.visits turn.vertex).cost }
        requires last { self.old.waiting.last ≤ turn.cost + G.estimates graph.now turn.vertex }
        requires few { self.old.closed ≤ length (G.vertices graph.now) }
        requires known { IsKnown (G.vertices graph.now) (G.estimates graph.now) (visit_at self.old.visits)
            self.old.waiting.entries (self.old.closed * G.heaviest graph.now) self.old.closed }
        requires closing { IsClosing (G.estimates graph.now) (G.heaviest graph.now) (visit_at self.old.visits)
            (self.old.closed * G.heaviest graph.now) turn.vertex }
        requires relaxing { AreBeingRelaxed (G.arcs graph.now) (visit_at self.old.visits) turn.vertex 0 }
        ensures known { OnOk result (IsKnown (G.vertices graph.now) (G.estimates graph.now) (visit_at self.new.visits)
            self.new.waiting.entries (self.old.closed * G.heaviest graph.now) self.old.closed) }
        ensures relaxed { OnOk result (AllRelaxed (G.arcs graph.now) (visit_at self.new.visits)) }
        ensures tree { OnOk result ((start : Vertex) → IsTree (G.arcs graph.now) start (visit_at self.old.visits)
            → IsTree (G.arcs graph.now) start (visit_at self.new.visits)) }
        ensures ranks { OnOk result (KeepsRanks (visit_at self.old.visits) (visit_at self.new.visits)) }
        ensures more { OnOk result (length self.new.waiting.entries
            ≤ length self.old.waiting.entries + length (G.arcs graph.now turn.vertex)) }
        ensures closed { self.new.closed ≡ self.old.closed }
    {
        ends.clear();
        graph.push_ends(turn.vertex, ends)?;
        let ends = ends.as_slice();
        for (place, to) in ends.iter().enumerate() {
            let step = Step {
                from: turn.vertex,
                place,
            };
            let cost = turn.cost;
            self.follow(alloc, graph, Stride { step, cost }, *to)?;
        }
        Ok(())
    }

    /// Follows an arc of a vertex that was just closed: where it leads to a vertex at less cost than was known, that is written, and the
    /// vertex waits with it.
    fn follow<G: Graph>(
        &mut self,
        alloc: Global,
        graph: &G,
        stride: Stride,
        to: Vertex,
    ) -> Result<(), AllocError>
        requires sound { G.is_sound graph.now }
        requires searchable { IsSearchable (G.vertices graph.now) (G.arcs graph.now) (G.estimates graph.now) (G.heaviest graph.now) }
        requires there { Contains (G.vertices graph.now) stride.step.from }
        requires place { stride.step.place < length (G.arcs graph.now stride.step.from) }
        requires end { (arc_of (G.arcs graph.now) stride.step).to ≡ to }
        requires cost { stride.cost ≡ (visit_at self.old.visits stride.step.from).cost }
        requires last { self.old.waiting.last ≤ stride.cost + G.estimates graph.now stride.step.from }
        requires few { self.old.closed ≤ length (G.vertices graph.now) }
        requires known { IsKnown (G.vertices graph.now) (G.estimates graph.now) (visit_at self.old.visits)
            self.old.waiting.entries (self.old.closed * G.heaviest graph.now) self.old.closed }
        requires closing { IsClosing (G.estimates graph.now) (G.heaviest graph.now) (visit_at self.old.visits)
            (self.old.closed * G.heaviest graph.now) stride.step.from }
        requires relaxing { AreBeingRelaxed (G.arcs graph.now) (visit_at self.old.visits) stride.step.from stride.step.place }
        ensures followed { OnOk result (IsFollowing (G.vertices graph.now) (G.arcs graph.now) (G.estimates graph.now) (G.heaviest graph.now)
            stride.step.from self.old.closed (visit_at self.old.visits) self.old.waiting.entries
            (visit_at self.new.visits) self.new.waiting.entries (stride.step.place + 1) 1) }
        ensures closed { self.new.closed ≡ self.old.closed }
        ensures last { self.new.waiting.last ≡ self.old.waiting.last }
    {
        let known = self.visits.get(to);
        if known.rank != 0 {
            return Ok(());
        }
        let through = stride.cost + graph.weight(stride.step, to);
        if known.cost <= through {
            return Ok(());
        }
        let estimate = estimate_at(graph, known, to);
        let key = through + estimate;
        let visit = Visit {
            cost: through,
            estimate,
            rank: 0,
            last: stride.step,
        };
        self.visits.set(alloc, to, visit)?;
        self.waiting.push(alloc, key, to)?;
        Ok(())
    }
}

/// The estimate of what is left to go from a vertex. It is known where a walk to the vertex is, and found where none is.
fn estimate_at<G: Graph>(graph: &G, known: Visit, vertex: Vertex) -> u64
    requires sound { G.is_sound graph.now }
    requires there { Contains (G.vertices graph.now) vertex }
    requires known { IsSeen known → known.estimate ≡ G.estimates graph.now vertex }
    ensures { result ≡ G.estimates graph.now vertex }
{
    if known.cost == u64::MAX {
        graph.estimate(vertex)
    } else {
        known.estimate
    }
}

/// The walk to a closed vertex along the last steps, found back from it to the start.
fn walk_to(alloc: Global, visits: &Visits, start: Vertex, to: Vertex) -> Result<Walk, AllocError>
    requires ranked { IsRanked start (visit_at visits.now) }
    requires closed { IsClosed (visit_at visits.now to) }
    ensures walk { IfOk result (λ walk. (arcs : Vertex → List Arc) → IsTree arcs start (visit_at visits.now)
        → IsWalkTo arcs (visit_at visits.now) start to walk) }
    ensures short { IfOk result (λ walk. length walk.steps.items < (visit_at visits.now to).rank) }
{
    let mut steps = Vec::new(alloc);
    let mut vertex = to;
    while vertex != start {
        let last = visits.get(vertex).last;
        steps.push(last)?;
        vertex = last.from;
    }
    steps.reverse();
    let cost = visits.get(to).cost;
    Ok(Walk { cost, steps })
}
