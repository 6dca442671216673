//! Graphs that can be searched. Vertices, arcs and walks.

use std::alloc::AllocError;

/// A finite graph whose arcs have whole weights, some of them perhaps 0, with an estimate of what is left to go from each vertex. The arcs
/// that leave a vertex are found when a search comes to it, and not before, and an arc is weighed only where it may lead to less cost.
pub trait Graph {
    ghost use Rattle.std.specs.Prelude.{◌≡◌, ◌<◌, ◌++◌, ℕ, List, length, OnOk, Contains};
    ghost use Rattle.graph_search.specs.declared.graph.Vertex.{Vertex};
    ghost use Rattle.graph_search.specs.declared.graph.Arc.{Arc};
    ghost use Rattle.graph_search.specs.Walks.{arc_of, ends_of};

    /// What holds of a graph whose arcs may be asked for.
    ghost is_sound: { Self → Type 0 };

    /// The vertices.
    ghost vertices: { Self → List Vertex };

    /// The arcs that leave a vertex, in order.
    ghost arcs: { Self → Vertex → List Arc };

    /// The estimate of what is left to go from a vertex.
    ghost estimates: { Self → Vertex → ℕ };

    /// No arc weighs more.
    ghost heaviest: { Self → ℕ };

    /// Appends the vertices that are entered by the arcs which leave a vertex, in order of the arcs.
    fn push_ends(&self, from: Vertex, ends: &mut Vec<Vertex>) -> Result<(), AllocError>
        requires sound { is_sound self.now }
        requires there { Contains (vertices self.now) from }
        ensures { OnOk result (ends.new.items ≡ ends.old.items ++ ends_of (arcs self.now from)) };

    /// What the arc of a step weighs, which enters a given vertex.
    fn weight(&self, step: Step, to: Vertex) -> u64
        requires sound { is_sound self.now }
        requires there { Contains (vertices self.now) step.from }
        requires place { step.place < length (arcs self.now step.from) }
        requires end { (arc_of (arcs self.now) step).to ≡ to }
        ensures { result ≡ (arc_of (arcs self.now) step).weight };

    /// The estimate of what is left to go from a vertex. With 0 everywhere a search is Dijkstra's.
    fn estimate(&self, from: Vertex) -> u64
        requires sound { is_sound self.now }
        requires there { Contains (vertices self.now) from }
        ensures { result ≡ estimates self.now from };
}

/// A vertex of a graph, by its block and its place there, both from 0. A search keeps what it knows block by block, so vertices that lie
/// near each other are best numbered in one block.
#[derive(Clone, Copy, PartialEq, Eq, PartialOrd, Ord, Debug)]
pub struct Vertex {
    pub block: u32,
    pub place: u32,
}

/// An arc that leaves a vertex: the vertex that it enters, and its weight.
#[derive(Clone, Copy)]
pub struct Arc {
    pub to: Vertex,
    pub weight: u64,
}

/// A step of a walk: the vertex that it leaves, and the place of the arc taken, from 0, among those that leave that vertex.
#[derive(Clone, Copy, PartialEq, Eq, Debug)]
pub struct Step {
    pub from: Vertex,
    pub place: usize,
}

/// A walk: its steps in order, and the sum of the weights of their arcs.
#[derive(Drop)]
pub struct Walk {
    pub cost: u64,
    pub steps: Vec<Step>,
}
