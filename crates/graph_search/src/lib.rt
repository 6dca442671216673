//! Cheapest walks in a finite graph with whole weights: one search, Dijkstra's, which an estimate of what is left to go makes the search A*.
//!
//! A graph is whatever implements `Graph`: it names its vertices by block and place, and gives the arcs that leave a vertex when a search
//! comes to it. Weights may be 0, and an estimate must be consistent: it falls along an arc by no more than the arc's weight. What a search
//! knows is kept block by block, and memory for a block is taken only when the search comes to it. `explore` gives all that a search closes
//! within limits, up to the first of some stops.
#![tactic(auto)]

mod exploring;
mod graph;
mod radix_heap;
mod search;
mod visits;

pub use exploring::{Explored, Limits, ReachedVertex, explore, explore_in, reached_walk};
pub use graph::{Arc, Graph, Step, Vertex, Walk};
pub use search::{Room, cheapest_walk, cheapest_walk_in};
