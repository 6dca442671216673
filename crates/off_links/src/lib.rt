//! Off-mesh links: walks over the links of a mesh and declared jumps, where agents jump down a ledge or climb a ladder.
//!
//! A jump is joined where its two points are located; it leads from the polygon that locates the one to the polygon that locates the other.
//! A hop walk takes links and joined jumps, and a cheapest one is found as a corridor is, without an estimate, since a jump may cost less
//! than its distance. Its stretches, the maximal runs of links, are pulled tight one by one. After Detour's off-mesh connections, which here
//! are declared with each question.
#![tactic(auto)]

mod hop_graph;
mod hops;
mod off_mesh_links;
mod pulling;

pub use hops::{HopQuestion, hop};
pub use mesh_types::{HopAnswer, HopFound, HopStep, Jump};
