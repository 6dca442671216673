//! The steps of a crowd on a mesh: wishes go in, and moves that keep its agents apart and on the mesh come out.
//!
//! `step` places each agent in its polygon of the mesh (`place`), grants moves in rounds (`crowd_moves`), each along a straight way of fine points
//! over polygons that the agent may enter (`MeshSpace`), and makes them. An agent of which no polygon is known is stranded: it stands, and others
//! keep away from it. Where memory is refused nothing changes.
//!
//! Nothing of the wishes is believed: whatever they are, agents that are apart stay apart at every moment of the step (`stay_apart`), those that
//! overlap come no nearer (`no_nearer`), each goes on the mesh and no farther than its speed (`on_mesh`), and who has nobody near makes the first
//! move of its list that it may.
//!
//! Points, radii and speeds are in fine units, 1/256 of a cell; speeds are by step.
#![tactic(auto)]

mod laws;
mod placing;
mod space;
mod steps;
mod tiles;

pub use laws::{no_nearer, on_mesh, runs, stay_apart};
pub use placing::place;
pub use space::MeshSpace;
pub use steps::step;
