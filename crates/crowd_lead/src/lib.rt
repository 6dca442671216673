//! Where a kept path leads an agent of a crowd.
//!
//! `lead` looks for the agent's polygon on the path, near the link that was told last, and tells by which vector the agent would like to go in the
//! next step, how far its goal is, and how many links are behind it. A crowd pushes its agents off their lines, so the way is looked for anew from
//! where each is: toward the first corner of the taut line over the portals ahead, and round that corner where it is nearer than the speed. Each
//! portal is made narrower at both ends, so that agents keep clear of corners where there is room. A polygon that the path does not pass is told,
//! and then a way has to be looked for anew. After Detour's `dtPathCorridor`.
//!
//! That the vector is no longer than the agent's speed, and near the end the way to the goal, is promised; that it leads there soon is not. A crowd's
//! step lets an agent go nowhere off the mesh, whatever it would like. No memory is taken.
//!
//! Agents are in fine units, 1/256 of a cell; goals and links in sixteenths of a cell.
#![tactic(auto)]

mod leading;
mod lines;
mod places;
mod portals;
mod vectors;

pub use leading::{LeadAnswer, lead};
