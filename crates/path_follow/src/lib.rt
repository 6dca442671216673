//! Followers: where a walker on a kept path is, by how far it has gone.
//!
//! `follow` takes the polygons, the links and the turns of a path as they were told, and how far a walker has gone along its line, in sixteenths of a
//! cell along the longer axis of each leg. The point is a function of the line and of that length alone: nothing is searched for, and nothing is
//! rounded twice, so that a walker never strays from the line by a sixteenth. The links that the walker uses, and as many ahead of it as it
//! wants to be looked at, have to be links of the mesh still; where one is not, the answer says which. After Detour's `dtPathCorridor`.
//!
//! Points are in sixteenths of a cell, heights in the unit of the floors.
#![tactic(auto)]

mod following;
mod lines;
mod looking;

pub use following::{FollowAnswer, Following, follow};
