//! Paths that are kept while the mesh changes: whether one still leads on, and one that is made whole again.
//!
//! `check` takes a path that was found in one mesh over into another one: from the polygon in which it begins now it takes the links
//! through the portals of the kept ones, as far as they lead on through open areas, and tells up to which kept link they do. Where all do
//! and the goal is held, it lays a taut line anew. Nothing is searched for. Tiles number their polygons anew at each build, so that a link
//! is known by its portal. After Detour's `dtPathCorridor`.
//!
//! `repair_path` keeps the first of the links that lead on, and searches from there for a cheapest walk to the goal, or to where the last
//! links lead on as they are. The whole is cheapest only where nothing is kept nor joined. `repair_path_in` does so in room that an earlier
//! search may have left.
//!
//! Points are in sixteenths of a cell, heights in the unit of the floors.
#![tactic(auto)]

mod beginnings;
mod checks;
mod leads;
mod repairs;
mod rests;
mod splices;
mod weights;

pub use checks::{CheckAnswer, KeptPath, check};
pub use leads::leaves;
pub use repairs::{Repair, RepairAnswer, repair_path, repair_path_in};
