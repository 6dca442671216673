//! Ways between the places of the mesh that are nearest to two points, as one question.
//!
//! `way_near` looks for the place nearest to where the way is to begin, and for that nearest to where it is to end, as `mesh_place` does, and gives
//! the way between these two, as `place_ways` does. All of it is answered in one mesh, so that no place is told that a change has taken away
//! before the way is asked for.
//!
//! Points are in sixteenths of a cell, heights in the unit of the floors.
#![tactic(auto)]

mod snapped;

pub use snapped::{NearWayQuery, way_near};
