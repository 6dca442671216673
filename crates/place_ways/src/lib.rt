//! Ways between places of the mesh: from one polygon, at a point that it holds and on the floor there, to another.
//!
//! A place that `mesh_place` told, or at which an earlier way ended, is asked from and to as it is: no polygon is located anew, so that a way
//! never begins or ends on another storey than its place. A place that is none of the mesh, as one that a later build took away, is told as
//! that. `way_between` gives a cheapest allowed walk from the one place's polygon to the other's, a taut line through its portals, and the
//! corners of that line as places, each with its floor. `ray_from` tells how the straight walk from a place toward a point ends.
//!
//! Points are in sixteenths of a cell, heights in the unit of the floors.
#![tactic(auto)]

mod corners;
mod rays;
mod ways;

pub use rays::{PlaceRayAnswer, PlaceRayQuery, ray_from};
pub use ways::{PlaceWayAnswer, PlaceWayQuery, way_between};
