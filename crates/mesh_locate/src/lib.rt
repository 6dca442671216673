//! The polygon of a mesh in which a place lies: Detour's `findNearestPoly` without snapping to a polygon beside the place.
//!
//! A polygon holds a point at a height where the point lies to the left of each of its edges or on it, and the height is no further outside
//! the floors of the polygon than an agent climbs. `locate` gives, of the polygons that hold a place, the nearest in height, and of equally
//! near ones the first by tile and place. It looks at the tiles alone whose closed squares reach the point, at most four, and takes no memory.
//!
//! Points are in sixteenths of a cell, corners of polygons in whole cells, heights in the unit of the floors.
#![tactic(auto)]

mod nearest;
mod polygons;

pub use nearest::locate;
