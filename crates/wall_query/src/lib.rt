//! Walls around a place of a mesh: the nearest one, and all within a distance; Detour's `findDistanceToWall` and `getPolyWallSegments`.
//!
//! A wall is a part of a polygon's edge over which no link leads into an open area, as long as it can be. The polygons around a place are
//! those to which links into open areas lead from its polygon, through portals no farther from it than a distance. `nearest_wall` tells the
//! nearest of the walls of polygons that are reached without going farther from the place than the wall is, so that the wall of another
//! storey above or below the place is not told for one that stands before it. `walls_around` tells all walls within the reach of the polygons
//! around within the reach, in order.
//!
//! Points are in sixteenths of a cell, distances are squares in the same unit, as exact fractions.
#![tactic(auto)]

mod all;
mod around;
mod distances;
mod nearest;
mod parts;
mod questions;
mod walls;

pub use all::walls_around;
pub use mesh_place::MeshPlace;
pub use nearest::nearest_wall;
pub use questions::{Wall, WallAnswer, WallQuery, WallsAnswer, WallsQuery};
