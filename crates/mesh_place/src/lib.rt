//! Places on a mesh: a polygon, a point that it holds, and the floor there.
//!
//! The floor at a point of a polygon is that of a cell of the polygon's storey: of the cell under the point, and where the outline of the
//! polygon strays off its cells, of the nearest cell. `height` tells the highest such floor, and `is_place` whether a place is one of the
//! mesh, so that a place which a later build took away is not answered from another floor. `nearest_held` tells the whole point that a
//! polygon holds nearest to a point. None of these takes memory.
//!
//! Points are in sixteenths of a cell, corners of polygons and columns in whole cells, heights in the unit of the floors.
#![tactic(auto)]

mod bounds;
mod boxes;
mod cells;
mod columns;
mod floors;
mod guesses;
mod heights;
mod held_points;
mod lines;
mod near;
mod nearest_place;
mod scan;
mod storey_scan;
mod tiles;

pub use boxes::box_gap;
pub use heights::{HeightAnswer, HeightAt, height, height_held, is_place, is_place_of};
pub use held_points::nearest_held;
pub use mesh_types::MeshPlace;
pub use near::{Near, NearAnswer, is_open};
pub use nearest_place::nearest;
