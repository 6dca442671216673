//! The mesh of a tile by the outlines of its regions.
//!
//! The contour of each region is simplified to an outline, and that is cut into strictly convex pieces, the polygons of the tile. Their edges
//! are doors: two pieces of one region are linked over an edge of both, and pieces of two regions where their outlines run along each other.
//! The rim lists where an outline runs along a side of the tile with kept neighbours across. A tile of which some region has no outline, or
//! one that cannot be cut, has no such mesh, and its free cells come back.
//!
//! For n cells and doors the work is n log n beside that of cutting the outlines. Doors are put in order of the corners at which they begin,
//! so that those that may face one are found by a search by halving, as in the adjacency of Recast's meshes; what lies at a position of a
//! side is found in sorted tables too.
//!
//! Units: corners are in whole cells, portals in sixteenths of a cell. With x drawn to the right and z upward, polygons are listed
//! counterclockwise.
#![tactic(auto)]

mod build;
mod crossings;
mod doors;
mod links;
mod parts;
mod polygons;
mod rim;
mod storeys;

pub use build::{ContourMesh, contour_mesh_over};
