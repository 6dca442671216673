//! The mesh of a tile as strips: a rectangle for each maximal run of connected cells of one area in one row.
//!
//! Two strips are linked over the columns where cells of the one are connected to cells of the other; the rim lists where strips lie along a
//! side of the tile with kept neighbours across. One cell at a time is looked at, along the tile's neighbour table; only the links are sorted.
//!
//! Units: corners are in whole cells, portals in sixteenths of a cell. With x drawn to the right and z upward, a rectangle is listed
//! counterclockwise from its least corner: edge 0 lies toward z - 1, edge 1 toward x + 1, edge 2 toward z + 1 and edge 3 toward x - 1.
#![tactic(auto)]

mod build;
mod inner;
mod polygons;
mod rim;
mod storeys;
mod tile_strips;

pub use build::{strip_mesh, strip_mesh_of_table, strip_mesh_over};
