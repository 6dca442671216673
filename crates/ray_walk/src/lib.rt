//! Straight walks over a mesh from one point toward another, as Detour's ray cast: from polygon to polygon over links, as far as they lead.
//!
//! `walk` begins in a polygon that holds its start. It leaves a polygon over the edge that the way to the point meets first: of the edges that
//! have the point on their right, one of least exit fraction. Over these edges it takes the first link, in the order of links, whose portal the
//! ray meets and which leads to a polygon not yet visited. It ends in the polygon that holds the point, or at a wall, where there is no such
//! link. No way is tried twice: each polygon is visited once, its edges are looked at once, and of the mesh's links its own alone.
//!
//! Points are in sixteenths of a cell, corners of polygons in whole cells. With x drawn to the right and z upward, polygons are listed
//! counterclockwise.
#![tactic(auto)]

mod exits;
mod onward;
mod raycast;

pub use raycast::walk;
