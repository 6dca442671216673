//! Straight ways over a mesh in fine points, 1/256 of a cell: sixteen to a unit of the mesh's portals. In them a step of a slow agent is a whole number.
//!
//! `fine_walk` begins in a polygon that holds its start. It leaves a polygon over the edge that the way meets first: of the edges that have the
//! way's end on their right, one of least exit fraction. Over these edges it takes the first link, in the order of links, whose portal the way
//! meets and which enters a polygon of an open area not yet visited. It ends in the polygon that holds the way's end; where there is no such
//! link, or where it would take 24, there is no way. A polygon of a closed area may be left and not entered. No way is tried twice, and no
//! memory is taken.
//!
//! `stays` says what this means: each place of such a way lies in a polygon of the mesh.
//!
//! With x drawn to the right and z upward, polygons are listed counterclockwise.
#![tactic(auto)]

mod exits;
mod fine_points;
mod laws;
mod onward;
mod passing;

pub use fine_points::fine_holds;
pub use laws::{inside, one, stays};
pub use passing::{FineWay, fine_walk, is_fine_held};
