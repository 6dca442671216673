//! Triangles of an outline united into larger strictly convex pieces, as in Recast's polygon meshes.
//!
//! Two pieces that share an edge are united where the two together have at most six corners and are strictly convex: over the longest such
//! edge first, and again until there is none. Of equally long edges the one of the earlier pieces comes first.
//!
//! Corners are named by their places in the outline, from 0. Pieces run counterclockwise.
#![tactic(auto)]

mod choices;
mod edge;
mod union;

pub use union::merge;
