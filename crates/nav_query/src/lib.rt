//! Answers to questions of a mesh: the floors of a column, paths, and straight walks.
//!
//! `answer` gives an answer that is right in the mesh: the floors of the free cells of a column; or, for a path, that no polygon holds the
//! start, that none holds the goal, that no walk over links joins the polygons that locate the two, or a corridor of least cost between them
//! and a taut line through its portals; for a straight walk, that no polygon holds the start, the polygon in which the walk reaches the point, or
//! the wall at which it ends. The parts are those of `mesh_locate`, `corridor_search`, `funnel_path` and `ray_walk`.
//! `answer_in` does the same by landmarks of the mesh, which make the search for a path close fewer polygons, and in room that an earlier search
//! may have left. A `PreparedMesh` is a mesh with landmarks of it, where some were made, and keeps them where tiles are replaced.
//!
//! `Asking` is such a question as one that carries how it is answered, for what takes questions of any kind.
//!
//! `paths_never_fold` and `hops_never_fold` are laws: what holds of every right answer in a build.
//!
//! Columns are in whole cells, points in sixteenths of a cell, heights in the unit of the floors.
#![tactic(auto)]

mod answering;
mod laws;
mod paths;
mod prepared;
mod rays;

pub use answering::{Asking, answer, answer_in};
pub use laws::{hops_never_fold, paths_never_fold};
pub use prepared::PreparedMesh;
