//! A level's triangles from arrays in a game's own numbers, for the field that they are to be cut into.
//!
//! A mesh is three floats a vertex, three numbers of vertices a triangle, and an area a triangle. `mesh_grid` puts a grid over it, and
//! `add_triangles` adds its triangles to those of a field: corners fall on the grid's nearest places, and a triangle keeps its area where
//! somebody can walk on it, after Recast's `rcMarkWalkableTriangles`. The first triangle that fails is told, with what is wrong with it.
//!
//! Whether a triangle is one to walk on is judged on a grid that is 256 times finer than the one that its corners fall on: 1/4096 of a cell
//! and 1/256 of a height unit. All of it is exact, in whole numbers.
//!
//! What stands upright on a line between columns would lie in none of them; it is moved into the column behind the line, so that it blocks
//! the way there.
#![tactic(auto)]

mod add;
mod axis;
mod fault;
mod gentle;
mod grid;
mod mesh;
mod point;
mod slope;
#[cfg(test)]
mod test_meshes;
#[cfg(test)]
mod test_slopes;
mod triangle;

pub use add::add_triangles;
pub use axis::mesh_grid;
pub use fault::{FaultyTriangle, MeshFault, MeshRefusal};
pub use gentle::is_gentle;
pub use grid::{MeshAxis, MeshGrid};
pub use mesh::WorldTriangle;
pub use slope::{Edge, Slope};
