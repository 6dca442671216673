//! Marks a tile's layer: which of its cells a list of obstacles leaves free, with their areas and neighbours.
//!
//! `mark` gives exactly the free layer of its definition, and the free layer keeps the rules of cells: they are in order, and neighbours
//! that lie in the tile name each other. Only memory can be refused.
#![tactic(auto)]

mod areas;
mod free;
mod near;
mod places;

pub use free::mark;
pub use near::mark_kept;
