//! The tiles that may differ between two lengths of a history, for a host that keeps paths or drawn tiles of a mesh and
//! asks which of them it has to look at again.
//!
//! `tiles_changed_between` reads them off the history: those that an obstacle touches which is there after exactly one of
//! the two lengths, and no others. Each other tile has the same polygons, links and free cells in both builds, and the
//! links between two such tiles are the same; no mesh is looked at. An obstacle that came and went in between, as a door
//! that closed and opened again, is not told. `changed_tiles` does so for a length of a level's history and what the level
//! has published.
//!
//! `shapes` goes through the entries in between, the last one first, and keeps a mark for each; `tiles` finds the tiles
//! that shapes touch. Both take memory for what lies in between, and for the tiles that are told.
#![tactic(auto)]

mod changes;
mod shapes;
mod tiles;

pub use changes::{changed_tiles, tiles_changed_between};
