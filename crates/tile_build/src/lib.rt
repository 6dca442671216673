//! Builds the meshes of tiles from their cells that obstacles leave free: by the outlines of their regions or as strips, as the setting asks.
//!
//! `build_tile` gives exactly the tile mesh of its definition, fit for the setting, and takes one step; obstacles that do not touch the tile
//! change nothing of it. `build_kept_tile` gives the same of a layer whose cells keep its radius, as those of a ground do, and looks at what lies near the
//! obstacles alone. `build_tiles` gives the mesh of each tile of a ground, in order, and takes one step a tile. Only memory can be refused.
#![tactic(auto)]

mod build;

pub use build::{build_kept_tile, build_tile, build_tiles};
