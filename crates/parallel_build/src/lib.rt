//! Layers and tiles of a whole ground by several threads, as many as there are processors.
//!
//! `ground_by` gives what `ground` of `layer_cut` gives, and `build_tiles_by` what `build_tiles` of `tile_build` gives: tiles do not read each
//! other, so each is made by itself, and they are put in order behind. A layer made by itself works on the spans round its tile too, so all
//! of them take somewhat more processor time than in one pass, and two threads are already ahead of that.
#![tactic(auto)]

mod layers;
mod tile_meshes;

pub use layers::ground_by;
pub use tile_meshes::build_tiles_by;
