//! Tile cache layers of a field, from filters, compact heightfield and erosion: the cells that an agent can stand on and that keep its
//! radius from every boundary, one list a tile.
//!
//! `ground` gives exactly the ground of its definition, whose layers keep the rules of layers. `layer` gives the layer of one tile, the
//! same that stands in the ground, from the spans near that tile alone. `grounds` gives the grounds of several settings over one field, which share
//! the cells of agents of one height and climb. `tile_of` gives the tile of a column.
#![tactic(auto)]

mod cut;
mod neighbours;
mod shared_cells;
mod tile_layers;

pub use cut::{ground, layer};
pub use shared_cells::grounds;
pub use tile_layers::tile_of;
