//! Strips of cells: maximal runs of connected free cells of one area in one row of a tile; and the regions that strips make.
//!
//! A strip goes along x: each of its cells is connected to the next toward x + 1, and all have one area. Strips stand by their first cells,
//! in the order of the tile's cells: by z, then by the first column, then by the level of the first cell. Cells are told by their index in
//! the list of the tile's free cells. They are followed along the neighbour table in one scan; that table takes a search by halving where a
//! column has several cells.
//!
//! Regions, as in Recast's monotone partitioning: maximal chains of strips of successive rows, each joined to the next. A strip joins another
//! where each is the only one that the other touches in its row, every column that both hold has its two cells connected, and the areas are
//! equal. One scan over the cells of a strip tells what it touches in a direction.
#![tactic(auto)]

mod index;
mod joins;
mod region_chains;
mod touching;

pub use index::{IndexLists, StripIndex, strip_index};
pub use region_chains::{regions, regions_over, strips};
pub use touching::{StripTable, tabled_strips};
