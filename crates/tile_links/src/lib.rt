//! Links over the borders of tiles, and tiles joined into one mesh.
//!
//! The rim of a tile says where its polygons run along the tile's sides, and at which level each position leads to which level across.
//! Two rim entries on the two sides of a border meet where each names the other's level; each run of positions where they meet is a link.
//! `whole` and `joined` give exactly the mesh of a setting and its tiles, `replace` and `replaced` that of a mesh some of whose tiles are new;
//! every mesh that these make is sound. `rim_links` gives the links from a tile to the one across a side, `cross_links` those that leave a tile
//! over its four sides, in the order of links. Only memory can be refused, and then what was lent is unchanged.
//!
//! Sides are 0 for x - 1, 1 for z + 1, 2 for x + 1 and 3 for z - 1; a position is z on the sides 0 and 2, and x on the sides 1 and 3.
//! Rim entries and corners are in whole cells, portals in sixteenths of a cell.
#![tactic(auto)]

mod join;
mod new_tiles;
mod portals;
mod rim;

pub use join::{across, cross_links, joined, whole};
pub use new_tiles::{replace, replaced};
pub use rim::rim_links;
