//! The shared types and definitions of the ground: settings, spans, cells, layers, obstacles and their history.
//!
//! A field is a list of spans in columns; what an agent can stand on are the cells of layers, one layer a tile; obstacles are shapes that
//! block cells or set their areas; a history of requests says which shapes are alive. What these records keep, in which order they stand
//! and which numbers they may hold are definitions of `specs/`.
//!
//! Lists keep cells as `PackedCell`, in twenty bytes each; contracts see the `Cell`. A `PackedFreeLayer` keeps the free cells of a tile as what they
//! differ by from those of its layer, in two bytes each; contracts see the `FreeLayer`. `PaddedCells` keeps the wide cells of a layer as `CellRun`s of
//! a list that all layers share; contracts see the list, and `gathered` copies it.
//!
//! `tiles` and `tile_bounds` give the number of tiles and the columns of one. `covers`, `bounds` and `sets` say of an obstacle which cells it
//! covers, how far it reaches and which area it sets. `margin_of` gives how many columns agents keep from obstacles, `touch_window` the
//! columns within which an obstacle can change what is free, and `touches` says whether a tile has one of them, so that it changes nothing in
//! another tile. All of them answer exactly as defined, take constant time and no memory.
//!
//! `PrismBase` is the base of a prism, at any angle; `prism_base` makes one of corners, and `shares_area` says which columns it leaves to no agent.
//!
//! Units: `x` and `z` count columns of the field (cells), heights count height units; a `Direction` is `Left` for x - 1, `Above` for
//! z + 1, `Right` for x + 1 and `Below` for z - 1, numbered 0 to 3 in definitions. With x drawn to the right and z upward, tiles are squares numbered row by row from the corner (0, 0).
#![tactic(auto)]

mod cell;
mod direction;
mod disc;
mod field;
mod free_layer;
mod history;
mod packed;
mod padded_cells;
mod prism;
mod setting;
mod shape;
mod touch;

pub use cell::{Cell, CellRef, FreeLayer, Layer, Window};
pub use direction::Direction;
pub use field::{Field, PastField, Span};
pub use free_layer::PackedFreeLayer;
pub use history::{Entry, Ground, HISTORY_LIMIT, Reply, Request};
pub use packed::{PackedCell, PackedSpan};
pub use padded_cells::{CellRun, PaddedCells, gathered};
pub use prism::{PrismBase, corners, is_near, prism_base, shares_area};
pub use setting::{AREAS, Agent, MeshKind, Setting, TileNo, tile_bounds, tiles};
pub use shape::{Shape, bounds, covers, sets};
pub use touch::{margin_of, touch_window, touches};
