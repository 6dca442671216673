//! What is saved of a registry.

use nav_ground::Shape;
use nav_lists::Items;

/// The field of a registry's level, as its setting says it: columns, the side of a tile, and how many obstacles may be on.
#[derive(Clone, Copy, PartialEq, Eq, Debug)]
pub struct SavedField {
    pub width: u32,
    pub depth: u32,
    pub tile: u32,
    pub limit: u32,
}

/// An obstacle: its id, the host's own number, and its shape.
#[derive(Clone, Copy)]
pub struct SavedObstacle {
    pub id: u64,
    pub user: u64,
    pub shape: Shape,
}

/// A registry as it is saved.
#[derive(Drop)]
pub struct SavedRegistry {
    pub field: SavedField,
    /// The last id that was given.
    pub last: u64,
    /// How often something new was shown.
    pub version: u64,
    /// By their ids, rising.
    pub rows: Items<SavedObstacle>,
    /// The places of those rows that are on, in the order in which they were put up.
    pub on: Items<u32>,
}
