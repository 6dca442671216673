//! The questions for walls, and what they are answered.

use mesh_types::{MeshPlace, PolyRef};
use nav_base::{Deviation, Point};
use nav_lists::Items;

/// The question for the wall nearest to a place.
#[derive(Clone, Copy, PartialEq, Eq)]
pub struct WallQuery {
    pub from: MeshPlace,
    /// How far a wall may be, in sixteenths of a cell, below 262144.
    pub reach: u32,
    /// Bit a, from 0 for the lowest: polygons of area a may be entered.
    pub areas: u64,
}

/// The question for the walls around a place.
#[derive(Clone, Copy, PartialEq, Eq)]
pub struct WallsQuery {
    pub from: MeshPlace,
    /// How far walls and portals may be, in sixteenths of a cell, below 262144.
    pub reach: u32,
    /// Bit a, from 0 for the lowest: polygons of area a may be entered.
    pub areas: u64,
}

/// A part of an edge of a polygon over which no link leads into an open area, in the direction of the edge: the polygon lies to its left.
#[derive(Clone, Copy, PartialEq, Eq)]
pub struct Wall {
    pub polygon: PolyRef,
    /// From 0: edge i runs from corner i to the next.
    pub edge: u32,
    /// In sixteenths of a cell.
    pub begin: Point,
    pub end: Point,
    /// The square of how far it is from the place, in sixteenths of a cell.
    pub far: Deviation,
}

/// What the question for the nearest wall is answered.
#[derive(Clone, Copy, PartialEq, Eq, Drop)]
pub enum WallAnswer {
    /// A nearest wall.
    Nearest(Wall),
    /// No wall is reached within the reach.
    NoWall,
    /// The start is no place of the mesh.
    NoStart,
}

/// What the question for the walls around a place is answered.
#[derive(PartialEq, Eq, Drop)]
pub enum WallsAnswer {
    /// The walls, by tile, polygon, edge and along the edge.
    Walls(Items<Wall>),
    /// The start is no place of the mesh.
    NoStart,
}
