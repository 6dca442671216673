//! The shared types and definitions of the mesh: strips, polygons, portals, links, tiles and the whole mesh of a ground.
//!
//! Every crate above the ground speaks of the mesh in these words. A tile's free cells become polygons; a polygon's edges carry portals,
//! through which links lead to other polygons; the tiles of a ground are joined into one mesh. The crates above use the definitions of
//! `specs/`, the look-up `poly`, and tiles and lists of links that versions of a mesh share.
//!
//! Units: corners of polygons are in whole cells, points of portals in sixteenths of a cell; the corner (x, z) is the point (16 x, 16 z).
//! With x drawn to the right and z upward, polygons are listed counterclockwise, and an edge has its outside on its right.
#![tactic(auto)]

mod answers;
mod extent;
mod extents;
mod links;
mod mesh;
mod polygon;
mod polygons;
mod reaches;
mod region;
mod storeys;

pub use answers::{
    Answer, Asked, Corner, Corridor, HopAnswer, HopFound, HopStep, Jump, PathFound, RayAnswer,
    Side, WalkAnswer,
};
pub use extent::Extent;
pub use links::{Link, Links, PolyRef, Portal, order_links};
pub use mesh::{LevelPair, Mesh, RimEdge, TileMesh, copy_mesh, copy_tile, poly};
pub use polygon::{Corners, Polygon, edge_ends, holds, in_sixteenths};
pub use polygons::Polygons;
pub use reaches::{FloorReach, StoreyReach, TileReach};
pub use region::{
    Code, LabelRun, Outline, Piece, PortalEdge, Region, RegionPart, Regions, Simplified, Strip,
    Triangle, UnitEdge, runs,
};
pub use storeys::{FloorRow, MeshPlace, Storey, Storeys, storey_of};
