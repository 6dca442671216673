//! Chains to pull paths through.

use mesh_types::Portal;
use nav_base::Point;

/// Portals from a start to a goal, in sixteenths of a cell.
#[derive(Drop)]
pub struct Chain {
    pub start: Point,
    pub portals: Vec<Portal>,
    pub goal: Point,
}
