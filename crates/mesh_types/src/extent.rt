//! The extents of polygons.

use nav_base::Point;

/// The box of a polygon, from its least corner to its greatest, in whole cells, and the polygon's area.
#[derive(Clone, Copy)]
pub struct Extent {
    /// The least x and the least z of the corners.
    pub low: Point,
    /// The greatest x and the greatest z of the corners.
    pub high: Point,
    /// The area of the polygon's cells, 1 to 63.
    pub area: u32,
}
