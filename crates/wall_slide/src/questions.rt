//! The question for a slide, and what it is answered.

use mesh_types::MeshPlace;
use nav_base::Point;

/// The question for a slide from a place toward a point.
#[derive(Clone, Copy, PartialEq, Eq)]
pub struct Slide {
    pub from: MeshPlace,
    /// In sixteenths of a cell.
    pub to: Point,
    /// Bit a, from 0 for the lowest: polygons of area a may be entered.
    pub areas: u64,
}

/// What the question for a slide is answered.
#[derive(Clone, Copy, PartialEq, Eq, Drop)]
pub enum SlideAnswer {
    /// Where the slide ends.
    Slid(MeshPlace),
    /// The start is no place of the mesh.
    NoStart,
}
