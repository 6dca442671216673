//! What is asked of a mesh, and the answer of a floor. Points of the plane.

/// The floor of a cell: its height and its area.
#[derive(Clone, Copy, PartialEq, Eq, Debug)]
pub struct FloorAt {
    /// In height units, at most 8191.
    pub y: u32,
    /// What is stood on, 1 to 63.
    pub area: u32,
}

/// A question: the floor of a column of cells, a path between two places, or a straight walk from a place toward a point.
///
/// A column is named by its place in whole cells. Points are in sixteenths of a cell, each part from -65536 to 65536, and a field reaches
/// from 0 to 16384 at most. A height, in height units, says from which storey of a column a path or a ray begins or ends; it need not be
/// that of a floor.
#[derive(Clone, Copy, PartialEq, Eq, Debug)]
pub enum Question {
    Floor {
        x: u32,
        z: u32,
    },
    Path {
        from: Point,
        from_y: u32,
        to: Point,
        to_y: u32,
    },
    Ray {
        from: Point,
        from_y: u32,
        to: Point,
    },
}

/// A point of the plane: x grows to the right and z upward.
///
/// Corners of polygons, contours and outlines are in whole cells, 0 to 1024. Portals, the places and points of questions, and the turns of
/// paths are in sixteenths of a cell, -65536 to 65536. Which of the two a field has is said there.
#[derive(Clone, Copy, PartialEq, Eq, Debug)]
pub struct Point {
    pub x: i32,
    pub z: i32,
}
