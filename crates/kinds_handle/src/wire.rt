//! What a host says of kinds of agents and of the ground that they share, as C lays it out. The header, `include/navd.h`, has the same.

/// A kind of agent, and its tiles.
#[repr(C)]
#[derive(Clone, Copy)]
pub struct NavdKind {
    /// How high it stands, in height units, 1 to 255.
    pub height: u32,
    /// How high it steps, in height units, below its height.
    pub climb: u32,
    /// How many cells it keeps from walls, 0 to 15.
    pub radius: u32,
    /// 0: it keeps them from walls alone; else from obstacles too.
    pub clear: u32,
    /// The side of a tile in columns, 4 to 128; where it keeps its radius from obstacles, at least twice that.
    pub tile: u32,
}

/// What kinds share: the size of the ground, how polygons are made, and how many obstacles may be alive.
#[repr(C)]
#[derive(Clone, Copy)]
pub struct NavdGround {
    /// Columns along x, 1 to 1024.
    pub width: u32,
    /// Columns along z, 1 to 1024.
    pub depth: u32,
    /// How far an outline may stray from the contour, in hundredths of a squared cell, 0 to 10000.
    pub error: u32,
    /// 0: a polygon is a strip of cells; else outlines are cut into convex pieces.
    pub contours: u32,
    /// How many obstacles may be alive at once, 1 to 1024.
    pub limit: u32,
}

/// A solid piece of a column, from its bottom up to its top, 0 to 8191, with the area of the top, 0 to 63.
#[repr(C)]
#[derive(Clone, Copy)]
pub struct NavdSpan {
    pub x: u32,
    pub z: u32,
    pub bottom: u32,
    pub top: u32,
    pub area: u32,
}

/// A rectangle of columns: those from x0 to x1 and from z0 to z1.
#[repr(C)]
#[derive(Clone, Copy)]
pub struct NavdColumns {
    pub x0: u32,
    pub x1: u32,
    pub z0: u32,
    pub z1: u32,
}
