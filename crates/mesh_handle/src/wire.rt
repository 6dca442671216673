//! What a host says of a mesh, as C lays it out.

use world_grid::Frame;

/// How steep a triangle may be that somebody can walk on.
#[repr(C)]
#[derive(Clone, Copy)]
pub struct NavdSlope {
    /// Height units, 0 to 16384.
    pub rise: u32,
    /// Sixteenths of a cell over which it may rise so many, 0 to 131072; with 0 nothing is too steep.
    pub run: u32,
    /// 0: the side that lies up is the upper one; else that does not matter.
    pub both_sides: u32,
}

/// A level's sizes, its tiles, and the agent that walks it.
#[repr(C)]
#[derive(Clone, Copy)]
pub struct NavdSetting {
    pub width: u32,
    pub depth: u32,
    pub tile: u32,
    pub height: u32,
    pub climb: u32,
    pub radius: u32,
    pub error: u32,
    /// 0: a polygon is a strip of cells; else outlines are cut into convex pieces.
    pub contours: u32,
    pub limit: u32,
    /// 0: agents keep their radius from walls alone; else from obstacles too.
    pub clear: u32,
}

/// A level of a mesh: where its field lies, what is too steep, and the rest.
#[repr(C)]
#[derive(Clone, Copy)]
pub struct NavdMesh {
    pub frame: Frame,
    pub slope: NavdSlope,
    pub setting: NavdSetting,
}

/// A triangle of a mesh that fails, and why.
#[repr(C)]
#[derive(Clone, Copy)]
pub struct NavdMeshFault {
    /// How many triangles stand before it.
    pub place: usize,
    /// 1: it names a vertex that there is none of; 2: a number is none; 3: a corner lies outside; 4: its area is above 63.
    pub kind: u32,
}
