//! What crosses the border: plain numbers in structs that C has too, and the statuses with which calls end. The header, `include/navd.h`, has
//! the same, and says what each of them is. Contracts name statuses by the numbers of `specs/Statuses.antt`.

/// A point of the plane, in sixteenths of a cell.
#[repr(C)]
#[derive(Clone, Copy)]
pub struct NavdPoint {
    pub x: i32,
    pub z: i32,
}

/// Columns x0 to x1 and z0 to z1, heights y0 to y1.
#[repr(C)]
#[derive(Clone, Copy)]
pub struct NavdBlock {
    pub x0: u32,
    pub x1: u32,
    pub y0: u32,
    pub y1: u32,
    pub z0: u32,
    pub z1: u32,
}

/// A centre in half cells, a radius in cells, heights y0 to y1.
#[repr(C)]
#[derive(Clone, Copy)]
pub struct NavdCylinder {
    pub cx: u32,
    pub cz: u32,
    pub r: u32,
    pub y0: u32,
    pub y1: u32,
}

/// From where to where a path or a ray leads, each with the height that says in which storey.
#[repr(C)]
#[derive(Clone, Copy)]
pub struct NavdWay {
    pub from: NavdPoint,
    pub from_y: u32,
    pub to: NavdPoint,
    pub to_y: u32,
}

/// A polygon by its tile and its place there, from 0.
#[repr(C)]
#[derive(Clone, Copy)]
pub struct NavdPolygon {
    pub tile: u32,
    pub index: u32,
}

/// A way from one polygon into another.
#[repr(C)]
#[derive(Clone, Copy)]
pub struct NavdLink {
    pub from: NavdPolygon,
    pub edge: u32,
    pub to: NavdPolygon,
    pub left: NavdPoint,
    pub right: NavdPoint,
}

/// A turn of a path: on the left hand (0) or the right hand (1), at an end of the portal of a link, which is named by its place from 0.
#[repr(C)]
#[derive(Clone, Copy)]
pub struct NavdTurn {
    pub at: NavdPoint,
    pub side: u32,
    pub link: u32,
}

/// A floor of a column.
#[repr(C)]
#[derive(Clone, Copy)]
pub struct NavdFloor {
    pub y: u32,
    pub area: u32,
}

/// A path but for its links and turns, of which it has the counts.
#[repr(C)]
#[derive(Clone, Copy)]
pub struct NavdPath {
    pub cost: u64,
    pub first: NavdPolygon,
    pub links: usize,
    pub turns: usize,
}

/// Where a ray ends: in a polygon, or at the edge from a to b, num / den of the way along.
#[repr(C)]
#[derive(Clone, Copy)]
pub struct NavdRay {
    pub last: NavdPolygon,
    pub a: NavdPoint,
    pub b: NavdPoint,
    pub num: i64,
    pub den: i64,
}

/// The first line of a text that fails, from 1, and how.
#[repr(C)]
#[derive(Clone, Copy)]
pub struct NavdFault {
    pub line: u32,
    pub kind: u32,
}

/// How many entries the history has, the last aim saw, and the published mesh shows; and how many tiles there are, and polygons and links in
/// the published mesh.
#[repr(C)]
#[derive(Clone, Copy)]
pub struct NavdCounts {
    pub history: u32,
    pub target: u32,
    pub published: u32,
    pub tiles: u32,
    pub polygons: u32,
    pub links: u32,
}

/// How many entries a view shows, and how many tiles there are.
#[repr(C)]
#[derive(Clone, Copy)]
pub struct NavdShown {
    pub published: u32,
    pub tiles: u32,
}

/// All was done.
pub const OK: u32 = 0;
/// Memory was refused. What the call says of it holds; nothing that was there is lost.
pub const NO_MEMORY: u32 = 1;
/// The handle holds nothing.
pub const EMPTY: u32 = 2;
/// The text has a fault.
pub const FAULTY: u32 = 3;
/// A number is out of its limits.
pub const OUT_OF_RANGE: u32 = 4;
/// As many obstacles are alive as may be: the entry was made, and no obstacle.
pub const TOO_MANY: u32 = 5;
/// No obstacle with this number is alive: the entry was made, and nothing went.
pub const DEAD: u32 = 6;
/// The history has as many entries as it can have: no entry was made.
pub const HISTORY_FULL: u32 = 7;
/// Something is not built or published yet.
pub const NOT_YET: u32 = 8;
/// It was so before.
pub const SAME: u32 = 9;
/// No polygon holds the place where the path or the ray begins.
pub const NO_START: u32 = 10;
/// No polygon holds the place where the path ends.
pub const NO_GOAL: u32 = 11;
/// No walk joins the two places.
pub const NO_PATH: u32 = 12;
/// The ray ends at an edge.
pub const WALL: u32 = 13;
/// There is too little room for what is told.
pub const NO_ROOM: u32 = 14;
/// The build is wanted no more: it was let go.
pub const STALE: u32 = 15;
/// The job is of another ground.
pub const FOREIGN: u32 = 16;
/// The job's handle holds a job.
pub const BUSY: u32 = 17;
/// The triangles give more spans than a field can have.
pub const TOO_MANY_SPANS: u32 = 18;
/// The search came to its limit.
pub const LIMIT: u32 = 20;
/// The kept path leads on in part.
pub const CUT: u32 = 21;
