//! Handles that C keeps: a level, a view of what a level has published, and a job that is built for a level.
//!
//! A handle is the pointer of a value on the heap, whether there is one, and an allocator without bytes; contracts see the value's state, or
//! nothing. `take` and `put` are all that is done with one. A view is an owner of the published mesh, from which one reader is answered while
//! another thread changes the level; it may have costs of areas of its own. A job is an owner of the ground, from which its tile is built, and is
//! handed in to a level whose ground is the same there. The handles may go from thread to thread.
//!
//! Beside the handles stands what crosses the border to C in plain numbers (`wire`), and how questions of a handle's mesh end (`asking`, `hops`,
//! `walkers`): with the status, the counts and the places in the host's arrays of an answer that is right in that mesh.
#![tactic(auto)]

mod asking;
mod ends;
mod faces;
mod handles;
mod hops;
mod view;
mod walkers;
mod wire;
mod work;

pub use asking::{HasMesh, cast_ray, find_floors, find_path};
pub use ends::{
    block_shape, cylinder_shape, has_coordinates, is_way, lay_links, lay_numbers, lay_turns,
    point_of, point_told, polygon_told,
};
pub use faces::{
    NavdCorner, NavdFace, NavdObstacle, lay_obstacles, tell_border_links, tell_faces,
    tell_inner_links,
};
pub use handles::{NavdJob, NavdLevel, NavdView};
pub use hops::{NavdHop, NavdJump, NavdStep, find_hop};
pub use view::{MeshView, table_of};
pub use walkers::{NavdWalker, march, send};
pub use wire::{
    BUSY, CUT, DEAD, EMPTY, FAULTY, FOREIGN, HISTORY_FULL, LIMIT, NO_GOAL, NO_MEMORY, NO_PATH,
    NO_ROOM, NO_START, NOT_YET, NavdBlock, NavdCounts, NavdCylinder, NavdFault, NavdFloor,
    NavdLink, NavdPath, NavdPoint, NavdPolygon, NavdRay, NavdShown, NavdTurn, NavdWay, OK,
    OUT_OF_RANGE, SAME, STALE, TOO_MANY, TOO_MANY_SPANS, WALL,
};
pub use work::BuildJob;
