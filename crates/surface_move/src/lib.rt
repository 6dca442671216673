//! Straight moves over the polygons of a mesh, in whole points; Detour's `moveAlongSurface` as far as it goes straight.
//!
//! A way from one point to another has as many steps as it is long on its longer axis, which `leg` tells. After each step at most two whole
//! points are near it: the coordinate along the longer axis is whole there, the other is rounded down and up. `part` gives how far a way leads
//! through some polygons: the most steps, up to a limit, after which a near point lies in one of them, that point and that polygon.
//!
//! For each edge of a polygon one division bounds the steps after which a near point can lie to its left, so that of a corridor of strips about
//! one step is tried. All of it is exact, in 64 bits, and takes no memory.
//!
//! Points are in sixteenths of a cell, corners of polygons in whole cells. With x drawn to the right and z upward, polygons are listed
//! counterclockwise.
#![tactic(auto)]

mod nearby;
mod parts;

pub use nearby::leg;
pub use parts::{PartEnd, part};
