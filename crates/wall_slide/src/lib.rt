//! Slides: straight moves from a place of a mesh toward a point, along walls and never off the mesh; Detour's `moveAlongSurface`.
//!
//! `gather` lists the polygons that a slide looks at: those to which links lead into open areas through portals that touch the disc whose
//! diameter is the way from the start to the target. `slide` ends at a point of one of them, no farther from the start than the target is,
//! such that no other such point is nearer to the target. Where the start's polygon holds the target, it takes no memory.
//!
//! Points are in sixteenths of a cell, corners of polygons in whole cells, heights in the unit of the floors.
#![tactic(auto)]

mod around;
mod corners;
mod discs;
mod facing;
mod feet;
mod questions;
mod rows;
mod slides;

pub use mesh_place::MeshPlace;
pub use questions::{Slide, SlideAnswer};
pub use slides::slide;
