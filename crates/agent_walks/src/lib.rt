//! Walkers: agents that go to a goal over a mesh that changes.
//!
//! `send` places a walker at a point and finds its way to a goal. `march` moves it along the way for a length, in sixteenths of a cell along
//! the longer axis of each leg: from corner to corner of a taut line through the corridor, and then part of the leg that the length does not reach.
//! Each reads one version of the mesh, by an eye. A march finds its way anew in that version, from where the walker stands, so that after a change
//! the walker goes round what is new or takes what has opened; nothing of the old way is used.
//!
//! After each of the two the walker stands in a polygon that holds its point, and its links are a cheapest walk from there to its goal in the mesh
//! of the version, which is named by its length and goes on from all that the eye saw. Not promised: that a march of a small length moves the
//! walker at all, and that the straight way to the point where a march ends lies in the corridor.
//!
//! `send_in` and `march_in` do the same in a mesh that is at hand, whose length the caller names; `sent` and `marched` give the answers alone, and
//! `Sending` and `Marching` are the two as questions of any kind.
//!
//! Points are in sixteenths of a cell, heights in the unit of the floors. With x drawn to the right and z upward, polygons are listed
//! counterclockwise.
#![tactic(auto)]

mod eyes;
mod marching;
mod sending;
mod walkers;

pub use eyes::{Marching, Sending, march, send};
pub use marching::{march_in, marched};
pub use mesh_types::WalkAnswer;
pub use sending::{send_in, sent};
pub use walkers::{Place, Walker};
