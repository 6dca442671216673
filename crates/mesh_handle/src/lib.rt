//! A game's own numbers over the border to C: frames, places, and the arrays of a mesh.
//!
//! `frame_over` puts a field around two points; `places_of` turns points of the game into places of a frame, one after the other, and tells
//! how many; `points_of` turns places into points. `field_of` makes the field of a mesh: its triangles as `mesh_input` adds them, and what they leave in the columns as
//! `tri_raster` says; `end_mesh` tells why there is none.
//!
//! No call asks anything of its numbers: those that are out of their limits are told so, and no others. Each ends with a status
//! (`specs/Statuses`).
#![tactic(auto)]

mod ends;
mod frames;
mod input;
mod points;
mod setting;
mod statuses;
mod wire;

pub use ends::end_mesh;
pub use frames::frame_over;
pub use input::{MeshEnd, MeshField, field_of};
pub use points::{places_of, points_of};
pub use setting::{asked_setting, setting_of};
pub use wire::{NavdMesh, NavdMeshFault, NavdSetting, NavdSlope};
