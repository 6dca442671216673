//! Laws of the storeys of built meshes.
//!
//! What a mesh is defined to be says of each storey which floors it has. The calls here do nothing; they ensure what follows of the mesh of every ground
//! under every list of obstacles: how storeys share the free cells, that they keep the climb, that points of polygons are places, and that heights, ends
//! of slides and corners of ways are.
#![tactic(auto)]

mod answers;
mod laws;

pub use answers::{
    draws_on_strips_are_whole, heights_are_told, slides_end_at_places, ways_turn_at_places,
};
pub use laws::{
    corners_are_places, corners_stand, held_points_are_places, points_of_strips_stand,
    polygons_tell_floors, storeys_keep_climb, storeys_share_free_cells,
};
