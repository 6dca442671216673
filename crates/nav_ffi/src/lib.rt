//! A level behind a handle, for hosts in C and whatever calls C. `include/navd.h` is its face; here are its promises.
//!
//! Contracts see what a handle holds as the state of a level (`NavdLevel`), or nothing. A request and a step leave there exactly what their
//! definition makes of it (`specs/Requests.antt`, `specs/Steps.antt`, `specs/Jobs.antt`, `specs/Renewing.antt`); a question leaves it as it
//! was, and its status, its counts and what it leaves in the host's arrays are those of an answer that is right in the published mesh, or what
//! there is to draw: the definitions stand in `nav_handle` with what crosses the border (`specs/Answers.antt`, `specs/Hopping.antt`,
//! `specs/Walking.antt`, `specs/Looking.antt` there), and in `specs/` of `way_handle`, `place_handle`, `place_way_handle`, `wall_handle`, `line_handle` and `crowd_handle`. How levels
//! are opened stands in `specs/Opening.antt`, `specs/Triangles.antt` and `specs/Meshes.antt`, what views show in `specs/Viewing.antt`,
//! `specs/Registries.antt` and `specs/KindViews.antt`, what the calls of a registry make of it in `registry_handle/specs`, its jobs in
//! `specs/Claims.antt`, what those of kinds do in `kinds_handle/specs`, which tiles changed in `specs/Changing.antt`, the version in
//! `specs/Version.antt`. No call asks anything of its numbers: those that are out of their limits are told so, and no others.
#![tactic(auto)]

mod between;
mod changes;
mod claims;
mod crowds;
mod goals;
mod jobs;
pub mod kind_jobs;
pub mod kind_requests;
pub mod kinds;
mod lines;
mod looking;
mod meshes;
mod opening;
mod places;
mod questions;
mod registries;
mod requests;
mod shapes;
mod version;
mod views;
mod walls;
mod ways;

pub use between::{navd_view_cast_ray_from, navd_view_find_way, navd_view_find_way_near};
pub use changes::navd_changed_tiles;
pub use claims::{
    navd_registry_claim, navd_registry_put_back, navd_registry_put_back_all, navd_registry_submit,
};
pub use crowds::{
    navd_view_crowd_enter, navd_view_crowd_grant, navd_view_crowd_slim, navd_view_crowd_step,
    navd_view_lead,
};
pub use goals::{navd_view_follow_path, navd_view_nearest_goal};
pub use jobs::{
    navd_aim, navd_build, navd_claim, navd_job_close, navd_publish, navd_put_back,
    navd_put_back_all, navd_settle, navd_step, navd_submit,
};
pub use lines::navd_view_shortest;
pub use looking::{navd_border_links, navd_inner_links, navd_obstacles, navd_polygons};
pub use meshes::{navd_dequantize, navd_frame_of, navd_open_mesh, navd_quantize};
pub use opening::{navd_close, navd_open, navd_open_triangles, navd_renew};
pub use places::{
    navd_view_height, navd_view_is_place, navd_view_nearest, navd_view_random_place,
    navd_view_slide,
};
pub use questions::{
    navd_cast_ray, navd_count, navd_find_hop, navd_find_path, navd_floors, navd_march,
    navd_prepare, navd_send,
};
pub use registries::{
    navd_registry_add, navd_registry_begin, navd_registry_close, navd_registry_enable,
    navd_registry_look, navd_registry_mark, navd_registry_move, navd_registry_remove,
    navd_registry_restore, navd_registry_rows, navd_registry_save, navd_registry_update,
};
pub use requests::{navd_add_block, navd_add_cylinder, navd_remove};
pub use shapes::{navd_add_disc, navd_add_prism};
pub use version::navd_version;
pub use views::{
    navd_look, navd_view_border_links, navd_view_cast_ray, navd_view_close, navd_view_copy,
    navd_view_count, navd_view_find_hop, navd_view_find_path, navd_view_floors,
    navd_view_inner_links, navd_view_march, navd_view_polygons, navd_view_send,
    navd_view_set_costs,
};
pub use walls::{navd_view_nearest_wall, navd_view_walls};
pub use ways::{navd_view_check_path, navd_view_flood, navd_view_plan, navd_view_repair_path};
