//! Questions about ways between places over the border to C, asked of the mesh of a handle: which questions the numbers that C hands over ask,
//! and what is told of the answers in the host's places.
//!
//! Each question is a module with a definition in `specs/`. It ends with a status (`nav_handle/specs/Statuses`): a number that is out of its
//! limits is told before all else, and nothing is asked then. A list is told as far as there is room, with how many elements it has.
#![tactic(auto)]

mod found;
mod rays;
mod snapped;
mod ways;

pub use found::NavdFoundWay;
pub use rays::cast_ray_from;
pub use snapped::{NavdNearWay, find_way_near};
pub use ways::{NavdPlaceWay, find_way};
