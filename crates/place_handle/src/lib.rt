//! Questions about places on the mesh over the border to C, asked of the mesh of a handle: which questions the numbers that C hands over ask,
//! and what is told of the answers in the host's place.
//!
//! Each question is a module with a definition in `specs/`. It ends with a status (`nav_handle/specs/Statuses`, and `specs/Statuses` here): a
//! number that is out of its limits is told before all else, and nothing is asked then.
#![tactic(auto)]

mod checks;
mod draws;
mod heights;
mod near;
mod places;
mod slides;

pub use checks::is_place;
pub use draws::draw_place;
pub use heights::height;
pub use near::{NavdNear, near_of, nearest};
pub use places::{NO_PLACE, NavdPlace, place_of, place_told};
pub use slides::slide;
