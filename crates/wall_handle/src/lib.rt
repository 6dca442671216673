//! Questions about the walls around a place over the border to C, asked of the mesh of a handle: which questions the numbers that C hands over
//! ask, and what is told of the answers in the host's places.
//!
//! Each question is a module with a definition in `specs/`. It ends with a status (`nav_handle/specs/Statuses`, and `place_handle/specs/Statuses`):
//! a number that is out of its limits is told before all else, and nothing is asked then.
#![tactic(auto)]

mod around;
mod nearest;
mod walls;

pub use around::walls_around;
pub use nearest::nearest_wall;
pub use walls::{NavdAround, NavdWall};
