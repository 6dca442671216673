//! Questions about ways over the border to C, asked of the mesh of a handle: which questions the numbers that C hands over ask, and what is told
//! of the answers in the host's places.
//!
//! Each question is a module with its struct and a definition of the same name in `specs/`. It ends with a status (`nav_handle/specs/Statuses`): a
//! number that is out of its limits is told before all else, and nothing is asked then. A list is told as far as there is room, with how
//! many elements it has.
#![tactic(auto)]

mod checks;
mod filters;
mod floods;
mod followers;
mod nearest;
mod plans;
mod reading;
mod repairs;

pub use checks::{NavdKept, check};
pub use filters::filter_of;
pub use floods::{NavdFlood, NavdReached, flood};
pub use followers::{NavdFollower, follow};
pub use nearest::{NavdGoal, NavdNearest, nearest_goal};
pub use plans::{NavdPlan, plan};
pub use reading::links_of;
pub use repairs::{NavdRepair, repair};
