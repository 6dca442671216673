//! Crowds over the border to C, asked of the mesh of a handle: which steps and questions the numbers that C hands over ask, and what is told of the
//! answers in the host's places.
//!
//! Each call is a module with a definition in `specs/`. It ends with a status (`nav_handle/specs/Statuses`, and `specs/Statuses` here): a number that
//! is out of its limits is told before all else, and nothing is asked then. The agents of a crowd are the host's own: a call reads them anew each
//! time, finds out where they stand, and tells it only where all went well.
#![tactic(auto)]

mod agents;
mod enters;
mod grants;
mod leads;
mod slimming;
mod steering;
mod stepping;

pub use agents::{NavdAgent, NavdCrowd, NavdFine};
pub use enters::{EnterAnswer, OVERLAPS, enter};
pub use grants::grant_wishes;
pub use leads::lead_agent;
pub use slimming::slim_crowd;
pub use stepping::{CrowdAfter, step_crowd};
