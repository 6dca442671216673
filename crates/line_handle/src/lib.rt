//! The question for a shortest line over the border to C, asked of the mesh of a handle: which question the numbers that C hands over ask, and what
//! is told of the answer in the host's places.
//!
//! It ends with a status (`nav_handle/specs/Statuses`, and `specs/Statuses`): a number that is out of its limits is told before all else, and nothing
//! is asked then. A list is told as far as there is room, with how many elements it has.
#![tactic(auto)]

mod lines;

pub use lines::{ABOUT, NavdLine, find_line};
