//! A registry of obstacles behind a handle, over the border to C: ids that stay, moved, switched on and off, and updated for a host's frame.
//!
//! Contracts see what the handle holds as the state of a registry (`obstacle_registry/specs/Registry`), or nothing. A change leaves there exactly
//! what its definition makes of it, and ends with the status of what is against it (`specs/Calls`); an update is told as `specs/Updates` says, and
//! the rows as `specs/Rows` does; what is saved and restored stands in `specs/Saves`. An obstacle crosses as a solid, whose kind says which of its
//! parts is read (`specs/Solids`): a number that is out of its limits is told before all else, and nothing is done then.
#![tactic(auto)]

mod changes;
mod handle;
mod rows;
mod saves;
mod solids;
mod updates;

pub use changes::{
    NO_OBSTACLE, NOT_SAVED, add_obstacle, enable_obstacle, mark_obstacle, move_obstacle,
    remove_obstacle,
};
pub use handle::NavdRegistry;
pub use rows::{NavdRow, tell_rows};
pub use saves::{restore_registry, save_registry};
pub use solids::{NavdDisc, NavdPrism, NavdSolid, disc_shape, prism_shape};
pub use updates::{NavdUpdated, begin_registry, close_registry, update_registry};
