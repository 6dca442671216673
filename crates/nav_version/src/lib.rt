//! Versions of a ground's mesh, which readers (`Eye`) ask without a lock, while one publisher (`Press`) shows the next.
//!
//! A `Version` is a ground, the entries of its history so far, and the mesh with the obstacles that they leave. `pair` makes one `Press`,
//! which publishes versions, and an `Eye` for each reader, which asks. An eye takes no lock and does not wait; it answers from one
//! published version, which goes on from all that the eye saw before and from all lengths that it learnt of. A `Told` names a published
//! length to an eye.
//!
//! Contracts see of a press its pair, its ground and the published entries; of an eye its pair, its ground, and the longest list of entries
//! that it saw or learnt of. Lists are all that versions are told apart by: the mesh is that of the ground and the list. They are all
//! beginnings of one history, which only grows (`specs/Histories.antt`). Between any two steps the rule of `specs/VersionRule.antt` holds:
//! the press and the eyes are of one pair, and what is shown only grows, since it goes on from all that the press and the eyes know.
#![tactic(auto)]

mod entries;
mod eye;
mod press;
mod rule;
mod version;

pub use entries::Entries;
pub use eye::Eye;
pub use press::{Patch, Press, pair};
pub use rule::Told;
pub use version::Version;
