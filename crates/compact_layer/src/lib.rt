//! The compact heightfield: the cells of a field, where an agent can stand, and to which cell of each neighbouring column it can step.
//!
//! `compact` gives exactly the compact cells of the definition, which keep the rules of compact cells: they are in order, and connections
//! lead both ways. `neighbour` gives the place of the cell that a cell is connected to, which is one of the list. After Recast's compact
//! height field.
#![tactic(auto)]

mod compact_field;
mod places;
mod sweep;

pub use compact_field::{CompactField, compact};
pub use places::neighbour;
