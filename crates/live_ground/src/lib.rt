//! Ground that changes: a field gets other spans in the columns of a rectangle, as where a bridge falls or a wall is built, and the ground
//! becomes the one that would be made anew of that field.
//!
//! `KeptField` keeps the spans of a field, since a ground lets them go; `changed` gives the field with other spans in a rectangle.
//! `changed_ground` gives the ground of the changed field: the layers of the tiles in reach of the rectangle are made anew, and all others
//! are shared. `is_in_reach` says which those are: the tiles within the agent's radius and two columns of the rectangle;
//! `reached_tiles` lists them.
#![tactic(auto)]

mod ground;
mod kept_field;
mod merge;
mod reach;

pub use ground::changed_ground;
pub use kept_field::{ChangeRefusal, KeptField};
pub use reach::{is_in_reach, reached_tiles};
