//! Lists and shared values as contracts see them: `Items` is a vector seen as the list of its elements, `Shared` a value with several owners
//! seen as that value, and `Chunks` a list in shared chunks seen as the list.
//!
//! A record with a field `cells: Items<Cell>` is, in every contract and definition, a record whose `cells` is a plain list of cells, so two
//! such records are equal exactly where their lists are. Room and place in memory are not part of the value.
//!
//! A mesh is published again and again with a few of thousands of tiles changed. What stays is shared between the old mesh and the new one: a
//! copy of a `Shared<T>` costs one count, and a list that differs from another in one place costs one chunk of 32 of a `Chunks<T>`.
#![tactic(auto)]

mod chunks;
mod items;
mod shared;

pub use chunks::Chunks;
pub use items::{Duplicate, Items};
pub use shared::Shared;
