//! Moves of a crowd: which of those that its agents would like are granted in one step.
//!
//! Agents are discs that go straight and evenly for one step. `stays_beyond` tells exactly, in whole numbers, whether two keep a distance at every
//! moment of the step, its ends included. `is_clear` asks it of two agents with their moves: who is apart stays apart, who overlaps comes no nearer,
//! and who passes over other storeys is let past.
//!
//! A step begins with `stand`: all stand, and their moves are clear of each other. `grant` gives agents in turn the first move of their lists that
//! they may make and that is clear of the moves of all others, and keeps that all are. So any steering may wish for moves, in any order; whichever
//! are granted keep the laws, and who has nobody near gets the first that it may make. `find_contacts` finds who is near whom in a grid of cells.
//! Whether an agent may make a move is asked of a `MoveSpace`. `order_by_key` puts places of a list in the order of numbers.
//!
//! Points, radii and speeds are in fine units, 1/256 of a cell.
#![tactic(auto)]

mod agents;
mod beyond;
mod contacts;
mod grid;
mod keyed;
mod laws;
mod lists;
mod pairs;
mod space;
mod steps;
mod turns;
mod wishes;

pub use agents::{CrowdAgent, CrowdMove, standing};
pub use beyond::stays_beyond;
pub use contacts::{Contacts, find_contacts};
pub use keyed::{KeyedPlace, order_by_key};
pub use laws::{no_nearer, stay_apart};
pub use pairs::{has_room, has_sizes, is_apart, is_clear, is_mover};
pub use space::MoveSpace;
pub use steps::stand;
pub use turns::{Crowd, grant};
pub use wishes::CrowdWishes;
