//! A mutex with a journal: its threads can say afterwards that all that they did stands in one history. A pass is a thread's ticket for the
//! lock, and a turn the time in which it holds it.
//!
//! A `TurnLock` guards a value with a list of entries, a `Booked`. A thread acts on the value through a `Pass`, one
//! thread at a time. A pass has a number and knows a beginning of the list, the part that it has seen. What a mutex
//! cannot say, the lock does: each act finds a list that goes on from what its pass had seen, with no further entry of
//! that pass, and adds at most one entry, under the pass's own number. So when the lock is closed, each pass's entries
//! stand in the one list, each once, in the order in which the pass made them.
#![tactic(auto)]

mod booked;
mod lock;
pub mod pairs;
mod turns;
mod view;

pub use booked::Booked;
pub use lock::{Pass, TurnLock};
