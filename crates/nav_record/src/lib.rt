//! The lines of the output: what became of requests, questions and steps, the entries of a history, faults, beginnings and ends.
//!
//! Each function appends the whole lines of one answer to the bytes that are written so far, exactly as its definition in `specs/`
//! spells them, or appends nothing where memory is refused. Where the vector has the room for all of them, it succeeds. All is one line but a
//! path or a hop walk, which has one more for each step and each turn, and a walker, which has one more for each link.
#![tactic(auto)]

mod answer;
mod append;
mod entry;
mod hops;
mod step;

pub use answer::{write_answer, write_reply};
pub use entry::{write_done, write_entry, write_fault, write_final, write_history, write_lane};
pub use hops::{write_hop, write_no_walker, write_walk};
pub use step::{StepAnswer, Totals, write_step};
