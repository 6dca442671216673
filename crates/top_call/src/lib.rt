//! The program `navd` as a call: words, a source and a sink go in, a status comes out.
//!
//! `navd` is the one top call: everything that the program promises is its contract. `run` is the same with a counter of its own, for callers
//! that count nothing. `program` is `run` on the words of an environment, to the exit status. `read_input` reads an input alone, for programs that
//! do something else with it.
#![tactic(auto)]

mod answer;
mod exit;
mod made;
mod top;
mod words;

pub use answer::{Input, InputRefusal, read_input};
pub use exit::program;
pub use top::{navd, run};
pub use words::Status;
