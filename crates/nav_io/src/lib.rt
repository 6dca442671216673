//! The outside, as the program sees it: sources of bytes, sinks of bytes, and gates that a running
//! program passes between its steps.
//!
//! A `Source` gives bytes and a `Sink` takes them, a part at a time. Where one tells its bytes,
//! contracts know what is left in the source and what the sink holds. Each has a count of faults,
//! which never falls, and a read or a write fails only where that count rose in the call (or stands at
//! the last value of a `u64`). `read_all` reads a source to its end and `write_all` writes a whole
//! text; their contracts are what a program stands on, whatever source and sink it is handed.
#![tactic(auto)]

mod calm;
mod gates;
mod memory;
mod standard;
mod streams;
mod whole;

pub use calm::{CalmSink, CalmSource};
pub use gates::{Actor, FreeGate, Gate, Stage};
pub use memory::{MemorySink, MemorySource};
pub use standard::{StdSink, StdSource};
pub use streams::{Failed, ReadRefusal, Sink, Source, WriteFault};
pub use whole::{read_all, write_all};
