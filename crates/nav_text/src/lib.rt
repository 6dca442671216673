//! The line format of every text: lines, words and numbers on a line, read and appended, and faults with their lines.
//!
//! A line ends with one line feed. Its words are separated by exactly one space each, and there is no other white space.
//! A number is `0`, or digits of which the first is not `0`, of value at most 4294967295.
#![tactic(auto)]

mod fault;
mod line;

pub use fault::{FaultKind, TextFault};
pub use line::{append_line, append_number, first_line, has_word, number_after, numbers_of};
