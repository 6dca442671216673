//! Made inputs: a level and a script that a number and a size determine, and the summary of their play.
//!
//! The numbers come from draws. The state is a number below 2^64, at first the number that the input is made of; a draw multiplies it by
//! 6364136223846793005, adds 1442695040888963407, takes the rest modulo 2^64, and gives that divided by 2^33, rounded down. The text has these lines:
//!
//! | Lines | What they say |
//! |---|---|
//! | `nav 1`, `size SIZE SIZE`, `tile 32`, `agent 10 4 2`, `error 169`, `mesh contours`, `limit 64` | the setting |
//! | `span X Z 0 40 0` or `span X Z 0 TOP 63`, for each z and, within it, each x | one draw n: the first where n modulo 64 is 0, else TOP is 10 + (n / 64) modulo 2 |
//! | `end`, `script 1 1` | |
//! | 64 rounds, below | seven draws each |
//!
//! The lines of a round are `add cylinder CX CZ R 0 100`; from the ninth on `drop J`, the obstacle of eight rounds before; `aim`; eight times
//! `claim 0` and `submit 0`; `publish`; and `path X1 Z1 10 X2 Z2 10`. The draws are, in this order, CX and CZ modulo 2 * SIZE + 1, R modulo 8,
//! and X1, Z1, X2 and Z2 modulo 16 * SIZE.
#![tactic(auto)]

mod field;
mod report;
mod script;

pub use report::{line_count, make, summary};
