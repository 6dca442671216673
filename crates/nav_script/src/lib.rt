//! The script text that follows the field text: its lines, their limits, and the reader that names the first fault.
//!
//! A script text is the line `script LANES WORKERS`, with 1 to 16 lanes and 1 to 8 workers, and then at most 300000 lines:
//!
//! | Line | Limits |
//! |---|---|
//! | `lane I` | I below LANES; the lines that follow belong to this lane, those before the first such line to lane 0 |
//! | `add block X0 X1 Y0 Y1 Z0 Z1` | X and Z at most 1023, Y at most 8191, no range backwards |
//! | `add cylinder CX CZ R Y0 Y1` | CX and CZ at most 2048 half cells, R at most 1023, Y0 at most Y1 at most 8191 |
//! | `add area A block X0 X1 Y0 Y1 Z0 Z1` | A 1 to 63; else as `add block` |
//! | `add area A cylinder CX CZ R Y0 Y1` | A 1 to 63; else as `add cylinder` |
//! | `remove N` | any number |
//! | `drop J` | 1 to the number of `add` lines of this lane before |
//! | `floor X Z` | columns of at most 1023 |
//! | `path X Z Y X Z Y`, `ray X Z Y X Z` | X and Z at most 16384 sixteenths of a cell, Y at most 8191 |
//! | `settle` | |
//! | `aim`, `publish` | not in a script that runs live |
//! | `claim W`, `back W`, `submit W` | W below WORKERS; not in a script that runs live |
//! | `jump X Z Y X Z Y COST` | points as `path`, COST 1 to 1000000; at most 256 such lines; not in a script that runs live |
//! | `hop X Z Y X Z Y` | as `path`; not in a script that runs live |
//! | `send X Z Y X Z Y` | as `path`; only in a script that runs live |
//! | `march L` | 1 to 65535 sixteenths of a cell; only in a script that runs live |
//!
//! A script that runs live has at most as many `add`, `remove` and `drop` lines as a history has entries. Every line ends with a line feed.
#![tactic(auto)]

mod forms;
mod reader;
mod script;

pub use reader::read_script;
pub use script::{Line, Script, ScriptRefusal, Way};
