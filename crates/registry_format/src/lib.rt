//! The bytes in which a registry of obstacles is saved.
//!
//! A saved registry is a list of words of 32 bits, each as four bytes, the least first (`specs/Spelling`): what the format is, the field that it is
//! of, the last id, the version, a row of 21 words for each obstacle, and the places of those rows that are on, in the order in which they were put
//! up. `save_bytes` writes it, and `read_saved` reads exactly what it writes: for other bytes there is none.
//!
//! `saved`: what is saved. `writing`: its words and bytes. `reading`: what words spell. `rules`: what a saved registry keeps.
#![tactic(auto)]

mod reading;
mod rules;
mod saved;
mod shapes;
mod writing;

pub use reading::{SavedFault, read_saved};
pub use saved::{SavedField, SavedObstacle, SavedRegistry};
pub use writing::save_bytes;
