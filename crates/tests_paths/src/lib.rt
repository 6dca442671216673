//! Tests of what is asked of a mesh: taut paths, the polygon of a place, corridors, straight moves, walkers and whole answers; of books over
//! small grounds, of registries that are saved and restored, and that handles may go to other threads.
//!
//! The tests use public calls alone, and compare them with tables that were worked out by hand. They stand apart from what they test,
//! so that no crate is proved a second time with its tests.
#![tactic(auto)]

#[cfg(test)]
mod books;
#[cfg(test)]
mod chains;
#[cfg(test)]
mod corridors;
#[cfg(test)]
mod crossings;
#[cfg(test)]
mod hops;
#[cfg(test)]
mod late_rows;
#[cfg(test)]
mod levels;
#[cfg(test)]
mod lists;
#[cfg(test)]
mod parts;
#[cfg(test)]
mod places;
#[cfg(test)]
mod questions;
#[cfg(test)]
mod registries;
#[cfg(test)]
mod renewals;
#[cfg(test)]
mod rows;
#[cfg(test)]
mod settings;
#[cfg(test)]
mod versions;
#[cfg(test)]
mod walkers;
#[cfg(test)]
mod walks;
