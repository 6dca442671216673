//! Tests of shortest lines, in meshes of a few strips.
//!
//! The tests use public calls alone, and compare them with a table that was worked out by hand. They stand apart from what they test, so that no
//! crate is proved a second time with its tests.
#![tactic(auto)]

#[cfg(test)]
mod meshes;
#[cfg(test)]
mod rows;
