//! Tests of crowds on meshes: straight ways of fine points, distances that are kept, moves that are clear of
//! each other, steps of crowds, also of those that steer themselves, and where kept paths lead agents.
//!
//! The tests use public calls alone, and compare them with tables that were worked out by hand. They stand apart from what they test,
//! so that no crate is proved a second time with its tests.
#![tactic(auto)]

#[cfg(test)]
mod clear_moves;
#[cfg(test)]
mod distances;
#[cfg(test)]
mod fields;
#[cfg(test)]
mod fine_ways;
#[cfg(test)]
mod leads;
#[cfg(test)]
mod meshes;
#[cfg(test)]
mod rows;
#[cfg(test)]
mod sizes;
#[cfg(test)]
mod steering;
#[cfg(test)]
mod steps;
