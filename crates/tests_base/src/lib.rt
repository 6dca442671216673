//! Tests of the lists, the counters, the streams, the geometry, the texts, the lock and the search on which the other crates stand.
//!
//! The tests use public calls alone, and compare them with tables that were worked out by hand. They stand apart from what they test,
//! so that no crate is proved a second time with its tests.
#![tactic(auto)]

#[cfg(test)]
mod checks;
#[cfg(test)]
mod geometry;
#[cfg(test)]
mod grids;
#[cfg(test)]
mod lines;
#[cfg(test)]
mod lists;
#[cfg(test)]
mod numbers;
#[cfg(test)]
mod sharing;
#[cfg(test)]
mod steps;
#[cfg(test)]
mod streams;
#[cfg(test)]
mod turns;
#[cfg(test)]
mod walks;
