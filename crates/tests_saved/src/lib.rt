//! Tests of the bytes in which a registry of obstacles is saved.
//!
//! The tests use public calls alone, and compare them with bytes that were worked out by hand. They stand apart from what they test,
//! so that no crate is proved a second time with its tests.
#![tactic(auto)]

#[cfg(test)]
mod saved;
