//! Tests of further questions about ways, in meshes of a few strips: ways through a filter, partial ones, floods from a place and back to it, the
//! nearest of many goals, ways from many places to one, kept paths that are checked, made whole and followed.
//!
//! The tests use public calls alone, and compare them with tables that were worked out by hand.
#![tactic(auto)]

#[cfg(test)]
mod back;
#[cfg(test)]
mod floods;
#[cfg(test)]
mod kept;
#[cfg(test)]
mod meshes;
#[cfg(test)]
mod nearest;
#[cfg(test)]
mod partial;
#[cfg(test)]
mod plans;
#[cfg(test)]
mod repairs;
