//! Tests of the texts: fields and scripts that are read, and the lines that are written.
//!
//! The tests use public calls alone, and compare them with tables that were worked out by hand. They stand apart from what they test,
//! so that no crate is proved a second time with its tests.
#![tactic(auto)]

#[cfg(test)]
mod fields;
#[cfg(test)]
mod headers;
#[cfg(test)]
mod made;
#[cfg(test)]
mod records;
#[cfg(test)]
mod scripts;
#[cfg(test)]
mod texts;
#[cfg(test)]
mod triangles;
