//! Tests of places on meshes: the nearest place, heights, whether a place is one of the mesh, random places, slides, and ways between places.
//!
//! The tests use public calls alone, and compare them with tables that were worked out by hand. They stand apart from what they test,
//! so that no crate is proved a second time with its tests.
#![tactic(auto)]

#[cfg(test)]
mod draws;
#[cfg(test)]
mod fields;
#[cfg(test)]
mod heights;
#[cfg(test)]
mod meshes;
#[cfg(test)]
mod nearest;
#[cfg(test)]
mod rows;
#[cfg(test)]
mod slides;
#[cfg(test)]
mod snapped;
#[cfg(test)]
mod storeys;
#[cfg(test)]
mod walls;
#[cfg(test)]
mod ways;
