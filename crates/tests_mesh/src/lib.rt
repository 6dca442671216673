//! Tests of the mesh: its types, regions and what is made of them (contours, outlines, triangles, pieces), strips, the mesh of a tile, its
//! build and the links over borders.
//!
//! The tests use public calls alone, and compare them with tables that were worked out by hand. They stand apart from what they test,
//! so that no crate is proved a second time with its tests.
#![tactic(auto)]

#[cfg(test)]
mod borders;
#[cfg(test)]
mod builds;
#[cfg(test)]
mod cell_rows;
#[cfg(test)]
mod checks;
#[cfg(test)]
mod contour_meshes;
#[cfg(test)]
mod contours;
#[cfg(test)]
mod cut_outlines;
#[cfg(test)]
mod five_cells;
#[cfg(test)]
mod meshes;
#[cfg(test)]
mod outlines;
#[cfg(test)]
mod polygons;
#[cfg(test)]
mod rows;
#[cfg(test)]
mod stacks;
pub mod stored;
#[cfg(test)]
mod storeys;
#[cfg(test)]
mod strip_meshes;
#[cfg(test)]
mod strips;
