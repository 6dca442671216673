//! Laws of outlines: at an error up to 49 no contour is flat.
//!
//! The error of outlines is in hundredths of a squared cell. A contour is flat where fewer than three of its corners are kept, and then its whole tile is
//! made of strips. The calls here do nothing; they ensure that of a ring of unit edges three corners or more are kept at each error up to 49, that the
//! contours of regions are such rings, and what follows for built meshes. At each greater error the contour of one cell is flat: two of its four corners
//! are kept, and the others lie half a diagonal, the root of one half, from the segment between those.
#![tactic(auto)]

mod laws;
#[cfg(test)]
mod rows;

pub use laws::{
    contours_are_unit_rings, regions_are_not_flat, some_unit_rings_are_flat, tiles_are_of_outlines,
    unit_rings_are_not_flat, unit_rings_keep_three,
};
