//! The contour set of a tile before it is simplified: the edges at the rim of each region, once round it, with the region on their left.
//!
//! A region has one run of cells in each row, and the runs of successive rows overlap. So its rim is walked without looking for the next
//! edge: along the bottom of the first row, up the right side, back along the top of the last row, and down the left side. The codes of the
//! edges are read from two tables that are made once a tile: the neighbour table of its cells, and the number of the region of each.
//!
//! Units: corners are in whole cells. With x drawn to the right and z upward, contours run counterclockwise.
#![tactic(auto)]

mod codes;
mod owners;
mod round;
mod sides;

pub use codes::{RegionRim, RegionTable, is_crossing, region_table, region_table_over};
pub use owners::{index_of, left_end_over, next, place_in};
pub use round::{contour, contour_over};
