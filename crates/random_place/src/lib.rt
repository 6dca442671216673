//! Random places on a mesh, uniform over its cells.
//!
//! The spots of a mesh are the cells of its storeys of open areas, tile by tile, storey by storey, row by row. A draw, a number of 64 bits,
//! names one of them: of n spots the one with the number draw * n / 2^64, rounded down, so that each spot has as many draws as any other, or one
//! more or less. The place drawn is the middle of that cell, on its floor, in the first polygon of the cell's storey that holds it. Where no
//! polygon does, as the outline of the storey leaves the cell out, the draw is cut, and the caller draws again. Only sums of spots take memory,
//! which are kept for later draws (`SpotSums`).
//!
//! Points are in sixteenths of a cell, columns and rows in whole cells, heights in the unit of the floors.
#![tactic(auto)]

mod counts;
mod draws;
mod spots;
mod sums;

pub use draws::{DrawAnswer, DrawPlace, draw_place, draw_place_in};
pub use sums::SpotSums;
