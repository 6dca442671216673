//! Floats of a game on grids of whole numbers, by one exact law.
//!
//! A step is the size of a cell or a height unit, or 2^k times finer. `step_of` gives it, `quantize` the number of steps that is nearest to
//! a float, of two the even one, and `dequantize` the float nearest to a number of steps. `frame_of` puts a field around two points, and
//! `place_of` gives the place of a point in it, `point_of` the point of a place. All of them are exact, take no memory and answer alike on each machine. Grids are counted
//! from 0 of the game's numbers, so that moving a level's corner moves no grid.
//!
//! Sizes and floats are in the game's unit, mostly metres.
#![tactic(auto)]

mod float_parts;
mod frame;
mod grid_step;
mod place;
mod steps;

pub use frame::{Frame, FramedField, STEP_LIMIT, WorldPoint, frame_of};
pub use grid_step::GridStep;
pub use place::{FramePlace, place_of, point_of};
pub use steps::{dequantize, quantize, step_of};
