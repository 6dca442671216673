//! Whole numbers and whole-number geometry, the base on which every other crate stands: numbers as texts spell them, points, turns,
//! scalar products, squares of distances, deviations as exact fractions, roots rounded up and strict convexity; and the counter of
//! steps that bounded calls take.
//!
//! With x drawn to the right and z upward, a positive turn is a turn to the left, and polygons are listed counterclockwise.
#![tactic(auto)]

mod convex;
mod deviation;
mod number;
mod orientation;
mod point;
mod root;
mod step_count;

pub use convex::{dot, next_place, square_distance, strictly_convex};
pub use deviation::{Deviation, dev, exceeds, less};
pub use number::{number_at, push_number, read_number};
pub use orientation::{cross, orient};
pub use point::{FloorAt, Point, Question};
pub use root::ceil_sqrt;
pub use step_count::Steps;
