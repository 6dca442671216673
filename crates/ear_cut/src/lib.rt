//! An outline cut into triangles, ear by ear.
//!
//! Three successive corners of what remains are an ear where the outline turns to the left at the middle one and no other corner lies in
//! their triangle. The narrowest ear is cut off until three corners remain: by its neighbours' distance, and of equally narrow ones the first.
//! Where the outline crosses itself there may be no ear, and then the places that remain are the answer.
//!
//! Corners are named by their places in the outline, from 0. Triangles run counterclockwise.
#![tactic(auto)]

mod cut;
mod ear;

pub use cut::{EarRefusal, ears};
