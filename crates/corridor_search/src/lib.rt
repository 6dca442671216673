//! Corridors: cheapest walks over the links of a mesh from one polygon to another.
//!
//! A link costs the distance between the middles of its two polygons, in sixteenths of a cell and rounded up, at least 1, times the cost of
//! the area that it enters. The search goes toward the goal first: it adds to what a walk costs so far the distance that is left.
//! On a mesh that is asked much, `landmarks_of` makes heights of its polygons over a few landmarks, by which `cheapest_by` sees farther;
//! `kept_landmarks` keeps them where tiles are replaced.
//!
//! What a search of one's own needs of the links stands here too: the vertices of polygons, the link that a step takes, what it weighs.
#![tactic(auto)]

mod changed;
mod corridors;
mod filling;
mod islands;
mod keeping;
mod landmarks;
mod mending;
mod mesh_graph;
mod ways;
mod weights;

pub use corridors::{cheapest, cheapest_by, cheapest_in};
pub use landmarks::{Landmarks, kept_landmarks, landmarks_of};
pub use mesh_graph::{link_at, link_weight, past_links, polygon_at, push_link_ends, vertex_at};
pub use weights::{distance, extent_at, middle, weight_over};
