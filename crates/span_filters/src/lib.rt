//! Heightfield filters (Recast's low hanging obstacles, ledge spans and low height spans): which spans of a field an agent can walk on.
//!
//! Three filters, each of which reads the areas as they were before it: a low hanging span takes the area of the span that it lies on, a
//! ledge is nobody's ground, and neither is a span under a low ceiling. Their order and the rules of the first and the last are those of
//! Recast (Mikko Mononen's library for navigation meshes); the rule of ledges is our own. All of them take time in proportion to the number
//! of spans.
//!
//! Each of the three calls gives exactly the areas that its rule leaves, one a span, and `filtered` those that all three leave one after
//! the other. Only memory can be refused.
#![tactic(auto)]

mod filters;
mod gaps;

pub use filters::{filtered, ledges, low_ceilings, low_hanging};
