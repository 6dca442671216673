//! Shortest lines: the way from one place to another by its length, and not by what its areas cost.
//!
//! `shortest` gives a taut line through the portals of a walk, a number that it is not longer than, and a number below which no line over the
//! links of the mesh comes, both in parts, of which a sixteenth of a cell has 4096. Where the two are as good as one, the line is called the
//! shortest; else it may be longer than the shortest by what lies between the two.
//!
//! The walk is looked for by cones, after Polyanya of Cui, Harabor and Grastien: a cone stands at a link and holds the last corner of a line, and
//! the two rays from it that the portals leave open. Cones are taken in order of the length of the line so far and of the straight rest. Nothing
//! is promised of that search: the links that it gives are tested to be a walk, and where they are none, or a budget ended the search, a corridor
//! of `corridor_search` takes their place.
//!
//! Points are in sixteenths of a cell, heights in the unit of the floors.
#![tactic(auto)]

mod cones;
mod images;
mod lengths;
mod met_links;
mod query;
mod search;
mod surrounded;
mod waiting;
mod walks;

pub use query::{LineFound, LineQuery, ShortestAnswer, shortest};
