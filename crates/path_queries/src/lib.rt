//! Ways through a filter: a question for a path that says which areas may be entered, and what each costs.
//!
//! A filter has a bit for each of the 64 areas, and may have costs of its own. An allowed walk enters polygons of open areas alone; the
//! polygon in which it begins is not entered, so that one who stands in a closed area walks out of it. `plan` gives a cheapest allowed walk
//! with a taut line through its portals, and says that there is none exactly where no allowed walk leads to the goal's polygon. With all
//! areas open and no costs of its own it answers as `nav_query` does. A question may limit the cost and the polygons of the search; where a
//! limit ends it, the answer says what each allowed walk to the goal costs at least. Where it asks for a partial way, it is answered by the way
//! to the place nearest to the goal, if none to the goal is found. After Detour's `dtQueryFilter`, whose costs may also be
//! less than 1.
//! `flood` gives the polygons to which allowed walks lead within a cost, each with what the cheapest of them costs. `nearest_goal` tells which
//! of many goals the cheapest allowed walk leads to, by one search. `flood_back` gives the polygons from which allowed walks lead to a place
//! within a cost, and `plans_to` answers the questions for ways from many places to one goal, by one search back from it: both ask that
//! the links of the mesh lead there and back. Each of them is one search; those whose names end in `_in` work in room that an earlier search
//! may have left.
//!
//! Points are in sixteenths of a cell, heights in the unit of the floors.
#![tactic(auto)]

mod asking;
mod back_graph;
mod batch;
mod filtered_graph;
mod filters;
mod floods;
mod floods_back;
mod leaving;
mod nearest;
mod partial;
mod plans;
pub mod reach;
mod searches;
mod spots;

pub use asking::AskedIn;
pub use batch::{plans_to, plans_to_in};
pub use filtered_graph::step_cost;
pub use filters::{Filter, is_open};
pub use floods::{FloodAnswer, FloodQuery, Flooded, flood, flood_in};
pub use floods_back::{flood_back, flood_back_in};
pub use leaving::{inner, outer};
pub use mesh_types::PathFound;
pub use nearest::{Goal, NearestAnswer, NearestQuery, nearest_goal, nearest_goal_in};
pub use plans::{
    PathQuery, PlanAnswer, WalkEnds, WayEnd, cheapest_allowed, cheapest_allowed_in, plan, plan_in,
    turns,
};
