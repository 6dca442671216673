//! Floods: the polygons within a cost of a place, or from which it is reached within a cost.

ghost use Rattle.std.specs.Prelude.{◌≡◌, ◌≤◌, ℕ, IfNone, IfSome, Option, map};
ghost use Rattle.mesh_types.specs.declared.mesh.Mesh.{Mesh};
ghost use Rattle.path_queries.specs.Floods.{CanFlood};
ghost use Rattle.nav_handle.specs.Answers.{EndsSo, IsAskedBy, IsRepliedBy, seen_in};
ghost use Rattle.nav_handle.specs.Statuses as status;
ghost use Rattle.nav_handle.specs.Wire.{laid};
ghost use Rattle.way_handle.specs.Flooding.{CanAskFlood, FloodRoom, IsRightRound, flood_asked, flood_ends, told_flood};

use crate::filters::filter_of;
use nav_handle::{
    HasMesh, NO_START, NavdPoint, NavdPolygon, NavdView, OK, OUT_OF_RANGE, has_coordinates,
    point_of, polygon_told,
};
use path_queries::{FloodAnswer, FloodQuery, Flooded};
use std::alloc::Global;

/// The place from which a flood begins, or with `back` 1, not 0, to which it leads; which areas may be entered, bit a for area a, and up to which
/// cost, which the host writes; and how many polygons it has, which the call tells.
#[repr(C)]
#[derive(Clone, Copy)]
pub struct NavdFlood {
    pub at: NavdPoint,
    pub y: u32,
    pub back: u32,
    pub areas: u64,
    pub most_cost: u64,
    pub polygons: usize,
}

/// A polygon of a flood, what a cheapest walk to it costs, and the place in the array of the polygon before it on such a walk, from 0. Of a flood
/// back: what one from there costs, and the place of the polygon behind it.
#[repr(C)]
#[derive(Clone, Copy)]
pub struct NavdReached {
    pub polygon: NavdPolygon,
    pub cost: u64,
    pub via: usize,
}

/// The question for a flood, if it may be asked.
fn query_of(flood: &NavdFlood, costs: &[u32]) -> Option<FloodQuery>
    ensures query { IfSome result (λ query. query ≡ flood_asked flood.now costs.now) }
    ensures rules { IfSome result CanFlood }
    ensures none { IfNone result (CanAskFlood flood.now costs.now → ⊥) }
    ensures round { IfSome result (λ query. flood.now.back ≤ 1) }
{
    if flood.back > 1 || !has_coordinates(flood.at) {
        return None;
    }
    let filter = filter_of(flood.areas, costs)?;
    Some(FloodQuery {
        at: point_of(flood.at),
        y: flood.y,
        filter,
        most_cost: flood.most_cost,
    })
}

fn reached_told(entry: Flooded) -> NavdReached
    ensures { result ≡ Rattle.way_handle.specs.Flooding.reached_told entry }
{
    NavdReached {
        polygon: polygon_told(entry.at),
        cost: entry.cost,
        via: entry.via,
    }
}

/// Lays the polygons of a flood into a room.
fn lay_reached(list: &[Flooded], room: &mut [NavdReached])
    ensures { room.new ≡ laid (map Rattle.way_handle.specs.Flooding.reached_told list.now) room.old }
{
    let count = list.len().min(room.len());
    for place in 0..count {
        room[place] = reached_told(list[place]);
    }
}

/// How the question for a flood ends with an answer.
fn flood_status(answer: &FloodAnswer) -> u32
    ensures { result ≡ flood_ends answer.now }
{
    match answer {
        FloodAnswer::Flooded(_) => OK,
        FloodAnswer::NoStart => NO_START,
    }
}

/// Tells the polygons of a flood, if the answer is one.
fn tell_flood(answer: &FloodAnswer, flood: &mut NavdFlood, reached: &mut [NavdReached])
    ensures { (flood.new, reached.new) ≡ told_flood answer.now (flood.old, reached.old) }
{
    match answer {
        FloodAnswer::Flooded(list) => {
            lay_reached(list.as_slice(), reached);
            flood.polygons = list.len();
        }
        FloodAnswer::NoStart => {}
    }
}

/// How the question for a flood ends.
fn end_flood(
    answer: Result<FloodAnswer, u32>,
    flood: &mut NavdFlood,
    reached: &mut [NavdReached],
) -> u32
    ensures { (held : Option Mesh) (back : ℕ) (query : FloodQuery) → IsRepliedBy (IsRightRound back query) held answer
        → IsAskedBy (IsRightRound back query) flood_ends told_flood held (flood.old, reached.old) (flood.new, reached.new) result }
{
    match answer {
        Ok(answer) => {
            tell_flood(&answer, flood, reached);
            flood_status(&answer)
        }
        Err(status) => status,
    }
}

/// The answer to the question for a flood, or with `back` 1 for a flood back, in what a view shows; else the status that says why there is none.
fn ask_flood(
    alloc: Global,
    view: &mut NavdView,
    back: u32,
    query: &FloodQuery,
) -> Result<FloodAnswer, u32>
    requires { CanFlood query.now }
    ensures same { view.new.view ≡ view.old.view }
    ensures replied { IsRepliedBy (IsRightRound back query.now) (seen_in view.old.view) result }
{
    if back == 1 {
        view.flood_back(alloc, query)
    } else {
        view.ask_in_room(alloc, query)
    }
}

/// The polygons within a cost of a place in what a view shows, through a filter; or those from which it is reached within that.
pub fn flood(
    alloc: Global,
    view: &mut NavdView,
    flood: &mut NavdFlood,
    costs: &[u32],
    reached: &mut [NavdReached],
) -> u32
    ensures asked { CanAskFlood flood.old costs.now → IsAskedBy (IsRightRound flood.old.back (flood_asked flood.old costs.now)) flood_ends told_flood
        (seen_in view.old.view) (flood.old, reached.old) (flood.new, reached.new) result }
    ensures refused { (CanAskFlood flood.old costs.now → ⊥)
        → EndsSo {Room = FloodRoom} status.out_of_range (flood.old, reached.old) (flood.new, reached.new) result }
    ensures same { view.new.view ≡ view.old.view }
{
    let Some(query) = query_of(flood, costs) else {
        return OUT_OF_RANGE;
    };
    let answer = ask_flood(alloc, view, flood.back, &query);
    end_flood(answer, flood, reached)
}
