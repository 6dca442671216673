//! Ways between two places, through a filter.

ghost use Rattle.std.specs.Prelude.{◌≡◌, IfNone, IfSome, Option};
ghost use Rattle.mesh_types.specs.declared.mesh.Mesh.{Mesh};
ghost use Rattle.nav_handle.specs.Answers.{EndsSo, IsAskedBy, IsRepliedBy};
ghost use Rattle.nav_handle.specs.Statuses as status;
ghost use Rattle.place_way_handle.specs.Finding.{found_ends};
ghost use Rattle.place_way_handle.specs.Joining.{WayRoom, told_way, way_asked};
ghost use Rattle.place_ways.specs.declared.ways.PlaceWayQuery.{PlaceWayQuery};
ghost use Rattle.place_ways.specs.Ways.{CanAskWay, IsRightPlaceWay};

use crate::found::{NavdFoundWay, found_status, tell_found};
use nav_handle::{HasMesh, NavdLink, OUT_OF_RANGE, has_coordinates};
use place_handle::{NavdPlace, place_of};
use place_ways::{PlaceWayAnswer, PlaceWayQuery};
use std::alloc::Global;
use way_handle::filter_of;

/// From which place to which a way leads, which areas it may enter, bit a for area a, and what ends the search for it, which the host writes; and
/// what is found, which the call tells.
#[repr(C)]
#[derive(Clone, Copy)]
pub struct NavdPlaceWay {
    pub from: NavdPlace,
    pub to: NavdPlace,
    pub areas: u64,
    pub most_cost: u64,
    pub most_polygons: usize,
    pub found: NavdFoundWay,
}

/// The question for a way, if it may be asked.
fn query_of(way: &NavdPlaceWay, costs: &[u32]) -> Option<PlaceWayQuery>
    ensures query { IfSome result (λ query. query ≡ way_asked way.now costs.now) }
    ensures rules { IfSome result CanAskWay }
    ensures none { IfNone result (CanAskWay (way_asked way.now costs.now) → ⊥) }
{
    if !has_coordinates(way.from.at) || !has_coordinates(way.to.at) {
        return None;
    }
    let filter = filter_of(way.areas, costs)?;
    Some(PlaceWayQuery {
        from: place_of(&way.from),
        goal: place_of(&way.to),
        filter,
        most_cost: way.most_cost,
        most_polygons: way.most_polygons,
    })
}

/// How the question for a way ends.
fn end_way(
    answer: Result<PlaceWayAnswer, u32>,
    way: &mut NavdPlaceWay,
    links: &mut [NavdLink],
    corners: &mut [NavdPlace],
) -> u32
    ensures { (held : Option Mesh) (query : PlaceWayQuery) → IsRepliedBy (IsRightPlaceWay query) held answer
        → IsAskedBy (IsRightPlaceWay query) found_ends told_way held (way.old, links.old, corners.old) (way.new, links.new, corners.new) result }
{
    match answer {
        Ok(answer) => {
            tell_found(&answer, &mut way.found, links, corners);
            found_status(&answer)
        }
        Err(status) => status,
    }
}

/// A cheapest way between two places of the mesh of a handle, through a filter, and the corners of a taut line through its portals as places.
pub fn find_way<H: HasMesh>(
    alloc: Global,
    held: &mut H,
    way: &mut NavdPlaceWay,
    costs: &[u32],
    links: &mut [NavdLink],
    corners: &mut [NavdPlace],
) -> u32
    ensures asked { CanAskWay (way_asked way.old costs.now) → IsAskedBy (IsRightPlaceWay (way_asked way.old costs.now)) found_ends told_way
        (H.mesh_in held.old) (way.old, links.old, corners.old) (way.new, links.new, corners.new) result }
    ensures refused { (CanAskWay (way_asked way.old costs.now) → ⊥)
        → EndsSo {Room = WayRoom} status.out_of_range (way.old, links.old, corners.old) (way.new, links.new, corners.new) result }
    ensures same { H.is_same held.old held.new }
{
    let Some(query) = query_of(way, costs) else {
        return OUT_OF_RANGE;
    };
    let answer = held.ask_by(alloc, &query);
    end_way(answer, way, links, corners)
}
