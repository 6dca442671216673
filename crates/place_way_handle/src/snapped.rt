//! Ways between the places that are nearest to two points, through a filter.

ghost use Rattle.std.specs.Prelude.{◌≡◌, IfNone, IfSome, Option};
ghost use Rattle.mesh_types.specs.declared.mesh.Mesh.{Mesh};
ghost use Rattle.nav_handle.specs.Answers.{EndsSo, IsAskedBy, IsRepliedBy};
ghost use Rattle.nav_handle.specs.Statuses as status;
ghost use Rattle.near_ways.specs.declared.snapped.NearWayQuery.{NearWayQuery};
ghost use Rattle.near_ways.specs.NearWays.{CanAskNearWay, IsRightNearWay};
ghost use Rattle.place_way_handle.specs.Finding.{found_ends};
ghost use Rattle.place_way_handle.specs.Snapping.{NearWayRoom, near_way_asked, told_near_way};

use crate::found::{NavdFoundWay, found_status, tell_found};
use nav_handle::{HasMesh, NavdLink, OUT_OF_RANGE};
use near_ways::NearWayQuery;
use place_handle::{NavdNear, NavdPlace, near_of};
use place_ways::PlaceWayAnswer;
use std::alloc::Global;
use way_handle::filter_of;

/// Near which point and height a way begins and near which it ends, which areas it may enter, bit a for area a, and what ends the search for it,
/// which the host writes; and what is found, which the call tells.
#[repr(C)]
#[derive(Clone, Copy)]
pub struct NavdNearWay {
    pub from: NavdNear,
    pub to: NavdNear,
    pub areas: u64,
    pub most_cost: u64,
    pub most_polygons: usize,
    pub found: NavdFoundWay,
}

/// The question for a way, if it may be asked.
fn query_of(way: &NavdNearWay, costs: &[u32]) -> Option<NearWayQuery>
    ensures query { IfSome result (λ query. query ≡ near_way_asked way.now costs.now) }
    ensures rules { IfSome result CanAskNearWay }
    ensures none { IfNone result (CanAskNearWay (near_way_asked way.now costs.now) → ⊥) }
{
    let from = near_of(&way.from)?;
    let goal = near_of(&way.to)?;
    let filter = filter_of(way.areas, costs)?;
    Some(NearWayQuery {
        from,
        goal,
        filter,
        most_cost: way.most_cost,
        most_polygons: way.most_polygons,
    })
}

/// How the question for a way ends.
fn end_near_way(
    answer: Result<PlaceWayAnswer, u32>,
    way: &mut NavdNearWay,
    links: &mut [NavdLink],
    corners: &mut [NavdPlace],
) -> u32
    ensures { (held : Option Mesh) (query : NearWayQuery) → IsRepliedBy (IsRightNearWay query) held answer
        → IsAskedBy (IsRightNearWay query) found_ends told_near_way held (way.old, links.old, corners.old) (way.new, links.new, corners.new) result }
{
    match answer {
        Ok(answer) => {
            tell_found(&answer, &mut way.found, links, corners);
            found_status(&answer)
        }
        Err(status) => status,
    }
}

/// A cheapest way between the places of the mesh of a handle that are nearest to two points, through a filter, and the corners of a taut line
/// through its portals as places, of which these two are the first and the last.
pub fn find_way_near<H: HasMesh>(
    alloc: Global,
    held: &mut H,
    way: &mut NavdNearWay,
    costs: &[u32],
    links: &mut [NavdLink],
    corners: &mut [NavdPlace],
) -> u32
    ensures asked { CanAskNearWay (near_way_asked way.old costs.now) → IsAskedBy (IsRightNearWay (near_way_asked way.old costs.now)) found_ends
        told_near_way (H.mesh_in held.old) (way.old, links.old, corners.old) (way.new, links.new, corners.new) result }
    ensures refused { (CanAskNearWay (near_way_asked way.old costs.now) → ⊥)
        → EndsSo {Room = NearWayRoom} status.out_of_range (way.old, links.old, corners.old) (way.new, links.new, corners.new) result }
    ensures same { H.is_same held.old held.new }
{
    let Some(query) = query_of(way, costs) else {
        return OUT_OF_RANGE;
    };
    let answer = held.ask_by(alloc, &query);
    end_near_way(answer, way, links, corners)
}
