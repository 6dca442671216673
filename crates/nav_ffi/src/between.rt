//! Questions about ways between places, and about straight walks from places, asked of what a view shows.

ghost use Rattle.std.specs.Prelude.{◌≡◌};
ghost use Rattle.nav_handle.specs.Answers.{EndsSo, IsAskedBy, seen_in};
ghost use Rattle.nav_handle.specs.Statuses as status;
ghost use Rattle.near_ways.specs.NearWays.{CanAskNearWay, IsRightNearWay};
ghost use Rattle.place_way_handle.specs.Casting.{IsCastBy, ray_asked, ray_ends, told_ray};
ghost use Rattle.place_way_handle.specs.Finding.{found_ends};
ghost use Rattle.place_way_handle.specs.Joining.{WayRoom, told_way, way_asked};
ghost use Rattle.place_way_handle.specs.Snapping.{NearWayRoom, near_way_asked, told_near_way};
ghost use Rattle.place_ways.specs.Rays.{CanAskRay};
ghost use Rattle.place_ways.specs.Ways.{CanAskWay, IsRightPlaceWay};

use nav_handle::{NavdLink, NavdPoint, NavdRay, NavdView};
use place_handle::NavdPlace;
use place_way_handle::{NavdNearWay, NavdPlaceWay};
use std::alloc::Global;

/// A cheapest way between two places of the mesh that a view shows, through a filter, and the corners of a taut line through its portals as places.
#[unsafe(no_mangle)]
pub extern "C" fn navd_view_find_way(
    alloc: Global,
    view: &mut NavdView,
    way: &mut NavdPlaceWay,
    costs: &[u32],
    links: &mut [NavdLink],
    corners: &mut [NavdPlace],
) -> u32
    ensures asked { CanAskWay (way_asked way.old costs.now) → IsAskedBy (IsRightPlaceWay (way_asked way.old costs.now)) found_ends told_way
        (seen_in view.old.view) (way.old, links.old, corners.old) (way.new, links.new, corners.new) result }
    ensures refused { (CanAskWay (way_asked way.old costs.now) → ⊥)
        → EndsSo {Room = WayRoom} status.out_of_range (way.old, links.old, corners.old) (way.new, links.new, corners.new) result }
    ensures same { view.new.view ≡ view.old.view }
{
    place_way_handle::find_way(alloc, view, way, costs, links, corners)
}

/// A cheapest way between the places of the mesh that a view shows that are nearest to two points, through a filter, and the corners of a taut line
/// through its portals as places, of which these two are the first and the last.
#[unsafe(no_mangle)]
pub extern "C" fn navd_view_find_way_near(
    alloc: Global,
    view: &mut NavdView,
    way: &mut NavdNearWay,
    costs: &[u32],
    links: &mut [NavdLink],
    corners: &mut [NavdPlace],
) -> u32
    ensures asked { CanAskNearWay (near_way_asked way.old costs.now) → IsAskedBy (IsRightNearWay (near_way_asked way.old costs.now)) found_ends
        told_near_way (seen_in view.old.view) (way.old, links.old, corners.old) (way.new, links.new, corners.new) result }
    ensures refused { (CanAskNearWay (near_way_asked way.old costs.now) → ⊥)
        → EndsSo {Room = NearWayRoom} status.out_of_range (way.old, links.old, corners.old) (way.new, links.new, corners.new) result }
    ensures same { view.new.view ≡ view.old.view }
{
    place_way_handle::find_way_near(alloc, view, way, costs, links, corners)
}

/// How the straight walk from a place toward a point ends in the mesh that a view shows.
#[unsafe(no_mangle)]
pub extern "C" fn navd_view_cast_ray_from(
    alloc: Global,
    view: &mut NavdView,
    from: &NavdPlace,
    to: &NavdPoint,
    ray: &mut NavdRay,
) -> u32
    ensures asked { CanAskRay (ray_asked from.now to.now)
        → IsAskedBy (IsCastBy (ray_asked from.now to.now)) ray_ends told_ray (seen_in view.old.view) ray.old ray.new result }
    ensures refused { (CanAskRay (ray_asked from.now to.now) → ⊥) → EndsSo status.out_of_range ray.old ray.new result }
    ensures same { view.new.view ≡ view.old.view }
{
    place_way_handle::cast_ray_from(alloc, view, from, to, ray)
}
