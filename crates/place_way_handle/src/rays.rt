//! Straight walks from a place toward a point.

ghost use Rattle.std.specs.Prelude.{◌≡◌, Option};
ghost use Rattle.mesh_types.specs.declared.mesh.Mesh.{Mesh};
ghost use Rattle.nav_handle.specs.Answers.{EndsSo, IsAskedBy, IsRepliedBy};
ghost use Rattle.nav_handle.specs.Statuses as status;
ghost use Rattle.place_way_handle.specs.Casting.{IsCastBy, ray_asked, ray_ends, told_end, told_ray};
ghost use Rattle.place_ways.specs.declared.rays.PlaceRayQuery.{PlaceRayQuery};
ghost use Rattle.place_ways.specs.Rays.{CanAskRay};

use mesh_types::RayAnswer;
use nav_handle::{
    HasMesh, NO_START, NavdPoint, NavdRay, OK, OUT_OF_RANGE, WALL, has_coordinates, point_of,
    point_told, polygon_told,
};
use place_handle::{NavdPlace, place_of};
use place_ways::{PlaceRayAnswer, PlaceRayQuery};
use std::alloc::Global;

/// How a straight walk ends.
fn end_status(end: RayAnswer) -> u32
    ensures { result ≡ Rattle.place_way_handle.specs.Casting.end_status end }
{
    match end {
        RayAnswer::Reached(_) => OK,
        RayAnswer::Wall { .. } => WALL,
    }
}

/// Tells in which polygon, or at which edge a straight walk ends.
fn tell_end(end: RayAnswer, ray: &mut NavdRay)
    ensures { ray.new ≡ told_end end ray.old }
{
    match end {
        RayAnswer::Reached(at) => ray.last = polygon_told(at),
        RayAnswer::Wall { a, b, num, den } => {
            ray.a = point_told(a);
            ray.b = point_told(b);
            ray.num = num;
            ray.den = den;
        }
    }
}

/// How the question for a straight walk ends.
fn end_ray(answer: Result<PlaceRayAnswer, u32>, ray: &mut NavdRay) -> u32
    ensures { (held : Option Mesh) (query : PlaceRayQuery) → IsRepliedBy (IsCastBy query) held answer
        → IsAskedBy (IsCastBy query) ray_ends told_ray held ray.old ray.new result }
{
    match answer {
        Ok(PlaceRayAnswer::Ray(end)) => {
            tell_end(end, ray);
            end_status(end)
        }
        Ok(PlaceRayAnswer::NoStart) => NO_START,
        Err(status) => status,
    }
}

/// How the straight walk from a place toward a point ends in the mesh of a handle.
pub fn cast_ray_from<H: HasMesh>(
    alloc: Global,
    held: &mut H,
    from: &NavdPlace,
    to: &NavdPoint,
    ray: &mut NavdRay,
) -> u32
    ensures asked { CanAskRay (ray_asked from.now to.now)
        → IsAskedBy (IsCastBy (ray_asked from.now to.now)) ray_ends told_ray (H.mesh_in held.old) ray.old ray.new result }
    ensures refused { (CanAskRay (ray_asked from.now to.now) → ⊥) → EndsSo status.out_of_range ray.old ray.new result }
    ensures same { H.is_same held.old held.new }
{
    if !has_coordinates(from.at) || !has_coordinates(*to) {
        return OUT_OF_RANGE;
    }
    let query = PlaceRayQuery {
        from: place_of(from),
        to: point_of(*to),
    };
    let answer = held.ask_by(alloc, &query);
    end_ray(answer, ray)
}
