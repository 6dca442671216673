//! Straight walks from a place of the mesh toward a point.

ghost use Rattle.std.specs.Prelude.{◌≡◌, IfOk};
ghost use Rattle.mesh_types.specs.Soundness.{IsSound};
ghost use Rattle.place_ways.specs.Rays.{CanAskRay, IsPlaceRay};

use mesh_place::is_place;
use mesh_types::{Asked, Mesh, MeshPlace, RayAnswer};
use nav_base::Point;
use ray_walk::walk;
use std::alloc::{AllocError, Global};

/// The question for a straight walk from a place of the mesh toward a point, in sixteenths of a cell.
#[derive(Clone, Copy, PartialEq, Eq)]
pub struct PlaceRayQuery {
    pub from: MeshPlace,
    pub to: Point,
}

/// What it is answered.
#[derive(Clone, Copy, PartialEq, Eq, Drop)]
pub enum PlaceRayAnswer {
    /// How the walk ends that begins in the place's own polygon.
    Ray(RayAnswer),
    /// It is to begin at no place of the mesh.
    NoStart,
}

/// How the straight walk from a place of the mesh toward a point ends. Only memory can be refused.
pub fn ray_from(
    alloc: Global,
    mesh: &Mesh,
    query: &PlaceRayQuery,
) -> Result<PlaceRayAnswer, AllocError>
    requires sound { IsSound mesh.now }
    requires query { CanAskRay query.now }
    ensures right { IfOk result (λ answer. IsPlaceRay query.now mesh.now answer) }

    // It ends in no other way.
    ensures only { IfOk result (λ answer. (other : PlaceRayAnswer) → IsPlaceRay query.now mesh.now other → answer ≡ other) }
{
    if !is_place(mesh, query.from) {
        return Ok(PlaceRayAnswer::NoStart);
    }
    let end = walk(alloc, mesh, query.from.polygon, query.from.point, query.to)?;
    Ok(PlaceRayAnswer::Ray(end))
}

impl Asked for PlaceRayQuery {
    ghost use Rattle.place_ways.specs.Rays.{CanAskRay, IsPlaceRay};

    type Answer = PlaceRayAnswer;

    ghost can_ask = { λ query. CanAskRay query };

    ghost is_right = { λ query mesh answer. IsPlaceRay query mesh answer };

    fn ask(&self, alloc: Global, mesh: &Mesh) -> Result<PlaceRayAnswer, AllocError> {
        ray_from(alloc, mesh, self)
    }
}
