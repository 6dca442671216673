//! The walk. What a walk is about.

ghost use Rattle.std.specs.Prelude.{◌≡◌, ◌<◌, length, All, IfOk, Some};
ghost use Rattle.nav_base.specs.Point.{HasCoordinates, IsCellCorner};
ghost use Rattle.mesh_types.specs.declared.answers.RayAnswer.{RayAnswer};
ghost use Rattle.mesh_types.specs.Rays.{IsHeldAt, IsRayWalk};
ghost use Rattle.mesh_types.specs.Soundness.{IsSound};
ghost use Rattle.mesh_types.specs.WholeMesh.{poly_at};
ghost use Rattle.ray_walk.specs.Walking.{IsProper, IsThere, wall_of};

use crate::exits::first_exit;
use crate::onward::{Inside, next_link};
use mesh_types::{Mesh, PolyRef, Polygon, edge_ends, poly};
use nav_base::Point;
use std::alloc::{AllocError, Global};
use std::collections::BTreeSet;

/// The ray walk from one point toward another, begun in a polygon that holds the first: the polygon in which it reaches the second, or the
/// wall at which it ends. Only memory can be refused.
pub fn walk(
    alloc: Global,
    mesh: &Mesh,
    first: PolyRef,
    from: Point,
    to: Point,
) -> Result<mesh_types::RayAnswer, AllocError>
    requires sound { IsSound mesh.now }
    requires start { IsHeldAt mesh.now from first }
    requires to { HasCoordinates to }
    ensures walk { IfOk result (λ answer. IsRayWalk mesh.now first from to answer) }

    // How far along the way a wall lies is at least 0 and less than 1.
    ensures fraction { IfOk result IsProper }

    // The ray walk ends in no other way.
    ensures only { IfOk result (λ answer. (other : RayAnswer) → IsRayWalk mesh.now first from to other → answer ≡ other) }
{
    let ray = Ray { from, to };
    let mut visited = BTreeSet::new(alloc);
    let mut onward = Vec::new(alloc);
    let mut at = first;
    loop {
        visited.insert((at.tile, at.index))?;
        let polygon = polygon_at(mesh, at);
        let Some(exit) = first_exit(&polygon, ray) else {
            return Ok(mesh_types::RayAnswer::Reached(at));
        };
        let inside = Inside {
            polygon: &polygon,
            ray,
            exit,
        };
        let next = next_link(mesh, at, inside, &visited, &mut onward)?;
        let Some(link) = next else {
            return Ok(wall(&polygon, exit));
        };
        at = link.to;
    }
}

/// The polygon that a reference names.
fn polygon_at(mesh: &Mesh, at: PolyRef) -> Polygon
    requires sound { IsSound mesh.now }
    requires there { IsThere mesh.now at }
    ensures named { poly_at mesh.now at ≡ Some result }
    ensures corners { All IsCellCorner result.corners }
{
    poly(mesh, at).unwrap()
}

/// The wall at an exit.
fn wall(polygon: &Polygon, exit: Exit) -> mesh_types::RayAnswer
    requires corners { All IsCellCorner polygon.now.corners }
    requires there { exit.edge < length polygon.now.corners }
    ensures { result ≡ wall_of polygon.now exit }
{
    let (a, b) = edge_ends(polygon, exit.edge);
    mesh_types::RayAnswer::Wall {
        a,
        b,
        num: exit.num,
        den: exit.den,
    }
}

/// The straight way from one point toward another.
#[derive(Clone, Copy)]
pub(crate) struct Ray {
    pub(crate) from: Point,
    pub(crate) to: Point,
}

/// An edge of a polygon over which a ray leads out, by its place, and how far along the way from the one point to the other the ray meets the
/// edge's line, as the fraction num / den.
#[derive(Clone, Copy)]
pub(crate) struct Exit {
    pub(crate) edge: usize,
    pub(crate) num: i64,
    pub(crate) den: i64,
}
