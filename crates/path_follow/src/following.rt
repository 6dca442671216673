//! The question where a walker on a kept path is, and its answers.

ghost use Rattle.std.specs.Prelude.{◌<◌, IfOk};
ghost use Rattle.mesh_types.specs.Soundness.{IsSound};
ghost use Rattle.surface_move.specs.Moves.{leg_of};
ghost use Rattle.path_follow.specs.Following.{CanFollow, IsFollowed, IsIntact};
ghost use Rattle.path_follow.specs.Lines.{IsNext, IsStanding};

use crate::lines::{NextPoint, Standing, next_of, standing_of};
use crate::looking::{
    cut_at, is_held, looked_to, nth_polygon, part_ahead, polygons_between, walking,
};
use mesh_types::{Asked, Corner, Link, Mesh, PolyRef};
use nav_base::Point;
use nav_lists::Items;
use std::alloc::{AllocError, Global};
use surface_move::leg;

/// A walker on a kept path: the polygon in which its line begins, the line's ends, the links and the turns as they were told, how far it has
/// gone, in sixteenths of a cell along the longer axis of each leg, how many links are known to be behind it, and how many from there on are
/// looked at beside those that it uses. Each turn names the portal of a link by the link's place, from 0.
#[derive(PartialEq, Eq, Drop)]
pub struct Following {
    pub first: PolyRef,
    pub from: Point,
    pub goal: Point,
    pub links: Items<Link>,
    pub turns: Items<Corner>,
    pub far: u32,
    pub link: usize,
    pub ahead: u32,
}

/// What the question where a walker is is answered.
#[derive(Clone, Copy, PartialEq, Eq)]
pub enum FollowAnswer {
    /// It is at a point of a polygon, which it entered by so many links; its height is the polygon's least floor.
    Walking {
        at: PolyRef,
        point: Point,
        y: u32,
        link: usize,
    },
    /// The link at this place is the first of those looked at that leads on no more; where it is the number of all links, the last polygon
    /// does not hold the goal.
    Cut {
        link: usize,
    },
    /// The polygon of the last turn that it passed, or of the line's beginning, does not hold that point, and no polygon on the way to the
    /// next one holds a point that the length reaches.
    NoStart,
}

/// Where a walker on a kept path is. Only memory can be refused.
pub fn follow(alloc: Global, mesh: &Mesh, following: &Following) -> Result<FollowAnswer, AllocError>
    requires sound { IsSound mesh.now }
    requires can { CanFollow following.now }
    ensures right { IfOk result (λ answer. IsFollowed following.now mesh.now answer) }
{
    let standing = standing_of(following);
    let next = next_of(following, standing);
    let look = looked_to(following, next.upto);
    if let Some(link) = cut_at(mesh, following, look) {
        return Ok(FollowAnswer::Cut { link });
    }
    if leg(standing.point, next.point) <= standing.budget {
        let count = following.links.len();
        return Ok(walking(mesh, following, following.goal, count));
    }
    on_the_way(alloc, mesh, following, standing, next)
}

impl Asked for Following {
    type Answer = FollowAnswer;

    ghost can_ask = { λ following. CanFollow following };

    ghost is_right = { λ following mesh answer. IsFollowed following mesh answer };

    fn ask(&self, alloc: Global, mesh: &Mesh) -> Result<FollowAnswer, AllocError> {
        follow(alloc, mesh, self)
    }
}

/// Where it is on the way to what it makes for, which it does not reach.
fn on_the_way(
    alloc: Global,
    mesh: &Mesh,
    following: &Following,
    standing: Standing,
    next: NextPoint,
) -> Result<FollowAnswer, AllocError>
    requires sound { IsSound mesh.now }
    requires can { CanFollow following.now }
    requires stands { IsStanding following.now standing }
    requires next { IsNext following.now standing next }
    requires intact { IsIntact mesh.now following.now }
    requires beyond { standing.budget < leg_of standing.point next.point }
    ensures { IfOk result (λ answer. IsFollowed following.now mesh.now answer) }
{
    let place = standing.place;
    let polys = polygons_between(alloc, following, place, next.upto)?;
    let ahead = polys.as_slice();
    if let Some(end) = part_ahead(mesh, ahead, standing.point, next.point, standing.budget) {
        return Ok(walking(mesh, following, end.at, place + end.place as usize));
    }
    let at = nth_polygon(following.first, following.links.as_slice(), place);
    if is_held(mesh, standing.point, at) {
        return Ok(walking(mesh, following, standing.point, place));
    }
    Ok(FollowAnswer::NoStart)
}
