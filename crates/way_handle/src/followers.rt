//! Walkers on kept paths: where one is in the mesh of a handle.

ghost use Rattle.std.specs.Prelude.{◌≡◌, ◌↔◌, ◌≤◌, All, IfOk, IsTrue, Option, length};
ghost use Rattle.mesh_types.specs.declared.mesh.Mesh.{Mesh};
ghost use Rattle.nav_handle.specs.Answers.{EndsSo, IsAskedBy, IsRepliedBy};
ghost use Rattle.nav_handle.specs.Statuses as status;
ghost use Rattle.path_follow.specs.declared.following.Following.{Following};
ghost use Rattle.path_follow.specs.Following.{CanFollow, IsFollowed, IsTurnOf};
ghost use Rattle.way_handle.specs.Followers.{follow_asked, follow_ends, told_follow};
ghost use Rattle.way_handle.specs.Reading.{turn_of, turns_of};

use crate::reading::{links_of, polygon_of, turns_of};
use mesh_types::{Asked, Mesh};
use nav_handle::{
    CUT, HasMesh, NO_START, NavdLink, NavdPoint, NavdPolygon, NavdTurn, OK, OUT_OF_RANGE,
    has_coordinates, point_of, point_told, polygon_told,
};
use path_follow::{FollowAnswer, Following};
use std::alloc::{AllocError, Global};

/// A walker on a kept path: the polygon in which its line begins, the line's ends, how far it has gone, in sixteenths of a cell along the longer axis
/// of each leg, how many links from where it is on are looked at beside those that it uses, and how many are behind it, which the host writes; and the
/// polygon and the point where it is, its height, and how many links are behind it, or which leads on no more, which the call tells.
#[repr(C)]
#[derive(Clone, Copy)]
pub struct NavdFollower {
    pub first: NavdPolygon,
    pub from: NavdPoint,
    pub goal: NavdPoint,
    pub far: u32,
    pub ahead: u32,
    pub link: usize,
    pub polygon: NavdPolygon,
    pub at: NavdPoint,
    pub y: u32,
}

/// Whether a turn has coordinates and names one of so many links.
fn is_turn(turn: &NavdTurn, count: usize) -> bool
    ensures { IsTrue result ↔ IsTurnOf count (turn_of turn.now) }
{
    has_coordinates(turn.at) && (turn.link as usize) < count
}

/// Whether those of the host's array do.
fn are_turns(turns: &[NavdTurn], count: usize) -> bool
    ensures { IsTrue result ↔ All (IsTurnOf count) (turns_of turns.now) }
{
    for turn in turns {
        if !is_turn(turn, count) {
            return false;
        }
    }
    true
}

/// Whether a walker may be asked about.
fn can_follow(follower: &NavdFollower, links: &[NavdLink], turns: &[NavdTurn]) -> bool
    ensures { IsTrue result ↔ CanFollow (follow_asked follower.now links.now turns.now) }
{
    has_coordinates(follower.from)
        && has_coordinates(follower.goal)
        && are_turns(turns, links.len())
        && links.len() < 4294967295
        && follower.link <= links.len()
}

/// The question where a walker on the links and turns of the host's arrays is: they are copied only where there is a mesh.
#[derive(Drop)]
struct OnPath<'a> {
    follower: NavdFollower,
    links: &'a [NavdLink],
    turns: &'a [NavdTurn],
}

impl<'a> Asked for OnPath<'a> {
    type Answer = FollowAnswer;

    ghost can_ask = { λ asked. CanFollow (follow_asked asked.follower asked.links.now asked.turns.now) };

    ghost is_right = { λ asked mesh answer. IsFollowed (follow_asked asked.follower asked.links.now asked.turns.now) mesh answer };

    fn ask(&self, alloc: Global, mesh: &Mesh) -> Result<FollowAnswer, AllocError> {
        let follower = &self.follower;
        let links = links_of(alloc, self.links)?;
        let following = Following {
            first: polygon_of(follower.first),
            from: point_of(follower.from),
            goal: point_of(follower.goal),
            links,
            turns: turns_of(alloc, self.turns)?,
            far: follower.far,
            link: follower.link,
            ahead: follower.ahead,
        };
        following.ask(alloc, mesh)
    }
}

/// How the question ends with an answer.
fn follow_status(answer: &FollowAnswer) -> u32
    ensures { result ≡ follow_ends answer.now }
{
    match answer {
        FollowAnswer::Walking { .. } => OK,
        FollowAnswer::Cut { .. } => CUT,
        FollowAnswer::NoStart => NO_START,
    }
}

/// Tells where the walker is, or which link leads on no more.
fn tell_follow(answer: &FollowAnswer, follower: &mut NavdFollower)
    ensures { follower.new ≡ told_follow answer.now follower.old }
{
    match answer {
        FollowAnswer::Walking { at, point, y, link } => {
            follower.polygon = polygon_told(*at);
            follower.at = point_told(*point);
            follower.y = *y;
            follower.link = *link;
        }
        FollowAnswer::Cut { link } => follower.link = *link,
        FollowAnswer::NoStart => {}
    }
}

/// How the question ends.
fn end_follow(answer: Result<FollowAnswer, u32>, follower: &mut NavdFollower) -> u32
    ensures { (held : Option Mesh) (following : Following) → IsRepliedBy (IsFollowed following) held answer
        → IsAskedBy (IsFollowed following) follow_ends told_follow held follower.old follower.new result }
{
    match answer {
        Ok(answer) => {
            tell_follow(&answer, follower);
            follow_status(&answer)
        }
        Err(status) => status,
    }
}

/// Where a walker on a kept path is in the mesh of a handle.
pub fn follow<H: HasMesh>(
    alloc: Global,
    held: &mut H,
    follower: &mut NavdFollower,
    links: &[NavdLink],
    turns: &[NavdTurn],
) -> u32
    ensures asked { CanFollow (follow_asked follower.old links.now turns.now)
        → IsAskedBy (IsFollowed (follow_asked follower.old links.now turns.now)) follow_ends told_follow (H.mesh_in held.old)
        follower.old follower.new result }
    ensures refused { (CanFollow (follow_asked follower.old links.now turns.now) → ⊥)
        → EndsSo {Room = NavdFollower} status.out_of_range follower.old follower.new result }
    ensures same { H.is_same held.old held.new }
{
    if !can_follow(follower, links, turns) {
        return OUT_OF_RANGE;
    }
    let asked = OnPath {
        follower: *follower,
        links,
        turns,
    };
    let answer = held.ask_by(alloc, &asked);
    end_follow(answer, follower)
}
