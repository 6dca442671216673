//! Walkers: agents that the host keeps as plain numbers, and places and moves through the mesh of a handle.

ghost use Rattle.std.specs.Prelude.{◌≡◌, ◌↔◌, IsTrue, Option};
ghost use Rattle.mesh_types.specs.declared.mesh.Mesh.{Mesh};
ghost use Rattle.agent_walks.specs.Questions.{CanMarch, CanSend, IsRightMarched, IsRightSent};
ghost use Rattle.nav_handle.specs.Answers.{EndsSo, IsAskedBy, IsRepliedBy};
ghost use Rattle.nav_handle.specs.Walking.{WalkRoom, march_asked, send_asked, told_march, told_send, walk_ends};
ghost use Rattle.nav_handle.specs.Statuses as status;

use crate::asking::HasMesh;
use crate::ends::{has_coordinates, is_way, lay_links, point_of, point_told, polygon_told};
use crate::wire::{
    NO_GOAL, NO_PATH, NO_START, NavdLink, NavdPoint, NavdPolygon, NavdWay, OK, OUT_OF_RANGE,
};
use agent_walks::{Marching, Place, Sending};
use mesh_types::WalkAnswer;
use std::alloc::Global;

/// An agent on its way to a goal: the polygon in which it stands, its point and height, its goal and the goal's height, what the way that is
/// left costs, and how many links that has.
#[repr(C)]
#[derive(Clone, Copy)]
pub struct NavdWalker {
    pub polygon: NavdPolygon,
    pub at: NavdPoint,
    pub y: u32,
    pub goal: NavdPoint,
    pub goal_y: u32,
    pub cost: u64,
    pub links: usize,
}

fn sending_of(way: &NavdWay) -> Sending
    ensures { result ≡ Rattle.nav_handle.specs.Walking.send_asked way.now }
{
    Sending {
        from: Place {
            point: point_of(way.from),
            y: way.from_y,
        },
        goal: Place {
            point: point_of(way.to),
            y: way.to_y,
        },
    }
}

fn marching_of(walker: &NavdWalker, length: u32) -> Marching
    ensures { result ≡ Rattle.nav_handle.specs.Walking.march_asked walker.now length }
{
    Marching {
        from: Place {
            point: point_of(walker.at),
            y: walker.y,
        },
        goal: Place {
            point: point_of(walker.goal),
            y: walker.goal_y,
        },
        length,
    }
}

/// How a send or a march with an answer ends.
fn walk_status(answer: &WalkAnswer) -> u32
    ensures { result ≡ Rattle.nav_handle.specs.Walking.walk_ends answer.now }
{
    match answer {
        WalkAnswer::Walking { .. } => OK,
        WalkAnswer::NoStart => NO_START,
        WalkAnswer::NoGoal => NO_GOAL,
        WalkAnswer::NoPath => NO_PATH,
    }
}

/// Tells where a walker stands and which links lead on to a goal, if the answer says so.
fn tell_walk(
    answer: &WalkAnswer,
    goal: NavdPoint,
    goal_y: u32,
    walker: &mut NavdWalker,
    links: &mut [NavdLink],
)
    ensures { (walker.new, links.new) ≡ Rattle.nav_handle.specs.Walking.told_walk goal goal_y answer.now (walker.old, links.old) }
{
    match answer {
        WalkAnswer::Walking {
            at,
            point,
            y,
            cost,
            links: left,
        } => {
            lay_links(left.as_slice(), links);
            *walker = NavdWalker {
                polygon: polygon_told(*at),
                at: point_told(*point),
                y: *y,
                goal,
                goal_y,
                cost: *cost,
                links: left.len(),
            };
        }
        _ => {}
    }
}

/// How a send ends.
fn end_send(
    answer: Result<WalkAnswer, u32>,
    way: &NavdWay,
    walker: &mut NavdWalker,
    links: &mut [NavdLink],
) -> u32
    ensures { (held : Option Mesh) → IsRepliedBy (IsRightSent (send_asked way.now)) held answer
        → IsAskedBy (IsRightSent (send_asked way.now)) walk_ends (told_send way.now) held (walker.old, links.old) (walker.new, links.new) result }
{
    match answer {
        Ok(answer) => {
            tell_walk(&answer, way.to, way.to_y, walker, links);
            walk_status(&answer)
        }
        Err(status) => status,
    }
}

/// How a march ends.
fn end_march(
    answer: Result<WalkAnswer, u32>,
    length: u32,
    walker: &mut NavdWalker,
    links: &mut [NavdLink],
) -> u32
    ensures { (held : Option Mesh) → IsRepliedBy (IsRightMarched (march_asked walker.old length)) held answer
        → IsAskedBy (IsRightMarched (march_asked walker.old length)) walk_ends told_march held (walker.old, links.old) (walker.new, links.new) result }
{
    match answer {
        Ok(answer) => {
            let NavdWalker { goal, goal_y, .. } = *walker;
            tell_walk(&answer, goal, goal_y, walker, links);
            walk_status(&answer)
        }
        Err(status) => status,
    }
}

/// Whether a walker stands at coordinates and goes to some.
fn may_march(walker: &NavdWalker) -> bool
    ensures { IsTrue result ↔ CanMarch (march_asked walker.now 0) }
{
    has_coordinates(walker.at) && has_coordinates(walker.goal)
}

/// Places a walker at a place, on its way to another, in the mesh of a handle.
pub fn send<H: HasMesh>(
    alloc: Global,
    held: &mut H,
    way: &NavdWay,
    links: &mut [NavdLink],
    walker: &mut NavdWalker,
) -> u32
    ensures asked { CanSend (send_asked way.now) → IsAskedBy (IsRightSent (send_asked way.now)) walk_ends (told_send way.now)
        (H.mesh_in held.old) (walker.old, links.old) (walker.new, links.new) result }
    ensures refused { (CanSend (send_asked way.now) → ⊥)
        → EndsSo {Room = WalkRoom} status.out_of_range (walker.old, links.old) (walker.new, links.new) result }
    ensures same { H.is_same held.old held.new }
{
    if !is_way(way) {
        return OUT_OF_RANGE;
    }
    let answer = held.ask_by(alloc, &sending_of(way));
    end_send(answer, way, walker, links)
}

/// Moves a walker toward its goal in the mesh of a handle, for a length in sixteenths of a cell.
pub fn march<H: HasMesh>(
    alloc: Global,
    held: &mut H,
    walker: &mut NavdWalker,
    length: u32,
    links: &mut [NavdLink],
) -> u32
    ensures asked { CanMarch (march_asked walker.old length) → IsAskedBy (IsRightMarched (march_asked walker.old length)) walk_ends told_march
        (H.mesh_in held.old) (walker.old, links.old) (walker.new, links.new) result }
    ensures refused { (CanMarch (march_asked walker.old length) → ⊥)
        → EndsSo {Room = WalkRoom} status.out_of_range (walker.old, links.old) (walker.new, links.new) result }
    ensures same { H.is_same held.old held.new }
{
    if !may_march(walker) {
        return OUT_OF_RANGE;
    }
    let answer = held.ask_by(alloc, &marching_of(walker, length));
    end_march(answer, length, walker, links)
}
