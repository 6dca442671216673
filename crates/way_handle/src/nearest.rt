//! The nearest of many goals.

ghost use Rattle.std.specs.Prelude.{◌≡◌, ◌↔◌, All, IfNone, IfOk, IfSome, IsTrue, Option};
ghost use Rattle.mesh_types.specs.declared.mesh.Mesh.{Mesh};
ghost use Rattle.path_queries.specs.declared.nearest.NearestQuery.{NearestQuery};
ghost use Rattle.path_queries.specs.NearestGoals.{CanAskNearest, HasGoalCoordinates, IsRightNearest};
ghost use Rattle.nav_handle.specs.Answers.{EndsSo, IsAskedBy, IsRepliedBy};
ghost use Rattle.nav_handle.specs.Statuses as status;
ghost use Rattle.way_handle.specs.Nearing.{NearestRoom, goals_of, nearest_asked, nearest_by, nearest_ends, told_nearest};

use crate::filters::filter_of;
use graph_search::Room;
use mesh_types::{Asked, Mesh};
use nav_handle::{
    HasMesh, LIMIT, NO_GOAL, NO_PATH, NO_START, NavdLink, NavdPoint, NavdPolygon, OK, OUT_OF_RANGE,
    has_coordinates, lay_links, point_of, polygon_told,
};
use nav_lists::Items;
use path_queries::{AskedIn, Filter, Goal, NearestAnswer, NearestQuery};
use std::alloc::{AllocError, Global};

/// A place to which a way may lead.
#[repr(C)]
#[derive(Clone, Copy)]
pub struct NavdGoal {
    pub at: NavdPoint,
    pub y: u32,
}

/// From where a way leads to one of the goals, which areas it may enter, bit a for area a, and up to which cost, which the host writes; and which goal is
/// the nearest, from 0, what the way there costs, or what a way to a goal costs at least, the polygons in which it begins and ends, and how many links
/// it has, which the call tells.
#[repr(C)]
#[derive(Clone, Copy)]
pub struct NavdNearest {
    pub at: NavdPoint,
    pub y: u32,
    pub areas: u64,
    pub most_cost: u64,
    pub which: usize,
    pub cost: u64,
    pub seen: u64,
    pub first: NavdPolygon,
    pub last: NavdPolygon,
    pub links: usize,
}

fn goal_of(goal: &NavdGoal) -> Goal
    ensures { result ≡ Rattle.way_handle.specs.Nearing.goal_of goal.now }
{
    Goal {
        point: point_of(goal.at),
        y: goal.y,
    }
}

/// The goals of the host's array.
fn goals_of(alloc: Global, goals: &[NavdGoal]) -> Result<Items<Goal>, AllocError>
    ensures { IfOk result (λ list. list ≡ goals_of goals.now) }
{
    let mut list = Vec::with_capacity(alloc, goals.len())?;
    for goal in goals {
        list.push(goal_of(goal))?;
    }
    Ok(Items::from_vec(list))
}

/// The filter of a question for the nearest goal, if the question may be asked.
fn nearest_filter(nearest: &NavdNearest, costs: &[u32], goals: &[NavdGoal]) -> Option<Filter>
    ensures filter { IfSome result (λ filter. nearest_by nearest.now filter goals.now ≡ nearest_asked nearest.now costs.now goals.now) }
    ensures rules { IfSome result (λ filter. CanAskNearest (nearest_by nearest.now filter goals.now)) }
    ensures none { IfNone result (CanAskNearest (nearest_asked nearest.now costs.now goals.now) → ⊥) }
{
    if !has_coordinates(nearest.at) || !have_coordinates(goals) {
        return None;
    }
    filter_of(nearest.areas, costs)
}

/// Whether the points of goals have coordinates.
fn have_coordinates(goals: &[NavdGoal]) -> bool
    ensures { IsTrue result ↔ All HasGoalCoordinates (goals_of goals.now) }
{
    for goal in goals {
        if !has_coordinates(goal.at) {
            return false;
        }
    }
    true
}

/// The question for the nearest of the goals.
fn query_of(
    alloc: Global,
    nearest: &NavdNearest,
    filter: &Filter,
    goals: &[NavdGoal],
) -> Result<NearestQuery, AllocError>
    ensures { IfOk result (λ query. query ≡ nearest_by nearest.now filter.now goals.now) }
{
    Ok(NearestQuery {
        from: point_of(nearest.at),
        from_y: nearest.y,
        goals: goals_of(alloc, goals)?,
        filter: *filter,
        most_cost: nearest.most_cost,
    })
}

/// The question for the nearest of the goals of the host's array: they are copied only where there is a mesh.
#[derive(Drop)]
struct Nearing<'a> {
    nearest: NavdNearest,
    filter: Filter,
    goals: &'a [NavdGoal],
}

impl<'a> Asked for Nearing<'a> {
    type Answer = NearestAnswer;

    ghost can_ask = { λ asked. CanAskNearest (nearest_by asked.nearest asked.filter asked.goals.now) };

    ghost is_right = { λ asked mesh answer. IsRightNearest (nearest_by asked.nearest asked.filter asked.goals.now) mesh answer };

    fn ask(&self, alloc: Global, mesh: &Mesh) -> Result<NearestAnswer, AllocError> {
        let query = query_of(alloc, &self.nearest, &self.filter, self.goals)?;
        query.ask(alloc, mesh)
    }
}

impl<'a> AskedIn for Nearing<'a> {
    fn ask_in(
        &self,
        alloc: Global,
        room: &mut Room,
        mesh: &Mesh,
    ) -> Result<NearestAnswer, AllocError> {
        let query = query_of(alloc, &self.nearest, &self.filter, self.goals)?;
        query.ask_in(alloc, room, mesh)
    }
}

/// How the question ends with an answer.
fn nearest_status(answer: &NearestAnswer) -> u32
    ensures { result ≡ nearest_ends answer.now }
{
    match answer {
        NearestAnswer::Found { .. } => OK,
        NearestAnswer::Limit { .. } => LIMIT,
        NearestAnswer::NoStart => NO_START,
        NearestAnswer::NoGoal => NO_GOAL,
        NearestAnswer::NoPath => NO_PATH,
    }
}

/// Tells the way to the nearest goal, or how far was seen, if the answer says so.
fn tell_nearest(answer: &NearestAnswer, nearest: &mut NavdNearest, links: &mut [NavdLink])
    ensures { (nearest.new, links.new) ≡ told_nearest answer.now (nearest.old, links.old) }
{
    match answer {
        NearestAnswer::Found { which, last, way } => {
            lay_links(way.links.as_slice(), links);
            nearest.which = *which;
            nearest.cost = way.cost;
            nearest.first = polygon_told(way.first);
            nearest.last = polygon_told(*last);
            nearest.links = way.links.len();
        }
        NearestAnswer::Limit { seen } => nearest.seen = *seen,
        _ => {}
    }
}

/// How the question ends.
fn end_nearest(
    answer: Result<NearestAnswer, u32>,
    nearest: &mut NavdNearest,
    links: &mut [NavdLink],
) -> u32
    ensures { (held : Option Mesh) (query : NearestQuery) → IsRepliedBy (IsRightNearest query) held answer
        → IsAskedBy (IsRightNearest query) nearest_ends told_nearest held (nearest.old, links.old) (nearest.new, links.new) result }
{
    match answer {
        Ok(answer) => {
            tell_nearest(&answer, nearest, links);
            nearest_status(&answer)
        }
        Err(status) => status,
    }
}

/// The nearest of many goals in the mesh of a handle, through a filter.
pub fn nearest_goal<H: HasMesh>(
    alloc: Global,
    held: &mut H,
    nearest: &mut NavdNearest,
    costs: &[u32],
    goals: &[NavdGoal],
    links: &mut [NavdLink],
) -> u32
    ensures asked { CanAskNearest (nearest_asked nearest.old costs.now goals.now)
        → IsAskedBy (IsRightNearest (nearest_asked nearest.old costs.now goals.now)) nearest_ends told_nearest (H.mesh_in held.old)
        (nearest.old, links.old) (nearest.new, links.new) result }
    ensures refused { (CanAskNearest (nearest_asked nearest.old costs.now goals.now) → ⊥)
        → EndsSo {Room = NearestRoom} status.out_of_range (nearest.old, links.old) (nearest.new, links.new) result }
    ensures same { H.is_same held.old held.new }
{
    let Some(filter) = nearest_filter(nearest, costs, goals) else {
        return OUT_OF_RANGE;
    };
    let asked = Nearing {
        nearest: *nearest,
        filter,
        goals,
    };
    let answer = held.ask_in_room(alloc, &asked);
    end_nearest(answer, nearest, links)
}
