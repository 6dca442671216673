//! The way along a kept path from where an agent is. Nothing is promised of it.

ghost use Rattle.std.specs.Prelude.{◌≤◌};
ghost use Rattle.nav_base.specs.Point.{HasCoordinates};
ghost use Rattle.mesh_types.specs.Soundness.{IsSound};
ghost use Rattle.crowd_moves.specs.Pairs.{HasSizes};

use crate::portals::{PortalsAhead, middle, narrowed_portals, next_turn};
use crate::vectors::{cut, fine, is_fine, length_of, onward, toward};
use crowd_moves::CrowdAgent;
use fine_walk::{fine_walk, is_fine_held};
use mesh_types::{Link, Mesh};
use nav_base::Point;

/// By which vector an agent goes along links: toward the first turn of the taut line through their portals, and, where that is nearer than its speed,
/// on toward the second, if the mesh lets it.
pub(crate) fn way_along(mesh: &Mesh, agent: &CrowdAgent, goal: Point, ahead: &[Link]) -> Point
    requires sound { IsSound mesh.now }
    requires sizes { HasSizes agent.now }
    requires goal { HasCoordinates goal }
{
    let narrowed = narrowed_portals(mesh, agent, ahead);
    let end = end_of(&narrowed, ahead, goal);
    let portals = &narrowed.portals[..narrowed.count];
    let first = next_turn(agent.at, portals, 0, end);
    let way = toward(agent.at, first.at);
    let length = length_of(way);
    if length >= agent.speed {
        return way;
    }
    let second = next_turn(first.at, portals, first.passed, end);
    let rest = cut(toward(first.at, second.at), agent.speed - length);
    let round = onward(way, rest);
    if walks(mesh, agent, round) {
        round
    } else {
        way
    }
}

/// Where the line through portals ends: at the goal, or, where more links follow, in the middle of the last portal.
fn end_of(portals: &PortalsAhead, ahead: &[Link], goal: Point) -> Point
    requires few { portals.now.count ≤ 24 }
    requires goal { HasCoordinates goal }
{
    if portals.count == 0 || portals.count == ahead.len() {
        return fine(goal);
    }
    match ahead.get(portals.count - 1) {
        Some(link) => middle(link.portal),
        None => fine(goal),
    }
}

/// Whether the mesh lets an agent go by a vector.
fn walks(mesh: &Mesh, agent: &CrowdAgent, by: Point) -> bool
    requires sound { IsSound mesh.now }
    requires sizes { HasSizes agent.now }
{
    let to = onward(agent.at, by);
    if !is_fine(to) || !is_fine_held(mesh, agent.polygon, agent.at) {
        return false;
    }
    fine_walk(mesh, agent.areas, agent.polygon, agent.at, to).is_some()
}

/// How far the goal is: from the middle of a portal to that of the next.
pub(crate) fn way_left(at: Point, ahead: &[Link], goal: Point) -> u64
    requires { HasCoordinates goal }
{
    let mut from = at;
    let mut left = 0_u64;
    for link in ahead {
        let to = middle(link.portal);
        left = left.saturating_add(u64::from(length_of(toward(from, to))));
        from = to;
    }
    left.saturating_add(u64::from(length_of(toward(from, fine(goal)))))
}
