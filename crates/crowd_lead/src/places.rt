//! The place of an agent on a kept path.

ghost use Rattle.std.specs.Prelude.{◌≡◌, ◌↔◌, ◌<◌, ◌≤◌, IfSome, IfNone, IsTrue, length};
ghost use Rattle.nav_base.specs.Point.{HasCoordinates};
ghost use Rattle.mesh_types.specs.Soundness.{IsSound};
ghost use Rattle.crowd_lead.specs.Leading.{ComesToEnd, DoesLastEnter, IsAt, IsFirstAhead, IsLastBehind, IsNotAhead, IsNotBehind, IsOffPath, IsPlaceOf, LeavesAgent};

use crate::vectors::fine;
use crowd_moves::CrowdAgent;
use fine_walk::is_fine_held;
use kept_paths::leaves;
use mesh_types::{Link, Mesh, PolyRef};
use nav_base::Point;

/// How many places are looked at from the known one on.
const AHEAD: usize = 32;

/// How many are looked at before it.
const BEHIND: usize = 16;

/// The place of an agent on a path, near a known one.
pub(crate) fn place_of(
    mesh: &Mesh,
    agent: &CrowdAgent,
    goal: Point,
    links: &[Link],
    known: usize,
) -> Option<usize>
    requires sound { IsSound mesh.now }
    requires goal { HasCoordinates goal }
    requires within { known ≤ length links.now }
    ensures some { IfSome result (IsPlaceOf mesh.now agent.now goal links.now known) }
    ensures none { IfNone result (IsOffPath mesh.now agent.now goal links.now known) }
{
    match first_ahead(mesh, agent, goal, links, known) {
        Some(place) => Some(place),
        None => last_behind(mesh, agent, goal, links, known),
    }
}

/// The first place from the known one on at which an agent is.
fn first_ahead(
    mesh: &Mesh,
    agent: &CrowdAgent,
    goal: Point,
    links: &[Link],
    known: usize,
) -> Option<usize>
    requires sound { IsSound mesh.now }
    requires goal { HasCoordinates goal }
    requires within { known ≤ length links.now }
    ensures some { IfSome result (IsFirstAhead mesh.now agent.now goal links.now known) }
    ensures none { IfNone result (IsNotAhead mesh.now agent.now goal links.now known) }
{
    let end = (links.len() + 1).min(known + AHEAD);
    for place in known..end {
        if is_at(mesh, agent, goal, links, place) {
            return Some(place);
        }
    }
    None
}

/// The last place before the known one at which an agent is.
fn last_behind(
    mesh: &Mesh,
    agent: &CrowdAgent,
    goal: Point,
    links: &[Link],
    known: usize,
) -> Option<usize>
    requires sound { IsSound mesh.now }
    requires goal { HasCoordinates goal }
    requires within { known ≤ length links.now }
    ensures some { IfSome result (IsLastBehind mesh.now agent.now goal links.now known) }
    ensures none { IfNone result (IsNotBehind mesh.now agent.now goal links.now known) }
{
    for back in 0..known.min(BEHIND) {
        let place = known - 1 - back;
        if is_at(mesh, agent, goal, links, place) {
            return Some(place);
        }
    }
    None
}

/// Whether an agent is at a place of a path.
fn is_at(mesh: &Mesh, agent: &CrowdAgent, goal: Point, links: &[Link], place: usize) -> bool
    requires sound { IsSound mesh.now }
    requires goal { HasCoordinates goal }
    requires within { place ≤ length links.now }
    ensures { IsTrue result ↔ IsAt mesh.now agent.now goal links.now place }
{
    match links.get(place) {
        Some(link) => leaves_agent(mesh, agent, link),
        None => comes_to_end(mesh, agent, goal, links),
    }
}

/// Whether a link is one of the mesh that leaves an agent's polygon.
fn leaves_agent(mesh: &Mesh, agent: &CrowdAgent, link: &Link) -> bool
    requires sound { IsSound mesh.now }
    ensures { IsTrue result ↔ LeavesAgent mesh.now agent.now link.now }
{
    link.from == agent.polygon && leaves(mesh, agent.polygon, link)
}

/// Whether a path comes to its end in an agent's polygon.
fn comes_to_end(mesh: &Mesh, agent: &CrowdAgent, goal: Point, links: &[Link]) -> bool
    requires sound { IsSound mesh.now }
    requires goal { HasCoordinates goal }
    ensures { IsTrue result ↔ ComesToEnd mesh.now agent.now goal links.now }
{
    does_last_enter(links, agent.polygon) && is_fine_held(mesh, agent.polygon, fine(goal))
}

/// Whether the last link of a path enters a polygon, if the path has links.
fn does_last_enter(links: &[Link], at: PolyRef) -> bool
    ensures { IsTrue result ↔ DoesLastEnter links.now at }
{
    if links.is_empty() {
        return true;
    }
    links[links.len() - 1].to == at
}
