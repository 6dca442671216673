//! The question where a kept path leads an agent, and its answers.

ghost use Rattle.std.specs.Prelude.{◌≡◌, ◌≤◌, length};
ghost use Rattle.nav_base.specs.Point.{HasCoordinates};
ghost use Rattle.mesh_types.specs.Soundness.{IsSound};
ghost use Rattle.crowd_moves.specs.Pairs.{HasSizes};
ghost use Rattle.crowd_lead.specs.Leading.{IsLead, way_to};

use crate::lines::{way_along, way_left};
use crate::places::place_of;
use crate::vectors::{cut, fine, vector};
use crowd_moves::CrowdAgent;
use mesh_types::{Link, Mesh};
use nav_base::Point;

/// Where a kept path leads an agent.
#[derive(Clone, Copy, PartialEq, Eq)]
pub enum LeadAnswer {
    /// By which vector it would like to go, how far its goal is, both in 1/256 of a cell, and how many links are behind it.
    Led { wish: Point, left: u64, link: usize },
    /// Its polygon is none of those near; as many links as were told before. A way has to be looked for anew.
    Cut { link: usize },
}

/// Where kept links lead an agent, of which so many were behind it before. The goal is in sixteenths of a cell.
pub fn lead(mesh: &Mesh, agent: &CrowdAgent, goal: Point, links: &[Link], link: usize) -> LeadAnswer
    requires sound { IsSound mesh.now }
    requires sizes { HasSizes agent.now }
    requires goal { HasCoordinates goal }
    requires behind { link ≤ length links.now }
    ensures right { IsLead mesh.now agent.now goal links.now link result }
{
    let Some(place) = place_of(mesh, agent, goal, links, link) else {
        return LeadAnswer::Cut { link };
    };
    let ahead = &links[place..];
    let aim = aim(mesh, agent, goal, ahead);
    LeadAnswer::Led {
        wish: cut(aim, agent.speed),
        left: way_left(agent.at, ahead, goal),
        link: place,
    }
}

/// By which vector an agent would like to go, of any length: straight to the goal where no link is ahead.
fn aim(mesh: &Mesh, agent: &CrowdAgent, goal: Point, ahead: &[Link]) -> Point
    requires sound { IsSound mesh.now }
    requires sizes { HasSizes agent.now }
    requires goal { HasCoordinates goal }
    ensures { length ahead.now ≡ 0 → result ≡ way_to agent.now goal }
{
    if ahead.is_empty() {
        return vector(agent.at, fine(goal));
    }
    way_along(mesh, agent, goal, ahead)
}
