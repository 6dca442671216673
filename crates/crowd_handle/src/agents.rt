//! The agents of a crowd over the border.

ghost use Rattle.std.specs.Prelude.{◌≡◌, ◌↔◌, All, IfOk, IsTrue};
ghost use Rattle.crowd_handle.specs.Agents;
ghost use Rattle.crowd_handle.specs.Agents.{AreAgentsToldRight, AreCrowdRules, IsAgentToldRight, agents_of, all_placed_told, fine_points, placed_told};

use crowd_moves::CrowdAgent;
use mesh_types::PolyRef;
use nav_base::Point;
use nav_handle::{NavdPolygon, polygon_told};
use std::alloc::{AllocError, Global};

/// A point of the plane, or a vector, in 1/256 of a cell.
#[repr(C)]
#[derive(Clone, Copy)]
pub struct NavdFine {
    pub x: i32,
    pub z: i32,
}

/// An agent of a crowd: the polygon that holds its middle, that middle, the polygon's floors, and whether no such polygon is known (1), which the
/// calls tell; whether it makes room for all others (1), which areas it may enter, its radius as it is and its full one, and how far it may go in a
/// step, which the host writes; how far its goal is and by which vector it would like to go, which a kept path tells, or the host; and what the steps
/// keep, 0 at first.
#[repr(C)]
#[derive(Clone, Copy)]
pub struct NavdAgent {
    pub polygon: NavdPolygon,
    pub at: NavdFine,
    pub low: u32,
    pub high: u32,
    pub stranded: u32,
    pub idle: u32,
    pub areas: u64,
    pub left: u64,
    pub radius: u32,
    pub full: u32,
    pub speed: u32,
    pub unused: u32,
    pub wish: NavdFine,
    pub last: NavdFine,
    pub meant: NavdFine,
    pub waited: u32,
    pub tired: u32,
}

/// How far the agents of a crowd see, in 1/256 of a cell, how many steps it makes in a second, and in how many rounds moves are granted.
#[repr(C)]
#[derive(Clone, Copy)]
pub struct NavdCrowd {
    pub sight: u32,
    pub hz: u32,
    pub rounds: u32,
}

pub(crate) fn fine_point(p: NavdFine) -> Point
    ensures { result ≡ Agents.fine_point p }
{
    Point { x: p.x, z: p.z }
}

pub(crate) fn fine_told(p: Point) -> NavdFine
    ensures { result ≡ Agents.fine_told p }
{
    NavdFine { x: p.x, z: p.z }
}

/// Fine points of the host's array.
pub(crate) fn fine_points(alloc: Global, points: &[NavdFine]) -> Result<Vec<Point>, AllocError>
    ensures { IfOk result (λ list. list.items ≡ fine_points points.now) }
{
    let mut list = Vec::with_capacity(alloc, points.len())?;
    for point in points {
        list.push(fine_point(*point))?;
    }
    Ok(list)
}

/// An agent that a host hands over.
pub(crate) fn agent_of(agent: &NavdAgent) -> CrowdAgent
    ensures { result ≡ Agents.agent_of agent.now }
{
    CrowdAgent {
        polygon: PolyRef {
            tile: agent.polygon.tile,
            index: agent.polygon.index,
        },
        at: fine_point(agent.at),
        low: agent.low,
        high: agent.high,
        stranded: agent.stranded != 0,
        areas: agent.areas,
        radius: agent.radius,
        speed: agent.speed,
    }
}

/// The agents of the host's array.
pub(crate) fn agents_of(alloc: Global, agents: &[NavdAgent]) -> Result<Vec<CrowdAgent>, AllocError>
    ensures { IfOk result (λ list. list.items ≡ agents_of agents.now) }
{
    let mut list = Vec::with_capacity(alloc, agents.len())?;
    for agent in agents {
        list.push(agent_of(agent))?;
    }
    Ok(list)
}

/// Whether an agent is within its limits.
pub(crate) fn is_told_right(agent: &NavdAgent) -> bool
    ensures { IsTrue result ↔ IsAgentToldRight agent.now }
{
    agent.at.x.unsigned_abs() <= 1048576
        && agent.at.z.unsigned_abs() <= 1048576
        && 1 <= agent.radius
        && agent.radius <= agent.full
        && agent.full <= 8191
        && agent.speed <= 8191
}

/// Whether each of some agents is.
fn is_each_told_right(agents: &[NavdAgent]) -> bool
    ensures { IsTrue result ↔ All IsAgentToldRight agents.now }
{
    for agent in agents {
        if !is_told_right(agent) {
            return false;
        }
    }
    true
}

/// Whether the agents of a crowd are within their limits.
pub(crate) fn are_told_right(agents: &[NavdAgent]) -> bool
    ensures { IsTrue result ↔ AreAgentsToldRight agents.now }
{
    agents.len() <= 65535 && is_each_told_right(agents)
}

/// Whether the rules of a crowd are within their limits.
pub(crate) fn are_rules(rules: &NavdCrowd) -> bool
    ensures { IsTrue result ↔ AreCrowdRules rules.now }
{
    rules.sight <= 16384
        && 1 <= rules.hz
        && rules.hz <= 1000
        && 1 <= rules.rounds
        && rules.rounds <= 64
}

/// Tells where an agent is.
pub(crate) fn tell_placed(placed: &CrowdAgent, agent: &mut NavdAgent)
    ensures { agent.new ≡ placed_told placed.now agent.old }
{
    agent.polygon = polygon_told(placed.polygon);
    agent.at = fine_told(placed.at);
    agent.low = placed.low;
    agent.high = placed.high;
    agent.stranded = if placed.stranded { 1 } else { 0 };
}

/// Tells where the agents of a list are, as far as it and the room go.
pub(crate) fn tell_all_placed(placed: &[CrowdAgent], room: &mut [NavdAgent])
    ensures { room.new ≡ all_placed_told placed.now room.old }
{
    let count = placed.len().min(room.len());
    for place in 0..count {
        tell_placed(&placed[place], &mut room[place]);
    }
}
