//! A random crowd, and what it wishes.

ghost use Rattle.std.specs.Prelude.{◌≡◌, All, IsTrue};
ghost use Rattle.nav_ground.specs.Limits.{IsSetting};
ghost use Rattle.mesh_types.specs.Soundness.{IsSound};
ghost use Rattle.crowd_moves.specs.Pairs.{HasSizes};

use crate::random::Random;
use crowd_filter::place;
use crowd_moves::{CrowdAgent, has_sizes};
use mesh_types::{Mesh, PolyRef};
use nav_base::Point;
use nav_ground::Setting;
use std::alloc::{AllocError, Global};

/// How large agents are at most, in fine units.
#[derive(Clone, Copy)]
pub struct Sizes {
    pub radius: u32,
    pub speed: u32,
}

/// So many agents at random points of a mesh, as far as such are found.
pub fn random_agents(
    alloc: Global,
    mesh: &Mesh,
    count: u32,
    sizes: Sizes,
    random: &mut Random,
) -> Result<Vec<CrowdAgent>, AllocError>
    requires sound { IsSound mesh.now }
    requires setting { IsSetting mesh.now.setting }
{
    let mut agents = Vec::new(alloc);
    for _place in 0..count {
        agents.push(agent_on(mesh, sizes, random))?;
    }
    Ok(agents)
}

/// An agent at the first of some random points that a polygon holds, or at the last.
fn agent_on(mesh: &Mesh, sizes: Sizes, random: &mut Random) -> CrowdAgent
    requires sound { IsSound mesh.now }
    requires setting { IsSetting mesh.now.setting }
{
    for _try in 0..8 {
        let agent = random_agent(&mesh.setting, sizes, random);
        if has_sizes(&agent) && !place(mesh, agent).stranded {
            return agent;
        }
    }
    random_agent(&mesh.setting, sizes, random)
}

/// It names the first polygon, and floors about 10 or 40, so the first step finds out where it is.
fn random_agent(setting: &Setting, sizes: Sizes, random: &mut Random) -> CrowdAgent {
    let x = random.below(setting.width.wrapping_mul(256));
    let z = random.below(setting.depth.wrapping_mul(256));
    let floor = if random.below(4) == 0 { 40 } else { 10 };
    CrowdAgent {
        polygon: PolyRef { tile: 0, index: 0 },
        at: Point {
            x: i32::try_from(x).unwrap_or(0),
            z: i32::try_from(z).unwrap_or(0),
        },
        low: floor,
        high: floor,
        stranded: false,
        areas: u64::MAX,
        radius: random.below(sizes.radius).wrapping_add(1),
        speed: random.below(sizes.speed.wrapping_add(1)),
    }
}

/// Whether all have sizes that may be asked.
pub fn are_sized(agents: &[CrowdAgent]) -> bool
    ensures { IsTrue result → All HasSizes agents.now }
{
    for i in 0..agents.len() {
        if !has_sizes(&agents[i]) {
            return false;
        }
    }
    true
}

/// The wishes of all: vectors one after the other, and where each agent's begin; at most four each, some of them too long.
#[derive(Drop)]
pub struct RandomWishes {
    pub first: Vec<usize>,
    pub vectors: Vec<Point>,
}

pub fn random_wishes(
    alloc: Global,
    agents: &[CrowdAgent],
    random: &mut Random,
) -> Result<RandomWishes, AllocError> {
    let mut first = Vec::new(alloc);
    let mut vectors = Vec::new(alloc);
    first.push(0)?;
    for i in 0..agents.len() {
        push_wishes(&mut vectors, agents[i].speed, random)?;
        first.push(vectors.len())?;
    }
    Ok(RandomWishes { first, vectors })
}

fn push_wishes(
    vectors: &mut Vec<Point>,
    speed: u32,
    random: &mut Random,
) -> Result<(), AllocError> {
    for _place in 0..random.below(5) {
        vectors.push(Point {
            x: random.around(speed),
            z: random.around(speed),
        })?;
    }
    Ok(())
}

/// Each agent once, the last first in every other step.
pub fn order_of(alloc: Global, count: usize, turned: bool) -> Result<Vec<u32>, AllocError> {
    let mut order = Vec::new(alloc);
    for i in 0..count {
        let place = if turned { count - 1 - i } else { i };
        order.push(u32::try_from(place).unwrap_or(0))?;
    }
    Ok(order)
}
