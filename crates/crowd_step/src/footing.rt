//! The agents in their polygons of the mesh, and which moves it lets them make.

ghost use Rattle.std.specs.Prelude.{◌≡◌, All, IfOk, length};
ghost use Rattle.nav_ground.specs.Limits.{IsSetting};
ghost use Rattle.mesh_types.specs.Soundness.{IsSound};
ghost use Rattle.crowd_moves.specs.Pairs.{HasSizes};
ghost use Rattle.crowd_filter.specs.CrowdAgents.{IsCrowdAgent};
ghost use Rattle.crowd_step.specs.Steered.{IsFooting};

use crate::vectors::{Vector, point_of};
use crowd_filter::{MeshSpace, place};
use crowd_moves::{CrowdAgent, CrowdMove, MoveSpace, is_mover, standing};
use mesh_types::Mesh;
use std::alloc::{AllocError, Global};

/// Each agent in its polygon of the mesh.
pub(crate) fn placed_in(
    alloc: Global,
    mesh: &Mesh,
    agents: &[CrowdAgent],
) -> Result<Vec<CrowdAgent>, AllocError>
    requires sound { IsSound mesh.now }
    requires setting { IsSetting mesh.now.setting }
    requires sizes { All HasSizes agents.now }
    ensures one_each { IfOk result (λ placed. length placed.items ≡ length agents.now) }
    ensures agents { IfOk result (λ placed. All (IsCrowdAgent mesh.now) placed.items) }
{
    let mut placed = Vec::with_capacity(alloc, agents.len())?;
    for i in 0..agents.len() {
        placed.push(place(mesh, agents[i]))?;
    }
    Ok(placed)
}

/// An agent in its polygon of a mesh.
#[derive(Clone, Copy)]
pub(crate) struct Footing<'a> {
    pub(crate) mesh: &'a Mesh,
    pub(crate) agent: &'a CrowdAgent,
}

/// Whether the mesh lets an agent make a move that is no longer than its speed.
pub(crate) fn walks(footing: Footing, by: Vector) -> bool
    requires { IsFooting footing.mesh.now footing.agent.now }
{
    let by = point_of(by);
    let made = CrowdMove {
        by,
        ..standing(footing.agent)
    };
    if !is_mover(footing.agent, &made) {
        return false;
    }
    let space = MeshSpace { mesh: footing.mesh };
    space.way(footing.agent, by).is_some()
}
